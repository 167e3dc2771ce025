//! Loops that begin versions and that close them.
ghost use Rattle.std.specs.Prelude.{◌≡◌, ◌++◌, IsTrue, map};
ghost use Rattle.std.specs.List.{list_all, list_any};
ghost use Rattle.land_core.specs.Numbers.{IsMoment};
ghost use Rattle.land_tables_history.specs.Written.{existing_records};
ghost use Rattle.land_tables_rows.specs.Effects.{Performs};
ghost use Rattle.land_tables_rows.specs.Recording.{BeginsAll, Changes};
ghost use Rattle.land_tables_rows.specs.Writing.Holding.{ClosesVersions};
ghost use Rattle.land_tables_schema.specs.Connections.{HasRegisterTables, SameReference};

use crate::change_writing::versioned::{Closable, HasKey, Versioned};
use sqlite::{Alter, Error, Transaction};
use std::alloc::Global;

/// Checks if all records can be written.
pub fn all_fit<X: Versioned>(put: &[X]) -> bool
    ensures { result ≡ list_all X.fits put.now }
{
    put.iter().all(|x| x.fits())
}

/// Checks if all keys can be written.
pub fn all_keys_fit<K, X: Closable<K>>(keys: &[K]) -> bool
    ensures { result ≡ list_all X.fits_key keys.now }
{
    keys.iter().all(|key| X::fits_key(key))
}

/// Begins a version of each record.
pub fn begin_all<S: Alter, X: Versioned>(
    alloc: Global,
    tx: &mut Transaction<'_, S>,
    put: &[X],
    since: i64,
) -> Result<(), Error>
    requires fits { IsTrue (list_all X.fits put.now) }
    requires moment { IsMoment since }
    requires has_tables { HasRegisterTables S.Store tx.old.conn.now }
    ensures same_reference { SameReference tx.old tx.new }
    ensures step { Performs S.Store result (BeginsAll X.reading put.now since) tx.old tx.new }
{
    for x in put {
        x.begin(alloc, tx, since)?;
    }
    Ok(())
}

/// Closes the current versions with the given keys.
pub fn close_all<S: Alter, K, X: Closable<K>>(
    tx: &mut Transaction<'_, S>,
    keys: &[K],
    stamp: i64,
) -> Result<(), Error>
    requires fits { IsTrue (list_all X.fits_key keys.now) }
    requires moment { IsMoment stamp }
    requires has_tables { HasRegisterTables S.Store tx.old.conn.now }
    ensures same_reference { SameReference tx.old tx.new }
    ensures step { Performs S.Store result
        (ClosesVersions X.reading (λ x. list_any (X.has x) keys.now) stamp) tx.old tx.new }
{
    for key in keys {
        X::close(tx, key, stamp)?;
    }
    Ok(())
}

/// Closes the current versions with the keys of the inserted records of existing objects, whose numbers are
/// below the next number. A new object has no version, so no statement runs for it.
pub fn close_put<S: Alter, K, P: HasKey<K>, X: Closable<K>>(
    tx: &mut Transaction<'_, S>,
    put: &[P],
    next: u64,
    stamp: i64,
) -> Result<(), Error>
    requires fits { IsTrue (list_all (λ x. X.fits_key (P.key x)) put.now) }
    requires moment { IsMoment stamp }
    requires has_tables { HasRegisterTables S.Store tx.old.conn.now }
    ensures same_reference { SameReference tx.old tx.new }
    ensures step { Performs S.Store result
        (ClosesVersions X.reading
        (λ x. list_any (X.has x) (map P.key (existing_records P.number next put.now))) stamp) tx.old tx.new }
{
    for x in put {
        if x.number() < next {
            X::close(tx, x.key(), stamp)?;
        }
    }
    Ok(())
}

/// Closes the current versions with the keys of the inserted records of existing objects, whose numbers are
/// below the next number, and with the ended keys. Then begins versions of the inserted records.
pub fn change<S: Alter, K, X: HasKey<K> + Closable<K>>(
    alloc: Global,
    tx: &mut Transaction<'_, S>,
    put: &[X],
    ended: &[K],
    next: u64,
    stamp: i64,
) -> Result<(), Error>
    requires fits { IsTrue (list_all X.fits put.now) }
    requires keys { IsTrue (list_all (λ x. X.fits_key (X.key x)) put.now) }
    requires ended { IsTrue (list_all X.fits_key ended.now) }
    requires moment { IsMoment stamp }
    requires has_tables { HasRegisterTables S.Store tx.old.conn.now }
    ensures same_reference { SameReference tx.old tx.new }
    ensures step { Performs S.Store result
        (Changes X.reading put.now
        (λ x. list_any (X.has x) (map X.key (existing_records X.number next put.now) ++ ended.now)) stamp)
        tx.old tx.new }
{
    close_put::<S, K, X, X>(tx, put, next, stamp)?;
    close_all::<S, K, X>(tx, ended, stamp)?;
    begin_all(alloc, tx, put, stamp)
}
