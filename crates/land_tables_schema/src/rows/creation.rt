//! Creates a new register.
ghost use Rattle.std.specs.Prelude.{◌≡◌, false, IsTrue, OnErr, OnOk};
ghost use Rattle.land_tables_schema.specs.Connections.{InTransaction, SameReference};
ghost use Rattle.land_tables_schema.specs.Schemas.{no_schema};
ghost use Rattle.land_tables_schema.specs.Making.{IsMade};
ghost use Rattle.land_tables_schema.specs.Rows.Held.{HoldsRows, IsNew, new_rows};
ghost use Rattle.sqlite.specs.Held.{state};
ghost use Rattle.sqlite.specs.State.{HasCleanDisk, Survives};

use crate::making::create_schema;
use crate::rows::tables::{edition, moments, party, role};
use sqlite::{Alter, Connection, Error, Transaction};

/// Inserts the first rows of a new register: schema version 2, moment 0, and party 1, the Land Office, as
/// state administrator.
fn put_first_rows<S: Alter>(tx: &mut Transaction<'_, S>) -> Result<(), Error>
    requires { HasCleanDisk (state S.Store tx.old.conn.now) → IsMade (state S.Store tx.old.conn.now).now }
    ensures same_reference { SameReference tx.old tx.new }
    ensures step { InTransaction S.Store result (λ _ new. IsNew new) tx.old tx.new }
{
    edition::insert(tx)?;
    moments::insert(tx, 0, 2)?;
    party::begin(tx, 1, "Land Office", "nonNaturalPerson", 0)?;
    role::begin(tx, 1, "stateAdministrator", 0)?;
    Ok(())
}

/// Creates a new register in an empty store: its tables, its indexes and its first rows, in one transaction.
/// The commit is its last store operation. If an error leaves the store open, the store is unchanged. A crash
/// leaves it either unchanged or with the whole register.
pub fn make_register<S: Alter>(conn: &mut Connection<S>) -> Result<(), Error>
    requires alone { conn.old.in_transaction ≡ false }
    requires empty { HasCleanDisk (state S.Store conn.old) → (state S.Store conn.old).now.schema ≡ no_schema }
    ensures made { HasCleanDisk (state S.Store conn.new) → OnOk result (IsNew (state S.Store conn.new).now) }
    ensures committed { HasCleanDisk (state S.Store conn.new)
        → OnOk result ((state S.Store conn.new).committed ≡ (state S.Store conn.new).now) }
    ensures open { HasCleanDisk (state S.Store conn.new)
        → OnOk result (IsTrue (state S.Store conn.new).is_open) }
    ensures neither { HasCleanDisk (state S.Store conn.new) → IsTrue (state S.Store conn.new).is_open
        → OnErr result (((state S.Store conn.new).now ≡ (state S.Store conn.old).committed)
        × ((state S.Store conn.new).committed ≡ (state S.Store conn.old).committed)) }
    ensures crash { Survives (state S.Store conn.old) (state S.Store conn.new) (λ db. HoldsRows db new_rows) }
    ensures ended { conn.new.in_transaction ≡ false }
{
    let mut tx = conn.transaction();
    create_schema(&mut tx)?;
    put_first_rows(&mut tx)?;
    tx.commit()
}
