//! Writes a whole change to the register's tables.
ghost use Rattle.std.specs.Prelude.{◌≡◌, IsTrue};
ghost use Rattle.land_core.specs.Numbers.{IsMoment};
ghost use Rattle.land_tables_history.specs.Written.{written_history};
ghost use Rattle.land_tables_rows.specs.Effects.{Performs};
ghost use Rattle.land_tables_rows.specs.Recording.Whole.{RewritesTables, WritesChange, fits_change};
ghost use Rattle.land_tables_rows.specs.Recording.Whole.{fits_units_and_entries};
ghost use Rattle.land_tables_rows.specs.Recording.Whole.{fits_sources_and_mutations, fits_parties_and_roles};
ghost use Rattle.land_tables_schema.specs.Connections.{HasRegisterTables, SameReference};

use crate::change_writing::kinds::{fit_kind, groups_fit};
use crate::change_writing::parties_and_roles::write_parties_and_roles;
use crate::change_writing::sources_and_mutations::write_sources_and_mutations;
use crate::change_writing::units_and_entries::write_units_and_entries;
use crate::moment::writing;
use crate::writing::laws::table_changes_keep_history;
use land_core::change::Change;
use sqlite::{Alter, Error, Transaction};
use std::alloc::Global;

/// Checks if a change can be written: its records are within the limits of their fields, its ended keys are
/// object numbers, and its next number is 2 to 1,000,000,001.
pub fn fits(change: &Change) -> bool
    ensures { result ≡ fits_change change.now }
{
    parties_and_roles_fit(change)
        && units_and_entries_fit(change)
        && sources_and_mutations_fit(change)
        && writing::fits(change.next)
}

/// Checks if the parties, roles, members and mandates of a change can be written.
fn parties_and_roles_fit(change: &Change) -> bool
    ensures { result ≡ fits_parties_and_roles change.now }
{
    fit_kind(&change.put.parties, &change.ended.parties)
        && fit_kind(&change.put.roles, &change.ended.roles)
        && groups_fit(&change.put.members, &change.ended.members)
        && fit_kind(&change.put.mandates, &change.ended.mandates)
}

/// Checks if its units, parcels and entries can be written.
fn units_and_entries_fit(change: &Change) -> bool
    ensures { result ≡ fits_units_and_entries change.now }
{
    fit_kind(&change.put.units, &change.ended.units)
        && fit_kind(&change.put.parcels, &change.ended.parcels)
        && fit_kind(&change.put.rrrs, &change.ended.rrrs)
}

/// Checks if its sources and mutations can be written.
fn sources_and_mutations_fit(change: &Change) -> bool
    ensures { result ≡ fits_sources_and_mutations change.now }
{
    fit_kind(&change.put.sources, &change.ended.sources)
        && fit_kind(&change.put.mutations, &change.ended.mutations)
}

/// Writes a change and its moment, in an active transaction. Inserted records begin at the stamp; ended and
/// replaced ones end at it. Objects whose numbers are at least `next` (the next number from before the
/// change) are new: no version of them is closed, and new mutations are linked to their units. Returns the
/// store's error, `OutOfMemory` if out of memory; the caller must then roll the transaction back.
pub fn write_change<S: Alter>(
    alloc: Global,
    tx: &mut Transaction<'_, S>,
    change: &Change,
    next: u64,
    stamp: i64,
) -> Result<(), Error>
    requires fits { IsTrue (fits_change change.now) }
    requires moment { IsMoment stamp }
    requires has_tables { HasRegisterTables S.Store tx.old.conn.now }
    ensures same_reference { SameReference tx.old tx.new }
    ensures step { Performs S.Store result (WritesChange change.now next stamp) tx.old tx.new }
{
    table_changes_keep_history();
    write_objects(alloc, tx, change, next, stamp)?;
    writing::insert(tx, stamp, change.next)?;
    Ok(())
}

/// Writes the objects of a change, of all kinds.
fn write_objects<S: Alter>(
    alloc: Global,
    tx: &mut Transaction<'_, S>,
    change: &Change,
    next: u64,
    stamp: i64,
) -> Result<(), Error>
    requires fits { IsTrue (fits_change change.now) }
    requires moment { IsMoment stamp }
    requires has_tables { HasRegisterTables S.Store tx.old.conn.now }
    ensures same_reference { SameReference tx.old tx.new }
    ensures step { Performs S.Store result (RewritesTables (written_history next change.now stamp))
        tx.old tx.new }
{
    write_parties_and_roles(alloc, tx, change, next, stamp)?;
    write_units_and_entries(alloc, tx, change, next, stamp)?;
    write_sources_and_mutations(alloc, tx, change, next, stamp)
}
