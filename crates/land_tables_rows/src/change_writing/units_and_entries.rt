//! Writes units, parcels, and the entries of units.
ghost use Rattle.std.specs.Prelude.{IsTrue};
ghost use Rattle.land_core.specs.Numbers.{IsMoment};
ghost use Rattle.land_tables_rows.specs.Effects.{Performs};
ghost use Rattle.land_tables_rows.specs.Recording.Whole.{RewritesTables, written_units_and_entries};
ghost use Rattle.land_tables_rows.specs.Recording.Whole.{fits_units_and_entries};
ghost use Rattle.land_tables_schema.specs.Connections.{HasRegisterTables, SameReference};

use crate::change_writing::kinds::change_kind;
use crate::writing::laws::table_changes_keep_history;
use land_core::change::Change;
use sqlite::{Alter, Error, Transaction};
use std::alloc::Global;

/// Writes the units, parcels and entries of a change.
pub(crate) fn write_units_and_entries<S: Alter>(
    alloc: Global,
    tx: &mut Transaction<'_, S>,
    change: &Change,
    next: u64,
    stamp: i64,
) -> Result<(), Error>
    requires fits { IsTrue (fits_units_and_entries change.now) }
    requires moment { IsMoment stamp }
    requires has_tables { HasRegisterTables S.Store tx.old.conn.now }
    ensures same_reference { SameReference tx.old tx.new }
    ensures step { Performs S.Store result
        (RewritesTables (written_units_and_entries next change.now stamp)) tx.old tx.new }
{
    table_changes_keep_history();
    change_kind(
        alloc,
        tx,
        &change.put.units,
        &change.ended.units,
        next,
        stamp,
    )?;
    change_kind(
        alloc,
        tx,
        &change.put.parcels,
        &change.ended.parcels,
        next,
        stamp,
    )?;
    change_kind(alloc, tx, &change.put.rrrs, &change.ended.rrrs, next, stamp)
}
