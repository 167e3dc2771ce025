//! Writes sources and mutations, and the links of new mutations to units.
ghost use Rattle.std.specs.Prelude.{IsTrue};
ghost use Rattle.land_core.specs.Numbers.{IsMoment};
ghost use Rattle.land_tables_rows.specs.Effects.{Performs};
ghost use Rattle.land_tables_rows.specs.Recording.Whole.{RewritesTables, written_sources_and_mutations};
ghost use Rattle.land_tables_rows.specs.Recording.Whole.{fits_sources_and_mutations};
ghost use Rattle.land_tables_schema.specs.Connections.{HasRegisterTables, SameReference};

use crate::change_writing::kinds::{begin_names, change_kind};
use crate::writing::laws::table_changes_keep_history;
use land_core::change::Change;
use sqlite::{Alter, Error, Transaction};
use std::alloc::Global;

/// Writes the sources and mutations of a change, and the links of mutations whose numbers are at least
/// `next`.
pub(crate) fn write_sources_and_mutations<S: Alter>(
    alloc: Global,
    tx: &mut Transaction<'_, S>,
    change: &Change,
    next: u64,
    stamp: i64,
) -> Result<(), Error>
    requires fits { IsTrue (fits_sources_and_mutations change.now) }
    requires moment { IsMoment stamp }
    requires has_tables { HasRegisterTables S.Store tx.old.conn.now }
    ensures same_reference { SameReference tx.old tx.new }
    ensures step { Performs S.Store result
        (RewritesTables (written_sources_and_mutations next change.now stamp)) tx.old tx.new }
{
    table_changes_keep_history();
    change_kind(
        alloc,
        tx,
        &change.put.sources,
        &change.ended.sources,
        next,
        stamp,
    )?;
    change_kind(
        alloc,
        tx,
        &change.put.mutations,
        &change.ended.mutations,
        next,
        stamp,
    )?;
    begin_names(alloc, tx, next, &change.put.mutations, stamp)
}
