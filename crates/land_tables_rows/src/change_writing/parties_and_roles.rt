//! Writes parties, their roles, the members of groups, and mandates.
ghost use Rattle.std.specs.Prelude.{IsTrue};
ghost use Rattle.land_core.specs.Numbers.{IsMoment};
ghost use Rattle.land_tables_rows.specs.Effects.{Performs};
ghost use Rattle.land_tables_rows.specs.Recording.Whole.{RewritesTables, written_parties_and_roles};
ghost use Rattle.land_tables_rows.specs.Recording.Whole.{fits_parties_and_roles};
ghost use Rattle.land_tables_schema.specs.Connections.{HasRegisterTables, SameReference};

use crate::change_writing::kinds::{change_kind, change_members};
use crate::writing::laws::table_changes_keep_history;
use land_core::change::Change;
use sqlite::{Alter, Error, Transaction};
use std::alloc::Global;

/// Writes the parties, roles, members and mandates of a change.
pub(crate) fn write_parties_and_roles<S: Alter>(
    alloc: Global,
    tx: &mut Transaction<'_, S>,
    change: &Change,
    next: u64,
    stamp: i64,
) -> Result<(), Error>
    requires fits { IsTrue (fits_parties_and_roles change.now) }
    requires moment { IsMoment stamp }
    requires has_tables { HasRegisterTables S.Store tx.old.conn.now }
    ensures same_reference { SameReference tx.old tx.new }
    ensures step { Performs S.Store result
        (RewritesTables (written_parties_and_roles next change.now stamp)) tx.old tx.new }
{
    table_changes_keep_history();
    change_kind(
        alloc,
        tx,
        &change.put.parties,
        &change.ended.parties,
        next,
        stamp,
    )?;
    change_kind(
        alloc,
        tx,
        &change.put.roles,
        &change.ended.roles,
        next,
        stamp,
    )?;
    change_members(
        alloc,
        tx,
        &change.put.members,
        &change.ended.members,
        next,
        stamp,
    )?;
    change_kind(
        alloc,
        tx,
        &change.put.mandates,
        &change.ended.mandates,
        next,
        stamp,
    )
}
