//! The members of a group.
ghost use Rattle.std.specs.Prelude.{nat_eq};
ghost use Rattle.land_core.specs.Entries.{entries_where};
ghost use Rattle.land_select_queries.specs.Lookups.Parts.{ReadsPart};
ghost use Rattle.land_select_queries.specs.TableReads.{FailsOnlyWithoutHistory, ReadsTables};
ghost use Rattle.land_tables_schema.specs.Connections.{HasRegisterTables, LeavesAutocommit};

use crate::lookups::record_lookup::RecordLookup;
use crate::lookups::record_rows::find;
use land_core::member::Members;
use land_core::records::Records;
use land_tables_history::groups::groups_at;
use land_tables_rows::listing::fault::ReadFault;
use sqlite::{Alter, Connection};
use std::alloc::Global;

/// Reads the members of a group at a time, in Unix milliseconds, as a map from the group's number; the map is
/// empty if the group has none. Returns error 520 only if the tables hold no history, and 501 if out of
/// memory.
pub fn members<S: Alter>(
    alloc: Global,
    conn: &mut Connection<S>,
    group: u64,
    at: i64,
) -> Result<Records<Members>, ReadFault>
    requires has_tables { HasRegisterTables S.Store conn.old }
    ensures reads_only { ReadsTables S.Store result
        (ReadsPart (λ r. entries_where (λ n members. nat_eq n group) r.members) at)
        conn.old conn.new }
    ensures unreadable { FailsOnlyWithoutHistory S.Store result conn.old conn.new }
    ensures autocommit { LeavesAutocommit conn.old conn.new }
{
    let found = find(alloc, conn, RecordLookup::MembersOfGroup, group, at)?;
    Ok(groups_at(alloc, found.as_slice(), at)?)
}
