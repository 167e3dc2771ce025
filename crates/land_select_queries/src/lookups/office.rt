//! The state administrators.
ghost use Rattle.land_core.specs.Entries.{entries_where};
ghost use Rattle.land_core.specs.Role.{is_role};
ghost use Rattle.land_core.specs.declared.role.Role.TheVariants.{StateAdministrator};
ghost use Rattle.land_select_queries.specs.Lookups.Parts.{ReadsPart};
ghost use Rattle.land_select_queries.specs.TableReads.{FailsOnlyWithoutHistory, ReadsTables};
ghost use Rattle.land_tables_schema.specs.Connections.{HasRegisterTables, LeavesAutocommit};

use crate::lookups::record_lookup::RecordLookup;
use crate::lookups::record_rows::find;
use land_core::roles::Roles;
use land_tables_history::roles::roles_at;
use land_tables_rows::listing::fault::ReadFault;
use sqlite::{Alter, Connection};
use std::alloc::Global;

/// Reads the roles of all state administrators, only that one role of each, at a time, in Unix milliseconds.
/// Returns error 520 only if the tables hold no history, and 501 if out of memory.
pub fn administrators<S: Alter>(
    alloc: Global,
    conn: &mut Connection<S>,
    at: i64,
) -> Result<Roles, ReadFault>
    requires has_tables { HasRegisterTables S.Store conn.old }
    ensures reads_only { ReadsTables S.Store result
        (ReadsPart (λ r. entries_where (λ grant u. is_role grant.role StateAdministrator) r.roles) at)
        conn.old conn.new }
    ensures unreadable { FailsOnlyWithoutHistory S.Store result conn.old conn.new }
    ensures autocommit { LeavesAutocommit conn.old conn.new }
{
    let found = find(alloc, conn, RecordLookup::Administrators, 0, at)?;
    Ok(roles_at(alloc, found.as_slice(), at)?)
}
