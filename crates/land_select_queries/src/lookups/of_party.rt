//! The roles of a party.
ghost use Rattle.std.specs.Prelude.{nat_eq};
ghost use Rattle.land_core.specs.Entries.{entries_where};
ghost use Rattle.land_select_queries.specs.Lookups.Parts.{ReadsPart};
ghost use Rattle.land_select_queries.specs.TableReads.{FailsOnlyWithoutHistory, ReadsTables};
ghost use Rattle.land_tables_schema.specs.Connections.{HasRegisterTables, LeavesAutocommit};

use crate::lookups::record_lookup::RecordLookup;
use crate::lookups::record_rows::find;
use land_core::roles::Roles;
use land_tables_history::roles::roles_at;
use land_tables_rows::listing::fault::ReadFault;
use sqlite::{Alter, Connection};
use std::alloc::Global;

/// Reads the roles that a party holds at a time, in Unix milliseconds. Returns error 520 only if the tables
/// hold no history, and 501 if out of memory.
pub fn roles<S: Alter>(
    alloc: Global,
    conn: &mut Connection<S>,
    party: u64,
    at: i64,
) -> Result<Roles, ReadFault>
    requires has_tables { HasRegisterTables S.Store conn.old }
    ensures reads_only { ReadsTables S.Store result
        (ReadsPart (λ r. entries_where (λ grant u. nat_eq grant.party party) r.roles) at) conn.old conn.new }
    ensures unreadable { FailsOnlyWithoutHistory S.Store result conn.old conn.new }
    ensures autocommit { LeavesAutocommit conn.old conn.new }
{
    let found = find(alloc, conn, RecordLookup::RolesOfParty, party, at)?;
    Ok(roles_at(alloc, found.as_slice(), at)?)
}
