//! The mutations of a lodger.
ghost use Rattle.land_core.specs.Entries.{entries_where};
ghost use Rattle.land_core.specs.Mutations.{is_lodged_as};
ghost use Rattle.land_select_queries.specs.Lookups.Parts.{ReadsPart};
ghost use Rattle.land_select_queries.specs.TableReads.{FailsOnlyWithoutHistory, ReadsTables};
ghost use Rattle.land_tables_schema.specs.Connections.{HasRegisterTables, LeavesAutocommit};

use crate::lookups::record_rows::{query_lodged, read};
use land_core::mutation::MutationRecord;
use land_core::records::Records;
use land_core::sequence::Sequence;
use land_tables_history::part::part_at;
use land_tables_history::version::Version;
use land_tables_rows::listing::fault::ReadFault;
use sqlite::{Alter, Connection};
use std::alloc::Global;

/// Reads the mutation that a party lodged with a reference, at a time, in Unix milliseconds, as a map from
/// its number. Returns error 520 only if the tables hold no history, and 501 if out of memory.
pub fn find_lodged<S: Alter>(
    alloc: Global,
    conn: &mut Connection<S>,
    lodger: u64,
    reference: &str,
    at: i64,
) -> Result<Records<MutationRecord>, ReadFault>
    requires has_tables { HasRegisterTables S.Store conn.old }
    ensures reads_only { ReadsTables S.Store result
        (ReadsPart (λ r. entries_where (λ n m. is_lodged_as lodger reference.now m) r.mutations) at) conn.old
        conn.new }
    ensures unreadable { FailsOnlyWithoutHistory S.Store result conn.old conn.new }
    ensures autocommit { LeavesAutocommit conn.old conn.new }
{
    let rows = query_lodged(conn, lodger, reference, at)?;
    let found: Sequence<Version<(u64, MutationRecord)>> = read(alloc, rows.as_slice())?;
    Ok(part_at(alloc, found.as_slice(), at)?)
}
