//! Records by their numbers.
ghost use Rattle.std.specs.FinMap as map;
ghost use Rattle.land_select_queries.specs.Lookups.RecordRows.{IsValueOfOne};
ghost use Rattle.land_select_queries.specs.Lookups.Parts.{ReadsPart};
ghost use Rattle.land_select_queries.specs.TableReads.{FailsOnlyWithoutHistory, ReadsTables};
ghost use Rattle.land_tables_schema.specs.Connections.{HasRegisterTables, LeavesAutocommit};

use crate::lookups::numbered::Numbered;
use crate::lookups::record_rows::find;
use land_core::sequence::Sequence;
use land_tables_history::version::Version;
use land_tables_rows::listing::fault::ReadFault;
use land_tables_rows::reading::from_row::FromRow;
use sqlite::{Alter, Connection};
use std::alloc::Global;

/// Returns the record of one of the versions, or `None` if there are none.
fn record_of<V: Drop>(found: Sequence<Version<(u64, V)>>) -> Option<V>
    ensures { IsValueOfOne found result }
{
    let mut versions = found.into_vec();
    match versions.pop() {
        Some(version) => {
            let Version {
                what,
                since: _,
                until: _,
            } = version;
            let (_, value) = what;
            Some(value)
        }
        None => None,
    }
}

/// Reads the record of a number at a time, in Unix milliseconds; `None` if it does not exist. Returns error
/// 520 only if the tables hold no history, and 501 if out of memory.
pub fn record<V: Numbered, S: Alter>(
    alloc: Global,
    conn: &mut Connection<S>,
    number: u64,
    at: i64,
) -> Result<Option<V>, ReadFault>
where
    Version<(u64, V)>: FromRow,
    requires has_tables { HasRegisterTables S.Store conn.old }
    ensures reads_only { ReadsTables S.Store result (ReadsPart (λ r. map.get (V.part r) number) at) conn.old
        conn.new }
    ensures unreadable { FailsOnlyWithoutHistory S.Store result conn.old conn.new }
    ensures autocommit { LeavesAutocommit conn.old conn.new }
{
    let found = find(alloc, conn, V::BY_NUMBER, number, at)?;
    Ok(record_of(found))
}
