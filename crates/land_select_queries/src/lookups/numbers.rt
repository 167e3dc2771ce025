//! Runs lookups of one column.
ghost use Rattle.land_select_queries.specs.Lookups.Numbers.{AreColumnNumbers, AreColumnRows};
ghost use Rattle.land_select_queries.specs.TableReads.{FailsOnlyWithoutHistory, ReadsTables};
ghost use Rattle.land_tables_schema.specs.Connections.{HasRegisterTables, LeavesAutocommit};

use crate::joins::running::{known_or_zero, read};
use crate::lookups::column_lookup::{ColumnLookup, text_of};
use land_core::sequence::NumberList;
use land_tables_rows::listing::fault::ReadFault;
use land_tables_schema::rows::cells::{of_moment, of_number};
use sqlite::{Alter, Connection, Error, Row};
use std::alloc::Global;

/// Runs a lookup at a time and returns its rows, in any order.
fn rows_of<S: Alter>(
    conn: &mut Connection<S>,
    record_lookup: ColumnLookup,
    number: u64,
    at: i64,
) -> Result<Vec<Row>, Error>
    requires has_tables { HasRegisterTables S.Store conn.old }
    ensures reads_only { ReadsTables S.Store result
        (λ db rows. AreColumnRows record_lookup number at db rows.items)
        conn.old conn.new }
    ensures autocommit { LeavesAutocommit conn.old conn.new }
{
    conn.query_all(
        text_of(record_lookup),
        &[of_number(known_or_zero(number)), of_moment(at)],
    )
}

/// Runs a lookup at a time, in Unix milliseconds, and returns the numbers, in any order. Returns error 520
/// only if the tables hold no history, and 501 if out of memory.
pub fn numbers<S: Alter>(
    alloc: Global,
    conn: &mut Connection<S>,
    record_lookup: ColumnLookup,
    number: u64,
    at: i64,
) -> Result<NumberList, ReadFault>
    requires has_tables { HasRegisterTables S.Store conn.old }
    ensures reads_only { ReadsTables S.Store result (AreColumnNumbers record_lookup number at) conn.old
        conn.new }
    ensures unreadable { FailsOnlyWithoutHistory S.Store result conn.old conn.new }
    ensures autocommit { LeavesAutocommit conn.old conn.new }
{
    let rows = rows_of(conn, record_lookup, number, at)?;
    read(alloc, rows.as_slice())
}
