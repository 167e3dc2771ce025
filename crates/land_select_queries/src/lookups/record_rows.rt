//! Runs lookups and decodes their rows.
ghost use Rattle.std.specs.Prelude.{IfErr};
ghost use Rattle.land_select_queries.specs.Lookups.RecordRows.{AreLodgedRows, AreRowsOf, AreReadByLookup};
ghost use Rattle.land_select_queries.specs.Lookups.RecordRows.{LookupCannotBeRead};
ghost use Rattle.land_select_queries.specs.TableReads.{ReadsTables};
ghost use Rattle.land_tables_rows.specs.Listing.Reading.{IsRead};
ghost use Rattle.land_tables_schema.specs.Connections.{HasRegisterTables, LeavesAutocommit};
ghost use Rattle.sqlite.specs.Held.{state};
ghost use Rattle.sqlite.specs.State.{HasCleanDisk};

use crate::joins::running::known_or_zero;
use crate::lookups::record_lookup::{RecordLookup, text_of};
use crate::lookups::texts;
use land_core::sequence::Sequence;
use land_tables_rows::listing::fault::ReadFault;
use land_tables_rows::reading::from_row::{FromRow, read_all};
use land_tables_schema::rows::cells::{of_moment, of_number, of_text};
use sqlite::{Alter, Connection, Error, Row};
use std::alloc::Global;

/// Runs a lookup at a time and returns its rows, in any order.
fn rows_of<S: Alter>(
    conn: &mut Connection<S>,
    record_lookup: RecordLookup,
    number: u64,
    at: i64,
) -> Result<Vec<Row>, Error>
    requires has_tables { HasRegisterTables S.Store conn.old }
    ensures reads_only { ReadsTables S.Store result
        (λ db rows. AreRowsOf record_lookup number at db rows.items)
        conn.old
        conn.new }
    ensures autocommit { LeavesAutocommit conn.old conn.new }
{
    conn.query_all(
        text_of(record_lookup),
        &[of_number(known_or_zero(number)), of_moment(at)],
    )
}

/// Returns the rows of the mutation that a party lodged with a reference, at a time.
pub(crate) fn query_lodged<S: Alter>(
    conn: &mut Connection<S>,
    lodger: u64,
    reference: &str,
    at: i64,
) -> Result<Vec<Row>, Error>
    requires has_tables { HasRegisterTables S.Store conn.old }
    ensures reads_only { ReadsTables S.Store result
        (λ db rows. AreLodgedRows lodger reference.now at db rows.items) conn.old conn.new }
    ensures autocommit { LeavesAutocommit conn.old conn.new }
{
    conn.query_all(
        texts::MUTATION_LODGED_AS,
        &[
            of_number(known_or_zero(lodger)),
            of_moment(at),
            of_text(reference),
        ],
    )
}

/// Decodes rows. Returns error 520 if a row is unreadable, and 501 if out of memory.
pub(crate) fn read<X: FromRow>(alloc: Global, rows: &[Row]) -> Result<Sequence<X>, ReadFault>
    ensures { IsRead X.FromRow.said rows.now result }
{
    Ok(read_all(alloc, rows)?)
}

/// Runs a lookup at a time, in Unix milliseconds, and returns the decoded rows, in any order. Returns error
/// 520 if a row is unreadable, and 501 if out of memory.
pub fn find<X: FromRow, S: Alter>(
    alloc: Global,
    conn: &mut Connection<S>,
    record_lookup: RecordLookup,
    number: u64,
    at: i64,
) -> Result<Sequence<X>, ReadFault>
    requires has_tables { HasRegisterTables S.Store conn.old }
    ensures reads_only { ReadsTables S.Store result (AreReadByLookup X.FromRow.said record_lookup number at)
        conn.old
        conn.new }
    ensures unreadable { HasCleanDisk (state S.Store conn.new)
        → IfErr result (LookupCannotBeRead X.FromRow.said record_lookup number at
        (state S.Store conn.old).now.trees) }
    ensures autocommit { LeavesAutocommit conn.old conn.new }
{
    let rows = rows_of(conn, record_lookup, number, at)?;
    read(alloc, rows.as_slice())
}
