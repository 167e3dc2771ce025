//! Reads the rows of the tables as versions.
ghost use Rattle.std.specs.Prelude.{◌++◌, ◌∷◌, [], List};
ghost use Rattle.land_tables_rows.specs.Effects.{ReadsTables};
ghost use Rattle.land_tables_rows.specs.Listing.Reading.{FailsOnlyIfNone, IsRead, Says, editions, moments};
ghost use Rattle.land_tables_rows.specs.Listing.Statements.{ListsTable};
ghost use Rattle.land_tables_rows.specs.Reading.Readings.{each_row};
ghost use Rattle.land_tables_schema.specs.Connections.{HasV1Tables, LeavesAutocommit};
ghost use Rattle.land_wire_json.specs.Bodies.WireFaults.{Returns};
ghost use Rattle.sqlite.specs.Held.{state};
ghost use Rattle.sqlite.specs.State.{HasCleanDisk};
ghost use Rattle.sqlite_value.specs.Order.{Row as SqlRow};

use crate::edition::reading::Edition;
use crate::listing::fault::ReadFault;
use crate::listing::listed::Listed;
use crate::reading::from_row::FromRow;
use land_core::sequence::Sequence;
use land_tables_history::moment::Moment;
use land_wire_json::bodies::wire_fault::WireFault;
use sqlite::{Alter, Connection, Row};
use std::alloc::Global;

/// Decodes one more row and appends its record, unless an earlier row did not decode.
fn read_next<X: FromRow>(
    alloc: Global,
    earlier: Result<Sequence<X>, WireFault>,
    row: &Row,
) -> Result<Sequence<X>, WireFault>
    ensures { (rows : List SqlRow) → Returns (λ it. it) earlier (each_row X.FromRow.said rows)
        → Returns (λ it. it) result (each_row X.FromRow.said (rows ++ row.now ∷ [])) }
{
    let mut all = earlier?;
    all.push(X::from_row(alloc, row)?)?;
    Ok(all)
}

/// Returns the records of rows. Errors: `Unreadable` (520) if a row did not decode; `NoMemory` (501).
fn conclude<X: FromRow>(read: Result<Sequence<X>, WireFault>) -> Result<Sequence<X>, ReadFault>
    ensures { (rows : List SqlRow) → Returns (λ it. it) read (each_row X.FromRow.said rows)
        → IsRead X.FromRow.said rows result }
{
    Ok(read?)
}

/// Runs the statement that lists a table and decodes each row as it comes, so there is no list of rows.
/// After a row that does not decode, it still reads the rest: an error of the store has precedence.
fn read_rows<S: Alter, X: Listed>(
    alloc: Global,
    conn: &mut Connection<S>,
    text: &str,
) -> Result<Sequence<X>, ReadFault>
    requires lists { ListsTable X.has X.listing.table.tree X.listing.shown text.now }
    requires has_table { HasCleanDisk (state S.Store conn.old) → X.has (state S.Store conn.old).now.schema }
    ensures reads_only { ReadsTables S.Store result (Says X.listing) conn.old conn.new }
    ensures unreadable { FailsOnlyIfNone S.Store result (Says X.listing) conn.old conn.new }
    ensures autocommit { LeavesAutocommit conn.old conn.new }
{
    let mut read = Ok(Sequence::new(alloc));
    // Counts the rows, so the loop ends.
    let mut count: u64 = 0;
    let mut rows = conn.query(text, &[])?;
    'rows: while let Some(row) = rows.next()? {
        read = read_next(alloc, read, row);
        count = count.checked_add(1).ok_or(ReadFault::NoMemory)?;
    }
    conclude(read)
}

/// Reads all rows of a table and decodes them, in unspecified order. Errors: `Unreadable` (520) if one of
/// them does not decode; `NoMemory` (501); `Store` (502).
pub fn read_table<S: Alter, X: Listed>(
    alloc: Global,
    conn: &mut Connection<S>,
) -> Result<Sequence<X>, ReadFault>
    requires { HasCleanDisk (state S.Store conn.old) → X.has (state S.Store conn.old).now.schema }
    ensures reads_only { ReadsTables S.Store result (Says X.listing) conn.old conn.new }
    ensures unreadable { FailsOnlyIfNone S.Store result (Says X.listing) conn.old conn.new }
    ensures autocommit { LeavesAutocommit conn.old conn.new }
{
    read_rows(alloc, conn, X::text())
}

/// Reads all moments at which the register changed, in unspecified order.
pub fn moments<S: Alter>(
    alloc: Global,
    conn: &mut Connection<S>,
) -> Result<Sequence<Moment>, ReadFault>
    requires { HasV1Tables S.Store conn.old }
    ensures reads_only { ReadsTables S.Store result (Says moments) conn.old conn.new }
    ensures unreadable { FailsOnlyIfNone S.Store result (Says moments) conn.old conn.new }
    ensures autocommit { LeavesAutocommit conn.old conn.new }
{
    read_table(alloc, conn)
}

/// Reads all rows of `edition`: the schema version of the tables.
pub fn editions<S: Alter>(
    alloc: Global,
    conn: &mut Connection<S>,
) -> Result<Sequence<Edition>, ReadFault>
    requires { HasV1Tables S.Store conn.old }
    ensures reads_only { ReadsTables S.Store result (Says editions) conn.old conn.new }
    ensures unreadable { FailsOnlyIfNone S.Store result (Says editions) conn.old conn.new }
    ensures autocommit { LeavesAutocommit conn.old conn.new }
{
    read_table(alloc, conn)
}
