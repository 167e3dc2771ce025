//! Runs selections and unites their results.
ghost use Rattle.std.specs.Prelude.{◌<◌, ◌≡◌, ◌≢◌, ◌∷◌, ◌++◌, ◌^◌, [], Err, IfErr, IfOk, OnOk, length, Ok, ℕ};
ghost use Rattle.std.specs.List.{Contains};
ghost use Rattle.std.specs.List.Sorted.{IsStrictlyIncreasing};
ghost use Rattle.land_select_queries.specs.Joins.Execution.{AreExactly, AreNumbersForAny, AreNumbersOf};
ghost use Rattle.land_select_queries.specs.Joins.Execution.{AreNumbersOfAny, AreRowsOf, SelectsAll, known_or_zero};
ghost use Rattle.land_select_queries.specs.TableReads.{FailsOnlyWithoutHistory, ReadsTables};
ghost use Rattle.land_tables_rows.specs.Listing.Reading.{IsRead};
ghost use Rattle.land_tables_rows.specs.Reading.Cells.{natural_in};
ghost use Rattle.land_tables_rows.specs.Reading.Readings.{each_row};
ghost use Rattle.land_tables_rows.specs.declared.listing.fault.ReadFault.TheVariants.{NoMemory};
ghost use Rattle.land_tables_schema.specs.Connections.{HasRegisterTables, IsUsable, LeavesAutocommit};
ghost use Rattle.land_wire_json.specs.Bodies.WireFaults.{Returns};
ghost use Rattle.land_wire_json.specs.declared.bodies.wire_fault.WireFault.TheVariants as wire;
ghost use Rattle.sqlite_trees.specs.Tree.{Trees};
ghost use Rattle.sqlite_value.specs.Order.{column};

use crate::joins::text::text_of;
use crate::sights::selection::Selection;
use land_core::kind::Kind;
use land_core::limits::{LAST_MOMENT, is_number};
use land_core::sequence::{NumberList, Sequence};
use land_tables_rows::listing::fault::ReadFault;
use land_tables_rows::reading::cells::natural_at;
use land_tables_schema::rows::cells::{of_moment, of_number};
use land_wire_json::bodies::wire_fault::WireFault;
use sqlite::{Alter, Connection, Error, Row};
use std::alloc::Global;

/// Returns the number to query for: the given one, or 0, which no object has, if it is out of range. Sqlite
/// integers are signed, so a larger number cannot be a parameter.
pub fn known_or_zero(caller: u64) -> u64
    ensures { result ≡ known_or_zero caller }
{
    if is_number(caller) { caller } else { 0 }
}

/// Runs a selection for a caller at a time and returns its rows, in any order.
fn rows_of<S: Alter>(
    conn: &mut Connection<S>,
    selection: Selection,
    caller: u64,
    at: i64,
) -> Result<Vec<Row>, Error>
    requires has_tables { HasRegisterTables S.Store conn.old }
    ensures reads_only { ReadsTables S.Store result (λ db rows. AreRowsOf selection at caller db rows.items)
        conn.old conn.new }
    ensures autocommit { LeavesAutocommit conn.old conn.new }
{
    conn.query_all(
        text_of(selection),
        &[of_number(known_or_zero(caller)), of_moment(at)],
    )
}

/// Decodes the number in the only column of a row and appends it. Returns error 131 for another type, 132 for
/// a negative number, and 501 if out of memory.
fn push_number(numbers: &mut NumberList, row: &Row) -> Result<(), WireFault>
    ensures ok { OnOk result ((n : ℕ) × (natural_in (column row.now 0) ≡ Ok n)
        × (numbers.new ≡ numbers.old ++ n ∷ [])) }
    ensures err { IfErr result (λ fault. fault ≢ wire.NoMemory → natural_in (column row.now 0) ≡ Err fault) }
    ensures fits { OnOk result (length numbers.new < 2 ^ 64) }
{
    numbers.push(natural_at(row, 0)?)?;
    // A length is a usize, so a loop of calls ends.
    let _length = numbers.as_slice().len();
    Ok(())
}

/// Decodes the number in the only column of each row. Returns error 131 for another type, 132 for a negative
/// number, and 501 if out of memory.
fn each_number(alloc: Global, rows: &[Row]) -> Result<NumberList, WireFault>
    ensures { Returns (λ it. it) result (each_row (λ row. natural_in (column row 0)) rows.now) }
{
    let mut all = Sequence::new(alloc);
    for row in rows {
        push_number(&mut all, row)?;
    }
    Ok(all)
}

/// Decodes the numbers in rows. Returns error 520 if a row is unreadable, and 501 if out of memory.
pub(crate) fn read(alloc: Global, rows: &[Row]) -> Result<NumberList, ReadFault>
    ensures { IsRead (λ row. natural_in (column row 0)) rows.now result }
{
    Ok(each_number(alloc, rows)?)
}

/// Returns the selection that returns all objects of a kind at a time. At the last moment all versions have
/// begun, so those that have not ended are the current ones.
fn selection_of_all(kind: Kind, at: i64) -> Selection
    ensures { (db : Trees) → SelectsAll result kind at db }
{
    if at < LAST_MOMENT {
        return Selection::All(kind);
    }
    match kind {
        Kind::Unit => Selection::UnendedUnits,
        Kind::Parcel => Selection::UnendedParcels,
        _ => Selection::All(kind),
    }
}

/// Returns the numbers of a selection for a caller at a time, in any order. Decodes each row as it comes, so
/// there is no list of rows. This is faster for 20 rows or more, and slower for two to 19.
fn stream_numbers<S: Alter>(
    alloc: Global,
    conn: &mut Connection<S>,
    selection: Selection,
    caller: u64,
    at: i64,
) -> Result<NumberList, ReadFault>
    requires has_tables { HasRegisterTables S.Store conn.old }
    ensures reads_only { ReadsTables S.Store result (AreNumbersOf selection at caller) conn.old conn.new }
    ensures unreadable { FailsOnlyWithoutHistory S.Store result conn.old conn.new }
    ensures autocommit { LeavesAutocommit conn.old conn.new }
{
    let mut found = Sequence::new(alloc);
    let params = [of_number(known_or_zero(caller)), of_moment(at)];
    let mut rows = conn.query(text_of(selection), &params)?;
    'rows: while let Some(row) = rows.next()? {
        push_number(&mut found, row)?;
    }
    Ok(found)
}

/// Returns the numbers of a selection for a caller at a time, in Unix milliseconds, in any order. Returns
/// error 520 only if the tables hold no history, and 501 if out of memory.
pub fn numbers<S: Alter>(
    alloc: Global,
    conn: &mut Connection<S>,
    selection: Selection,
    caller: u64,
    at: i64,
) -> Result<NumberList, ReadFault>
    requires has_tables { HasRegisterTables S.Store conn.old }
    ensures reads_only { ReadsTables S.Store result (AreNumbersOf selection at caller) conn.old conn.new }
    ensures unreadable { FailsOnlyWithoutHistory S.Store result conn.old conn.new }
    ensures autocommit { LeavesAutocommit conn.old conn.new }
{
    if let Selection::All(kind) = selection {
        return stream_numbers(alloc, conn, selection_of_all(kind, at), caller, at);
    }
    let rows = rows_of(conn, selection, caller, at)?;
    read(alloc, rows.as_slice())
}

/// Returns the numbers of several selections, in any order. A number is repeated for each selection that
/// returns it.
fn collect_numbers<S: Alter>(
    alloc: Global,
    conn: &mut Connection<S>,
    selections: &[Selection],
    caller: u64,
    at: i64,
) -> Result<Vec<u64>, ReadFault>
    requires open { IsUsable S.Store conn.old }
    requires has_tables { HasRegisterTables S.Store conn.old }
    ensures reads_only { ReadsTables S.Store result
        (λ db it. AreNumbersOfAny selections.now at caller db it.items)
        conn.old conn.new }
    ensures unreadable { FailsOnlyWithoutHistory S.Store result conn.old conn.new }
    ensures autocommit { LeavesAutocommit conn.old conn.new }
{
    let mut found = Vec::new(alloc);
    for selection in selections {
        let more = numbers(alloc, conn, *selection, caller, at)?;
        found.extend_from_slice(more.as_slice())?;
    }
    Ok(found)
}

/// Returns the numbers of several selections for several callers, in any order and with repetitions.
fn collect_numbers_for<S: Alter>(
    alloc: Global,
    conn: &mut Connection<S>,
    selections: &[Selection],
    callers: &[u64],
    at: i64,
) -> Result<Vec<u64>, ReadFault>
    requires open { IsUsable S.Store conn.old }
    requires has_tables { HasRegisterTables S.Store conn.old }
    ensures reads_only { ReadsTables S.Store result
        (λ db it. AreNumbersForAny selections.now at callers.now db it.items) conn.old conn.new }
    ensures unreadable { FailsOnlyWithoutHistory S.Store result conn.old conn.new }
    ensures autocommit { LeavesAutocommit conn.old conn.new }
{
    let mut found = Vec::new(alloc);
    for caller in callers {
        let given = collect_numbers(alloc, conn, selections, *caller, at)?;
        found.extend_from_slice(given.as_slice())?;
    }
    Ok(found)
}

/// Sorts numbers and removes repetitions.
fn sort_unique(mut numbers: Vec<u64>) -> Result<NumberList, ReadFault>
    ensures ascending { IfOk result IsStrictlyIncreasing }
    ensures same { IfOk result (λ it. AreExactly it (λ n. Contains numbers.items n)) }
    ensures memory { IfErr result (λ fault. fault ≡ NoMemory) }
{
    numbers.sort()?;
    numbers.dedup();
    Ok(Sequence::from_vec(numbers))
}

/// Returns the union of several selections for a caller at a time, in Unix milliseconds, in increasing order.
/// Returns error 520 only if the tables hold no history, and 501 if out of memory.
pub fn run_union<S: Alter>(
    alloc: Global,
    conn: &mut Connection<S>,
    selections: &[Selection],
    caller: u64,
    at: i64,
) -> Result<NumberList, ReadFault>
    requires open { IsUsable S.Store conn.old }
    requires has_tables { HasRegisterTables S.Store conn.old }
    ensures ascending { IfOk result IsStrictlyIncreasing }
    ensures reads_only { ReadsTables S.Store result (AreNumbersOfAny selections.now at caller) conn.old
        conn.new }
    ensures unreadable { FailsOnlyWithoutHistory S.Store result conn.old conn.new }
    ensures autocommit { LeavesAutocommit conn.old conn.new }
{
    sort_unique(collect_numbers(alloc, conn, selections, caller, at)?)
}

/// Returns the union of several selections for several callers at a time, in Unix milliseconds, in increasing
/// order. Returns error 520 only if the tables hold no history, and 501 if out of memory.
pub fn run_union_for<S: Alter>(
    alloc: Global,
    conn: &mut Connection<S>,
    selections: &[Selection],
    callers: &[u64],
    at: i64,
) -> Result<NumberList, ReadFault>
    requires open { IsUsable S.Store conn.old }
    requires has_tables { HasRegisterTables S.Store conn.old }
    ensures ascending { IfOk result IsStrictlyIncreasing }
    ensures reads_only { ReadsTables S.Store result (AreNumbersForAny selections.now at callers.now) conn.old
        conn.new }
    ensures unreadable { FailsOnlyWithoutHistory S.Store result conn.old conn.new }
    ensures autocommit { LeavesAutocommit conn.old conn.new }
{
    sort_unique(collect_numbers_for(alloc, conn, selections, callers, at)?)
}
