//! Rows with a wrong value in one column.
use crate::versions::cell::row_with;
use crate::versions::field::{Value, values_of};
use crate::versions::sample::sample_of;
use crate::versions::table::{Table, fault_of};
use sqlite::{Alter, Connection, Error};
use std::alloc::Global;
use testlib_scenario::stop::{Stop, expect};

/// Returns whether a row of a table has the fault of a wrong value in one of its columns.
fn has_fault<S: Alter>(
    alloc: Global,
    conn: &mut Connection<S>,
    table: Table,
    at: usize,
    value: &Value,
) -> Result<bool, Error> {
    let row = row_with(conn, sample_of(table).cells, at, value.0)?;
    let found = fault_of(alloc, table, &row)?;
    Ok(found == value.1)
}

/// Returns the position of the first value of a column with another fault, if any.
fn wrong_at<S: Alter>(
    alloc: Global,
    conn: &mut Connection<S>,
    table: Table,
    at: usize,
    values: &[Value],
) -> Result<Option<usize>, Error> {
    for (place, value) in values.iter().enumerate() {
        if !has_fault(alloc, conn, table, at, value)? {
            return Ok(Some(place));
        }
    }
    Ok(None)
}

/// Returns the first column of a table with a value that has another fault, and the position of that value,
/// if any.
fn wrong_in<S: Alter>(
    alloc: Global,
    conn: &mut Connection<S>,
    table: Table,
) -> Result<Option<(usize, usize)>, Error> {
    for (at, field) in sample_of(table).fields.iter().enumerate() {
        if let Some(place) = wrong_at(alloc, conn, table, at, values_of(*field))? {
            return Ok(Some((at, place)));
        }
    }
    Ok(None)
}

const TABLES: &[Table] = &[
    Table::Edition,
    Table::Moments,
    Table::Party,
    Table::Role,
    Table::Member,
    Table::Unit,
    Table::Parcel,
    Table::Right,
    Table::Burden,
    Table::Mortgage,
    Table::Source,
    Table::Mutation,
    Table::Names,
    Table::Mandate,
];

/// Each value of each column is read, or has its fault. A failure is reported by table, column and value, in
/// hundreds.
pub fn each_value_of_each_column_has_its_fault(alloc: Global) -> Result<(), Stop> {
    let mut conn = Connection::open_in_memory(alloc)?;
    for (place, table) in TABLES.iter().enumerate() {
        if let Some((at, value)) = wrong_in(alloc, &mut conn, *table)? {
            let column = place.saturating_mul(100).saturating_add(at);
            return Err(Stop::Mismatch(
                "table, column, value",
                column.saturating_mul(100).saturating_add(value),
            ));
        }
    }
    Ok(())
}
