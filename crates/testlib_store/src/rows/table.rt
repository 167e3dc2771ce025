//! A table as text, one line per row.
use land_tables_schema::rows::tables::{
    edition, mandate, member, moments, mutation, names, parcel, party, role, rrr, source, unit,
};
use land_tables_schema::schema::is_schema_v2;
use sqlite::types::ValueRef;
use sqlite::{Alter, Connection, Error, ErrorCode, Row};
use std::alloc::Global;
use testlib_scenario::stop::{Stop, expect};

/// A table of the register.
#[derive(Clone, Copy)]
pub enum Table {
    Edition,
    Moments,
    Party,
    Role,
    Member,
    Unit,
    Parcel,
    Rrr,
    Source,
    Mutation,
    Names,
    Mandate,
}

/// Returns the error for a store that is not as expected.
pub fn unexpected_store() -> Error {
    Error::SqliteFailure(ErrorCode::TransactionState)
}

/// Returns all rows of a table.
fn rows<S: Alter>(conn: &mut Connection<S>, table: Table) -> Result<Vec<Row>, Error> {
    if !is_schema_v2(conn.schema()) {
        return Err(unexpected_store());
    }
    match table {
        Table::Edition => edition::all(conn),
        Table::Moments => moments::all(conn),
        Table::Party => party::all(conn),
        Table::Role => role::all(conn),
        Table::Member => member::all(conn),
        Table::Unit => unit::all(conn),
        Table::Parcel => parcel::all(conn),
        Table::Rrr => rrr::all(conn),
        Table::Source => source::all(conn),
        Table::Mutation => mutation::all(conn),
        Table::Names => names::all(conn),
        Table::Mandate => mandate::all(conn),
    }
}

/// Writes a cell as text.
fn write_cell(text: &mut String, cell: ValueRef<'_>) -> Result<(), Error> {
    match cell {
        ValueRef::Null => text.push_str("NULL")?,
        ValueRef::Int(number) => write!(text, "{number}")?,
        ValueRef::Text(bytes) => match std::str::from_utf8(bytes) {
            Ok(words) => text.push_str(words)?,
            Err(_) => return Err(unexpected_store()),
        },
        ValueRef::Real(_) | ValueRef::Blob(_) => return Err(unexpected_store()),
    }
    Ok(())
}

/// Writes a row as a line: each cell, with a bar after it.
fn write_row(text: &mut String, row: &Row) -> Result<(), Error> {
    for place in 0..row.column_count() {
        write_cell(text, row.get_ref(place)?)?;
        text.push_str("|")?;
    }
    text.push_str("\n")?;
    Ok(())
}

/// Returns a table as lines, in the order of the store.
fn lines<S: Alter>(alloc: Global, conn: &mut Connection<S>, table: Table) -> Result<String, Error> {
    let mut text = String::new(alloc);
    for row in &rows(conn, table)? {
        write_row(&mut text, row)?;
    }
    Ok(text)
}

/// Checks that these tables have these rows.
pub fn expect_tables<S: Alter>(
    alloc: Global,
    conn: &mut Connection<S>,
    wanted: &[(Table, &str)],
) -> Result<(), Stop> {
    for (place, (table, rows)) in wanted.iter().enumerate() {
        let found = lines(alloc, conn, *table)?;
        expect(found.as_str() == *rows, "table", place)?;
    }
    Ok(())
}
