//! The rows of a query as lines of text.
use crate::stop::Stop;
use sqlite::types::ValueRef;
use sqlite::{Alter, Connection, Row};
use std::alloc::Global;

/// Writes a cell as text.
fn write_cell(text: &mut String, cell: ValueRef<'_>) -> Result<(), Stop> {
    match cell {
        ValueRef::Null => text.push_str("-")?,
        ValueRef::Int(number) => write!(text, "{number}")?,
        ValueRef::Text(bytes) => match std::str::from_utf8(bytes) {
            Ok(words) => text.push_str(words)?,
            Err(_) => return Err(Stop::Call),
        },
        ValueRef::Real(_) | ValueRef::Blob(_) => return Err(Stop::Call),
    }
    Ok(())
}

/// Writes a row as a line: its cells, each with a bar after it.
fn write_row(text: &mut String, row: &Row) -> Result<(), Stop> {
    for place in 0..row.column_count() {
        write_cell(text, row.get_ref(place)?)?;
        text.push_str("|")?;
    }
    text.push_str("\n")?;
    Ok(())
}

/// Runs a query and returns its rows as lines. NULL is a dash.
pub fn lines<S: Alter>(
    alloc: Global,
    conn: &mut Connection<S>,
    query: &str,
) -> Result<String, Stop> {
    let mut text = String::new(alloc);
    for row in &conn.query_all(query, &[])? {
        write_row(&mut text, row)?;
    }
    Ok(text)
}
