//! Cells, and rows of them that a store returns.
use sqlite::types::ValueRef;
use sqlite::{Alter, Connection, Error, Row};

/// The content of a cell.
#[derive(Clone, Copy)]
pub enum Cell {
    Null,
    Number(i64),
    Real,
    Blob,
    Words(&'static str),
    /// A text that is not valid UTF-8.
    Broken,
}

impl Cell {
    fn value(self) -> ValueRef<'static> {
        match self {
            Cell::Null => ValueRef::Null,
            Cell::Number(number) => ValueRef::Int(number),
            Cell::Real => ValueRef::Real(2.0),
            Cell::Blob => ValueRef::Blob(b"Anna"),
            Cell::Words(words) => ValueRef::Text(words.as_bytes()),
            Cell::Broken => ValueRef::Text(b"Ann\xe4"),
        }
    }
}

/// A query that returns its parameters, as many as the widest table has columns.
const GIVE: &str = "SELECT ?1, ?2, ?3, ?4, ?5, ?6, ?7, ?8, ?9, ?10, ?11, ?12, ?13";

/// Returns these cells, and NULL after them.
fn values(cells: &[Cell]) -> [ValueRef<'static>; 13] {
    let mut values = [ValueRef::Null; 13];
    for (at, cell) in cells.iter().enumerate() {
        if let Some(value) = values.get_mut(at) {
            *value = cell.value();
        }
    }
    values
}

/// Returns a row of these cells.
pub fn row_of<S: Alter>(conn: &mut Connection<S>, cells: &[Cell]) -> Result<Row, Error> {
    conn.query_row(GIVE, &values(cells))
}

/// Replaces cells at these positions.
fn replaced(values: [ValueRef<'static>; 13], others: &[(usize, Cell)]) -> [ValueRef<'static>; 13] {
    let mut values = values;
    for (at, cell) in others {
        if let Some(value) = values.get_mut(*at) {
            *value = cell.value();
        }
    }
    values
}

/// Returns a row of these cells, some of them replaced.
pub fn row_except<S: Alter>(
    conn: &mut Connection<S>,
    cells: &[Cell],
    others: &[(usize, Cell)],
    more: &[(usize, Cell)],
) -> Result<Row, Error> {
    conn.query_row(GIVE, &replaced(replaced(values(cells), others), more))
}

/// Returns a row of these cells, one of them replaced.
pub fn row_with<S: Alter>(
    conn: &mut Connection<S>,
    cells: &[Cell],
    at: usize,
    cell: Cell,
) -> Result<Row, Error> {
    row_except(conn, cells, &[(at, cell)], &[])
}
