//! The schema version: one row.
use crate::shape::ColumnShape::Number;
use crate::shape::{Rows, TableShape};

/// The shape of the table. Its columns:
///
/// - `id`: always 1
/// - `version`: the schema version: 2, or 1 if there is no table `mandate`
pub const SHAPE: TableShape<'static> = TableShape {
    name: "edition",
    tree: 0,
    columns: &[Number("id"), Number("version")],
    rows: Rows::Numbered,
};

/// Creates the table.
pub const CREATE: &str = "CREATE TABLE edition (\
    id INTEGER NOT NULL, \
    version INTEGER NOT NULL, \
    PRIMARY KEY (id)) STRICT";
