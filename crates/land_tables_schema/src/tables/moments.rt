//! The commits: one row for the new register, and one for each change.
use crate::shape::ColumnShape::Number;
use crate::shape::{Rows, TableShape};

/// The shape of the table. Its columns:
///
/// - `stamp`: the moment of the commit, in Unix milliseconds; 0 for a new register
/// - `next`: the number of the next new object after the commit, from 2
pub const SHAPE: TableShape<'static> = TableShape {
    name: "moments",
    tree: 1,
    columns: &[Number("stamp"), Number("next")],
    rows: Rows::Numbered,
};

/// Creates the table.
pub const CREATE: &str = "CREATE TABLE moments (\
    stamp INTEGER NOT NULL, \
    next INTEGER NOT NULL, \
    PRIMARY KEY (stamp)) STRICT";
