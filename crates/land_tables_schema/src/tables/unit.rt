//! The basic administrative units (LA_BAUnit).
use crate::shape::ColumnShape::{Number, Words};
use crate::shape::{Rows, TableShape};

/// The shape of the table. Its columns:
///
/// - `number`: the number of the unit: 1 to 1_000_000_000
/// - `name`: its name: 1 to 200 characters
/// - `checked`: whether the shares of each type of right must sum to one: 0 or 1
/// - `since`: start of the lifespan, inclusive, in Unix milliseconds
/// - `until`: its end, exclusive, in Unix milliseconds; the first of the year 2100 if the row is current
pub const SHAPE: TableShape<'static> = TableShape {
    name: "unit",
    tree: 8,
    columns: &[
        Number("number"),
        Words("name"),
        Number("checked"),
        Number("since"),
        Number("until"),
    ],
    rows: Rows::Versioned {
        key: &[1, 4],
        since: 4,
        until: 5,
    },
};

/// Creates the table.
pub const CREATE: &str = "CREATE TABLE unit (\
    number INTEGER NOT NULL, \
    name TEXT NOT NULL, \
    checked INTEGER NOT NULL, \
    since INTEGER NOT NULL, \
    until INTEGER NOT NULL, \
    PRIMARY KEY (number, since), \
    CHECK (since < until)) STRICT";
