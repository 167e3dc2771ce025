//! The units that mutations refer to.
use crate::shape::ColumnShape::Number;
use crate::shape::{Rows, TableShape};

/// The shape of the table. Its columns:
///
/// - `mutation`: the number of the mutation: 1 to 1_000_000_000
/// - `unit`: the number of a unit that it refers to: 1 to 1_000_000_000
/// - `since`: start of the lifespan, inclusive, in Unix milliseconds
/// - `until`: its end, exclusive, in Unix milliseconds; the first of the year 2100 if the row is current
pub const SHAPE: TableShape<'static> = TableShape {
    name: "names",
    tree: 18,
    columns: &[
        Number("mutation"),
        Number("unit"),
        Number("since"),
        Number("until"),
    ],
    rows: Rows::Versioned {
        key: &[1, 2, 3],
        since: 3,
        until: 4,
    },
};

/// Creates the table.
pub const CREATE: &str = "CREATE TABLE names (\
    mutation INTEGER NOT NULL, \
    unit INTEGER NOT NULL, \
    since INTEGER NOT NULL, \
    until INTEGER NOT NULL, \
    PRIMARY KEY (mutation, unit, since), \
    CHECK (since < until)) STRICT";

/// Creates the index on the unit of a row of `names`.
pub const INDEX_UNIT: &str = "CREATE INDEX names_unit ON names (unit)";
