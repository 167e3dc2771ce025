//! The parcels (LA_SpatialUnit).
use crate::shape::ColumnShape::{Number, Words};
use crate::shape::{Rows, TableShape};

/// The shape of the table. Its columns:
///
/// - `number`: the number of the parcel: 1 to 1_000_000_000
/// - `unit`: the number of its unit: 1 to 1_000_000_000
/// - `label`: its label on the map: 1 to 40 characters
/// - `outline`: its outline as well-known text, in integer millimetres
/// - `source`: the number of its source: 1 to 1_000_000_000
/// - `since`: start of the lifespan, inclusive, in Unix milliseconds
/// - `until`: its end, exclusive, in Unix milliseconds; the first of the year 2100 if the row is current
pub const SHAPE: TableShape<'static> = TableShape {
    name: "parcel",
    tree: 10,
    columns: &[
        Number("number"),
        Number("unit"),
        Words("label"),
        Words("outline"),
        Number("source"),
        Number("since"),
        Number("until"),
    ],
    rows: Rows::Versioned {
        key: &[1, 6],
        since: 6,
        until: 7,
    },
};

/// Creates the table.
pub const CREATE: &str = "CREATE TABLE parcel (\
    number INTEGER NOT NULL, \
    unit INTEGER NOT NULL, \
    label TEXT NOT NULL, \
    outline TEXT NOT NULL, \
    source INTEGER NOT NULL, \
    since INTEGER NOT NULL, \
    until INTEGER NOT NULL, \
    PRIMARY KEY (number, since), \
    CHECK (since < until)) STRICT";

/// Creates the index on the unit of a parcel.
pub const INDEX_UNIT: &str = "CREATE INDEX parcel_unit ON parcel (unit)";
