//! The sources (LA_Source): the documents that records come from.
use crate::shape::ColumnShape::{Number, Words};
use crate::shape::{Rows, TableShape};

/// The shape of the table. Its columns:
///
/// - `number`: the number of the source: 1 to 1_000_000_000
/// - `kind`: its kind: `administrative` or `spatial`
/// - `title`: the title of the document: 1 to 200 characters
/// - `since`: start of the lifespan, inclusive, in Unix milliseconds
/// - `until`: its end, exclusive, in Unix milliseconds; the first of the year 2100 if the row is current
pub const SHAPE: TableShape<'static> = TableShape {
    name: "source",
    tree: 14,
    columns: &[
        Number("number"),
        Words("kind"),
        Words("title"),
        Number("since"),
        Number("until"),
    ],
    rows: Rows::Versioned {
        key: &[1, 4],
        since: 4,
        until: 5,
    },
};

/// Creates the table.
pub const CREATE: &str = "CREATE TABLE source (\
    number INTEGER NOT NULL, \
    kind TEXT NOT NULL, \
    title TEXT NOT NULL, \
    since INTEGER NOT NULL, \
    until INTEGER NOT NULL, \
    PRIMARY KEY (number, since), \
    CHECK (since < until)) STRICT";
