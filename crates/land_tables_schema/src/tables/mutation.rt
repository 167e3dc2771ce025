//! The mutations: lodged changes of units.
use crate::shape::ColumnShape::{Number, Words};
use crate::shape::{Rows, TableShape};

/// The shape of the table. Its columns:
///
/// - `number`: the number of the mutation: 1 to 1_000_000_000
/// - `lodger`: the number of the party that lodged it: 1 to 1_000_000_000
/// - `reference`: its reference, chosen by the lodger: 1 to 40 characters
/// - `source`: the number of its document: 1 to 1_000_000_000
/// - `lodged`: the moment of its lodging, in Unix milliseconds
/// - `act`: the requested act: `transfer`, `subdivision`, `merger`, `mortgage` or `discharge`
/// - `content`: the fields of the act, as compact JSON
/// - `state`: its state: `lodged`, `approved` or `refused`
/// - `since`: start of the lifespan, inclusive, in Unix milliseconds
/// - `until`: its end, exclusive, in Unix milliseconds; the first of the year 2100 if the row is current
pub const SHAPE: TableShape<'static> = TableShape {
    name: "mutation",
    tree: 16,
    columns: &[
        Number("number"),
        Number("lodger"),
        Words("reference"),
        Number("source"),
        Number("lodged"),
        Words("act"),
        Words("content"),
        Words("state"),
        Number("since"),
        Number("until"),
    ],
    rows: Rows::Versioned {
        key: &[1, 9],
        since: 9,
        until: 10,
    },
};

/// Creates the table.
pub const CREATE: &str = "CREATE TABLE mutation (\
    number INTEGER NOT NULL, \
    lodger INTEGER NOT NULL, \
    reference TEXT NOT NULL, \
    source INTEGER NOT NULL, \
    lodged INTEGER NOT NULL, \
    act TEXT NOT NULL, \
    content TEXT NOT NULL, \
    state TEXT NOT NULL, \
    since INTEGER NOT NULL, \
    until INTEGER NOT NULL, \
    PRIMARY KEY (number, since), \
    CHECK (since < until)) STRICT";

/// Creates the index on the lodger and the reference of a mutation.
pub const INDEX_LODGER: &str = "CREATE INDEX mutation_lodger ON mutation (lodger, reference)";
