//! The rights, restrictions, responsibilities and mortgages (LA_RRR). Columns that a class does not use are
//! NULL.
use crate::shape::ColumnShape::{Number, OptionalNumber, OptionalWords, Words};
use crate::shape::{Rows, TableShape};

/// The shape of the table. Its columns:
///
/// - `number`: the number of the entry: 1 to 1_000_000_000
/// - `unit`: the number of its unit: 1 to 1_000_000_000
/// - `party`: the number of its party, for a mortgage the creditor: 1 to 1_000_000_000
/// - `class`: its class: `ownership`, `lease`, `usufruct`, `restriction`, `responsibility` or `mortgage`
/// - `num`: the numerator of the share of a right, in lowest terms: 1 to 1_000_000_000
/// - `den`: the denominator of the share of a right: 1 to 1_000_000_000
/// - `amount`: the amount of a mortgage in minor units of its currency: 1 to 1_000_000_000_000_000
/// - `currency`: the currency of a mortgage: three letters from A to Z (ISO 4217)
/// - `place`: the rank among the mortgages of the unit, from 1
/// - `words`: the words of a restriction or a responsibility: 1 to 200 characters
/// - `source`: the number of its source: 1 to 1_000_000_000
/// - `since`: start of the lifespan, inclusive, in Unix milliseconds
/// - `until`: its end, exclusive, in Unix milliseconds; the first of the year 2100 if the row is current
pub const SHAPE: TableShape<'static> = TableShape {
    name: "rrr",
    tree: 12,
    columns: &[
        Number("number"),
        Number("unit"),
        Number("party"),
        Words("class"),
        OptionalNumber("num"),
        OptionalNumber("den"),
        OptionalNumber("amount"),
        OptionalWords("currency"),
        OptionalNumber("place"),
        OptionalWords("words"),
        Number("source"),
        Number("since"),
        Number("until"),
    ],
    rows: Rows::Versioned {
        key: &[1, 12],
        since: 12,
        until: 13,
    },
};

/// Creates the table.
pub const CREATE: &str = "CREATE TABLE rrr (\
    number INTEGER NOT NULL, \
    unit INTEGER NOT NULL, \
    party INTEGER NOT NULL, \
    class TEXT NOT NULL, \
    num INTEGER, \
    den INTEGER, \
    amount INTEGER, \
    currency TEXT, \
    place INTEGER, \
    words TEXT, \
    source INTEGER NOT NULL, \
    since INTEGER NOT NULL, \
    until INTEGER NOT NULL, \
    PRIMARY KEY (number, since), \
    CHECK (since < until)) STRICT";

/// Creates the index on the party of an entry.
pub const INDEX_PARTY: &str = "CREATE INDEX rrr_party ON rrr (party)";

/// Creates the index on the unit of an entry.
pub const INDEX_UNIT: &str = "CREATE INDEX rrr_unit ON rrr (unit)";
