//! The members of groups (LA_PartyMember).
use crate::shape::ColumnShape::Number;
use crate::shape::{Rows, TableShape};

/// The shape of the table. Its columns:
///
/// - `grp`: the number of the group: 1 to 1_000_000_000
/// - `party`: the number of the member: 1 to 1_000_000_000
/// - `num`: the numerator of its share in the group, in lowest terms: 1 to 1_000_000_000
/// - `den`: the denominator of its share: 1 to 1_000_000_000
/// - `since`: start of the lifespan, inclusive, in Unix milliseconds
/// - `until`: its end, exclusive, in Unix milliseconds; the first of the year 2100 if the row is current
pub const SHAPE: TableShape<'static> = TableShape {
    name: "member",
    tree: 6,
    columns: &[
        Number("grp"),
        Number("party"),
        Number("num"),
        Number("den"),
        Number("since"),
        Number("until"),
    ],
    rows: Rows::Versioned {
        key: &[1, 2, 5],
        since: 5,
        until: 6,
    },
};

/// Creates the table.
pub const CREATE: &str = "CREATE TABLE member (\
    grp INTEGER NOT NULL, \
    party INTEGER NOT NULL, \
    num INTEGER NOT NULL, \
    den INTEGER NOT NULL, \
    since INTEGER NOT NULL, \
    until INTEGER NOT NULL, \
    PRIMARY KEY (grp, party, since), \
    CHECK (since < until)) STRICT";

/// Creates the index on the party of a member.
pub const INDEX_PARTY: &str = "CREATE INDEX member_party ON member (party)";
