//! The roles that parties hold (LA_PartyRoleType).
use crate::shape::ColumnShape::{Number, Words};
use crate::shape::{Rows, TableShape};

/// The shape of the table. Its columns:
///
/// - `party`: the number of the party: 1 to 1_000_000_000
/// - `role`: `citizen`, `conveyancer`, `notary`, `bank`, `certifiedSurveyor` or `stateAdministrator`
/// - `since`: start of the lifespan, inclusive, in Unix milliseconds
/// - `until`: its end, exclusive, in Unix milliseconds; the first of the year 2100 if the row is current
pub const SHAPE: TableShape<'static> = TableShape {
    name: "role",
    tree: 4,
    columns: &[
        Number("party"),
        Words("role"),
        Number("since"),
        Number("until"),
    ],
    rows: Rows::Versioned {
        key: &[1, 2, 3],
        since: 3,
        until: 4,
    },
};

/// Creates the table.
pub const CREATE: &str = "CREATE TABLE role (\
    party INTEGER NOT NULL, \
    role TEXT NOT NULL, \
    since INTEGER NOT NULL, \
    until INTEGER NOT NULL, \
    PRIMARY KEY (party, role, since), \
    CHECK (since < until)) STRICT";

/// Creates the index on the role.
pub const INDEX_ROLE: &str = "CREATE INDEX role_role ON role (role)";
