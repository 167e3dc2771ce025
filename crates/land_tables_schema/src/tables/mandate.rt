//! The mandates: a principal, who is a citizen, lets an agent see what the principal sees. Schema version 1
//! has no such table.
use crate::shape::ColumnShape::Number;
use crate::shape::{Rows, TableShape};

/// The shape of the table. Its columns:
///
/// - `principal`: the number of the party that gives it: 1 to 1_000_000_000
/// - `agent`: the number of the party that sees what the principal sees: 1 to 1_000_000_000
/// - `since`: start of the lifespan, inclusive, in Unix milliseconds
/// - `until`: its end, exclusive, in Unix milliseconds; the first of the year 2100 if the row is current
pub const SHAPE: TableShape<'static> = TableShape {
    name: "mandate",
    tree: 20,
    columns: &[
        Number("principal"),
        Number("agent"),
        Number("since"),
        Number("until"),
    ],
    rows: Rows::Versioned {
        key: &[1, 2, 3],
        since: 3,
        until: 4,
    },
};

/// Creates the table.
pub const CREATE: &str = "CREATE TABLE mandate (\
    principal INTEGER NOT NULL, \
    agent INTEGER NOT NULL, \
    since INTEGER NOT NULL, \
    until INTEGER NOT NULL, \
    PRIMARY KEY (principal, agent, since), \
    CHECK (since < until)) STRICT";

/// Creates the index on the agent of a mandate.
pub const INDEX_AGENT: &str = "CREATE INDEX mandate_agent ON mandate (agent)";
