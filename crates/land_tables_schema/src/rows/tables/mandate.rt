//! The rows of `mandate`, which schema version 1 does not have.
ghost use Rattle.std.specs.Prelude.{◌<◌, ◌^◌};
ghost use Rattle.land_tables_schema.specs.Connections.{HasRegisterTables, InTransaction, LeavesAutocommit};
ghost use Rattle.land_tables_schema.specs.Connections.{ReadsOnly, SameReference};
ghost use Rattle.land_tables_schema.specs.Rows.Forms.{InsertsVersion, UpdatesRows};
ghost use Rattle.land_tables_schema.specs.Rows.ReadQueries.{AreAllRows};
ghost use Rattle.land_tables_schema.specs.Rows.Mandate.{is_mandate, mandate_form};
ghost use Rattle.land_tables_schema.specs.Rows.Versions.{opened_version, closed_version};
ghost use Rattle.land_tables_schema.specs.Tables as table;
ghost use Rattle.sqlite.specs.Held.{state};

use crate::rows::cells::{of_moment, of_number};
use sqlite::{Alter, Connection, Error, Row, Transaction};

/// Inserts a current version.
const BEGIN: &str =
    "INSERT INTO mandate (principal, agent, since, until) VALUES (?1, ?2, ?3, 4102444800000)";

/// Closes the current version.
const CLOSE: &str =
    "UPDATE mandate SET until = ?3 WHERE principal = ?1 AND agent = ?2 AND until = 4102444800000";

/// Lists all versions.
pub const ALL: &str = "SELECT principal, agent, since, until FROM mandate";

/// Inserts a current version of a mandate.
pub fn begin<S: Alter>(
    tx: &mut Transaction<'_, S>,
    principal: u64,
    agent: u64,
    since: i64,
) -> Result<usize, Error>
    requires principal_fits { principal < 2 ^ 63 }
    requires agent_fits { agent < 2 ^ 63 }
    requires has_tables { HasRegisterTables S.Store tx.old.conn.now }
    ensures same_reference { SameReference tx.old tx.new }
    ensures step { InTransaction S.Store result
        (InsertsVersion mandate_form (opened_version (record { principal = principal; agent = agent }) since))
        tx.old tx.new }
{
    tx.execute(
        BEGIN,
        &[of_number(principal), of_number(agent), of_moment(since)],
    )
}

/// Closes the current version of a mandate.
pub fn close<S: Alter>(
    tx: &mut Transaction<'_, S>,
    principal: u64,
    agent: u64,
    stamp: i64,
) -> Result<usize, Error>
    requires principal_fits { principal < 2 ^ 63 }
    requires agent_fits { agent < 2 ^ 63 }
    requires has_tables { HasRegisterTables S.Store tx.old.conn.now }
    ensures same_reference { SameReference tx.old tx.new }
    ensures step { InTransaction S.Store result
        (UpdatesRows mandate_form (closed_version (is_mandate principal agent) stamp)) tx.old tx.new }
{
    tx.execute(
        CLOSE,
        &[of_number(principal), of_number(agent), of_moment(stamp)],
    )
}

/// Returns all versions, each as the cells of its row with its lifespan, in unspecified order.
pub fn all<S: Alter>(conn: &mut Connection<S>) -> Result<Vec<Row>, Error>
    requires { HasRegisterTables S.Store conn.old }
    ensures reads_only { ReadsOnly S.Store result
        (λ rows. AreAllRows table.mandate 2 (state S.Store conn.old).now.trees rows.items) conn.old conn.new }
    ensures autocommit { LeavesAutocommit conn.old conn.new }
{
    conn.query_all(ALL, &[])
}
