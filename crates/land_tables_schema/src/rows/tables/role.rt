//! The rows of `role`.
ghost use Rattle.std.specs.Prelude.{◌<◌, ◌^◌};
ghost use Rattle.land_tables_schema.specs.Connections.{HasRegisterTables, HasV1Tables, InTransaction};
ghost use Rattle.land_tables_schema.specs.Connections.{LeavesAutocommit, ReadsOnly, SameReference};
ghost use Rattle.land_tables_schema.specs.Rows.Forms.{InsertsVersion, UpdatesRows};
ghost use Rattle.land_tables_schema.specs.Rows.ReadQueries.{AreAllRows};
ghost use Rattle.land_tables_schema.specs.Rows.Role.{is_grant, role_form};
ghost use Rattle.land_tables_schema.specs.Rows.Versions.{opened_version, closed_version};
ghost use Rattle.land_tables_schema.specs.Tables as table;
ghost use Rattle.sqlite.specs.Held.{state};

use crate::rows::cells::{of_moment, of_number, of_text};
use sqlite::{Alter, Connection, Error, Row, Transaction};

/// Inserts a current version.
const BEGIN: &str =
    "INSERT INTO role (party, role, since, until) VALUES (?1, ?2, ?3, 4102444800000)";

/// Closes the current version.
const CLOSE: &str =
    "UPDATE role SET until = ?3 WHERE party = ?1 AND role = ?2 AND until = 4102444800000";

/// Lists all versions.
pub const ALL: &str = "SELECT party, role, since, until FROM role";

/// Inserts a current version of a role of a party.
pub fn begin<S: Alter>(
    tx: &mut Transaction<'_, S>,
    party: u64,
    role: &str,
    since: i64,
) -> Result<usize, Error>
    requires party_fits { party < 2 ^ 63 }
    requires has_tables { HasRegisterTables S.Store tx.old.conn.now }
    ensures same_reference { SameReference tx.old tx.new }
    ensures step { InTransaction S.Store result
        (InsertsVersion role_form (opened_version (record { party = party; role = role.now }) since)) tx.old
        tx.new }
{
    tx.execute(BEGIN, &[of_number(party), of_text(role), of_moment(since)])
}

/// Closes the current version of a role of a party.
pub fn close<S: Alter>(
    tx: &mut Transaction<'_, S>,
    party: u64,
    role: &str,
    stamp: i64,
) -> Result<usize, Error>
    requires party_fits { party < 2 ^ 63 }
    requires has_tables { HasRegisterTables S.Store tx.old.conn.now }
    ensures same_reference { SameReference tx.old tx.new }
    ensures step { InTransaction S.Store result
        (UpdatesRows role_form (closed_version (is_grant party role.now) stamp)) tx.old tx.new }
{
    tx.execute(CLOSE, &[of_number(party), of_text(role), of_moment(stamp)])
}

/// Returns all versions, each as the cells of its row with its lifespan, in unspecified order.
pub fn all<S: Alter>(conn: &mut Connection<S>) -> Result<Vec<Row>, Error>
    requires { HasV1Tables S.Store conn.old }
    ensures reads_only { ReadsOnly S.Store result
        (λ rows. AreAllRows table.role 2 (state S.Store conn.old).now.trees rows.items) conn.old conn.new }
    ensures autocommit { LeavesAutocommit conn.old conn.new }
{
    conn.query_all(ALL, &[])
}
