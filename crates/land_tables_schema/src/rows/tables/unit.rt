//! The rows of `unit`.
ghost use Rattle.std.specs.Prelude.{◌<◌, ◌^◌};
ghost use Rattle.land_tables_schema.specs.Connections.{HasRegisterTables, HasV1Tables, InTransaction};
ghost use Rattle.land_tables_schema.specs.Connections.{LeavesAutocommit, ReadsOnly, SameReference};
ghost use Rattle.land_tables_schema.specs.Rows.Forms.{InsertsVersion, UpdatesRows};
ghost use Rattle.land_tables_schema.specs.Rows.ReadQueries.{AreAllRows};
ghost use Rattle.land_tables_schema.specs.Rows.Unit.{is_unit, unit_form};
ghost use Rattle.land_tables_schema.specs.Rows.Versions.{opened_version, closed_version};
ghost use Rattle.land_tables_schema.specs.Tables as table;
ghost use Rattle.sqlite.specs.Held.{state};

use crate::rows::cells::{of_flag, of_moment, of_number, of_text};
use sqlite::{Alter, Connection, Error, Row, Transaction};

/// Inserts a current version.
const BEGIN: &str =
    "INSERT INTO unit (number, name, checked, since, until) VALUES (?1, ?2, ?3, ?4, 4102444800000)";

/// Closes the current version.
const CLOSE: &str = "UPDATE unit SET until = ?2 WHERE number = ?1 AND until = 4102444800000";

/// Lists all versions.
pub const ALL: &str = "SELECT number, name, checked, since, until FROM unit";

/// Inserts a current version of a unit.
pub fn begin<S: Alter>(
    tx: &mut Transaction<'_, S>,
    number: u64,
    name: &str,
    checked: bool,
    since: i64,
) -> Result<usize, Error>
    requires number_fits { number < 2 ^ 63 }
    requires has_tables { HasRegisterTables S.Store tx.old.conn.now }
    ensures same_reference { SameReference tx.old tx.new }
    ensures step { InTransaction S.Store result (InsertsVersion unit_form
        (opened_version (record { number = number; name = name.now; checked = checked }) since))
        tx.old
        tx.new }
{
    tx.execute(
        BEGIN,
        &[
            of_number(number),
            of_text(name),
            of_flag(checked),
            of_moment(since),
        ],
    )
}

/// Closes the current version of a unit.
pub fn close<S: Alter>(tx: &mut Transaction<'_, S>, number: u64, stamp: i64) -> Result<usize, Error>
    requires number_fits { number < 2 ^ 63 }
    requires has_tables { HasRegisterTables S.Store tx.old.conn.now }
    ensures same_reference { SameReference tx.old tx.new }
    ensures step { InTransaction S.Store result
        (UpdatesRows unit_form (closed_version (is_unit number) stamp)) tx.old tx.new }
{
    tx.execute(CLOSE, &[of_number(number), of_moment(stamp)])
}

/// Returns all versions, each as the cells of its row with its lifespan, in unspecified order.
pub fn all<S: Alter>(conn: &mut Connection<S>) -> Result<Vec<Row>, Error>
    requires { HasV1Tables S.Store conn.old }
    ensures reads_only { ReadsOnly S.Store result
        (λ rows. AreAllRows table.unit 3 (state S.Store conn.old).now.trees rows.items) conn.old conn.new }
    ensures autocommit { LeavesAutocommit conn.old conn.new }
{
    conn.query_all(ALL, &[])
}
