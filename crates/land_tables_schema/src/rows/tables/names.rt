//! The rows of `names`. They have the lifespan of their mutation, regardless of its decision, so no statement
//! closes them.
ghost use Rattle.std.specs.Prelude.{◌<◌, ◌^◌};
ghost use Rattle.land_tables_schema.specs.Connections.{HasRegisterTables, HasV1Tables, InTransaction};
ghost use Rattle.land_tables_schema.specs.Connections.{LeavesAutocommit, ReadsOnly, SameReference};
ghost use Rattle.land_tables_schema.specs.Rows.Forms.{InsertsVersion};
ghost use Rattle.land_tables_schema.specs.Rows.ReadQueries.{AreAllRows};
ghost use Rattle.land_tables_schema.specs.Rows.Names.{names_form};
ghost use Rattle.land_tables_schema.specs.Rows.Versions.{opened_version};
ghost use Rattle.land_tables_schema.specs.Tables as table;
ghost use Rattle.sqlite.specs.Held.{state};

use crate::rows::cells::{of_moment, of_number};
use sqlite::{Alter, Connection, Error, Row, Transaction};

/// Inserts a current version.
const BEGIN: &str =
    "INSERT INTO names (mutation, unit, since, until) VALUES (?1, ?2, ?3, 4102444800000)";

/// Lists all versions.
pub const ALL: &str = "SELECT mutation, unit, since, until FROM names";

/// Inserts a current version: a mutation refers to a unit.
pub fn begin<S: Alter>(
    tx: &mut Transaction<'_, S>,
    mutation: u64,
    unit: u64,
    since: i64,
) -> Result<usize, Error>
    requires mutation_fits { mutation < 2 ^ 63 }
    requires unit_fits { unit < 2 ^ 63 }
    requires has_tables { HasRegisterTables S.Store tx.old.conn.now }
    ensures same_reference { SameReference tx.old tx.new }
    ensures step { InTransaction S.Store result
        (InsertsVersion names_form (opened_version (record { mutation = mutation; unit = unit }) since))
        tx.old tx.new }
{
    tx.execute(
        BEGIN,
        &[of_number(mutation), of_number(unit), of_moment(since)],
    )
}

/// Returns all versions, each as the cells of its row with its lifespan, in unspecified order.
pub fn all<S: Alter>(conn: &mut Connection<S>) -> Result<Vec<Row>, Error>
    requires { HasV1Tables S.Store conn.old }
    ensures reads_only { ReadsOnly S.Store result
        (λ rows. AreAllRows table.names 2 (state S.Store conn.old).now.trees rows.items) conn.old conn.new }
    ensures autocommit { LeavesAutocommit conn.old conn.new }
{
    conn.query_all(ALL, &[])
}
