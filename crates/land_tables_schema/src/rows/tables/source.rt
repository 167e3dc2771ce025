//! The rows of `source`.
ghost use Rattle.std.specs.Prelude.{◌<◌, ◌^◌};
ghost use Rattle.land_tables_schema.specs.Connections.{HasRegisterTables, HasV1Tables, InTransaction};
ghost use Rattle.land_tables_schema.specs.Connections.{LeavesAutocommit, ReadsOnly, SameReference};
ghost use Rattle.land_tables_schema.specs.Rows.Forms.{InsertsVersion, UpdatesRows};
ghost use Rattle.land_tables_schema.specs.Rows.ReadQueries.{AreAllRows};
ghost use Rattle.land_tables_schema.specs.Rows.Source.{is_source, source_form};
ghost use Rattle.land_tables_schema.specs.Rows.Versions.{opened_version, closed_version};
ghost use Rattle.land_tables_schema.specs.Tables as table;
ghost use Rattle.sqlite.specs.Held.{state};

use crate::rows::cells::{of_moment, of_number, of_text};
use sqlite::{Alter, Connection, Error, Row, Transaction};

/// Inserts a current version.
const BEGIN: &str =
    "INSERT INTO source (number, kind, title, since, until) VALUES (?1, ?2, ?3, ?4, 4102444800000)";

/// Closes the current version.
const CLOSE: &str = "UPDATE source SET until = ?2 WHERE number = ?1 AND until = 4102444800000";

/// Lists all versions.
pub const ALL: &str = "SELECT number, kind, title, since, until FROM source";

/// Inserts a current version of a source.
pub fn begin<S: Alter>(
    tx: &mut Transaction<'_, S>,
    number: u64,
    kind: &str,
    title: &str,
    since: i64,
) -> Result<usize, Error>
    requires number_fits { number < 2 ^ 63 }
    requires has_tables { HasRegisterTables S.Store tx.old.conn.now }
    ensures same_reference { SameReference tx.old tx.new }
    ensures step { InTransaction S.Store result (InsertsVersion source_form
        (opened_version (record { number = number; kind = kind.now; title = title.now }) since))
        tx.old
        tx.new }
{
    tx.execute(
        BEGIN,
        &[
            of_number(number),
            of_text(kind),
            of_text(title),
            of_moment(since),
        ],
    )
}

/// Closes the current version of a source.
pub fn close<S: Alter>(tx: &mut Transaction<'_, S>, number: u64, stamp: i64) -> Result<usize, Error>
    requires number_fits { number < 2 ^ 63 }
    requires has_tables { HasRegisterTables S.Store tx.old.conn.now }
    ensures same_reference { SameReference tx.old tx.new }
    ensures step { InTransaction S.Store result
        (UpdatesRows source_form (closed_version (is_source number) stamp)) tx.old tx.new }
{
    tx.execute(CLOSE, &[of_number(number), of_moment(stamp)])
}

/// Returns all versions, each as the cells of its row with its lifespan, in unspecified order.
pub fn all<S: Alter>(conn: &mut Connection<S>) -> Result<Vec<Row>, Error>
    requires { HasV1Tables S.Store conn.old }
    ensures reads_only { ReadsOnly S.Store result
        (λ rows. AreAllRows table.source 3 (state S.Store conn.old).now.trees rows.items) conn.old conn.new }
    ensures autocommit { LeavesAutocommit conn.old conn.new }
{
    conn.query_all(ALL, &[])
}
