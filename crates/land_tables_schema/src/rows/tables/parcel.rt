//! The rows of `parcel`.
ghost use Rattle.std.specs.Prelude.{◌<◌, ◌^◌};
ghost use Rattle.land_tables_schema.specs.Connections.{HasRegisterTables, HasV1Tables, InTransaction};
ghost use Rattle.land_tables_schema.specs.Connections.{LeavesAutocommit, ReadsOnly, SameReference};
ghost use Rattle.land_tables_schema.specs.Rows.Forms.{InsertsVersion, UpdatesRows};
ghost use Rattle.land_tables_schema.specs.Rows.ReadQueries.{AreAllRows};
ghost use Rattle.land_tables_schema.specs.Rows.Parcel.{is_parcel, parcel_form};
ghost use Rattle.land_tables_schema.specs.Rows.Versions.{opened_version, closed_version};
ghost use Rattle.land_tables_schema.specs.Tables as table;
ghost use Rattle.sqlite.specs.Held.{state};

use crate::rows::cells::{of_moment, of_number, of_text};
use sqlite::{Alter, Connection, Error, Row, Transaction};

/// Inserts a current version.
const BEGIN: &str = "INSERT INTO parcel (number, unit, label, outline, source, since, until) \
    VALUES (?1, ?2, ?3, ?4, ?5, ?6, 4102444800000)";

/// Closes the current version.
const CLOSE: &str = "UPDATE parcel SET until = ?2 WHERE number = ?1 AND until = 4102444800000";

/// Lists all versions.
pub const ALL: &str = "SELECT number, unit, label, outline, source, since, until FROM parcel";

/// Inserts a current version of a parcel.
pub fn begin<S: Alter>(
    tx: &mut Transaction<'_, S>,
    number: u64,
    unit: u64,
    label: &str,
    outline: &str,
    source: u64,
    since: i64,
) -> Result<usize, Error>
    requires number_fits { number < 2 ^ 63 }
    requires unit_fits { unit < 2 ^ 63 }
    requires source_fits { source < 2 ^ 63 }
    requires has_tables { HasRegisterTables S.Store tx.old.conn.now }
    ensures same_reference { SameReference tx.old tx.new }
    ensures step { InTransaction S.Store result (InsertsVersion parcel_form
        (opened_version (record {
          number = number;
          unit = unit;
          label = label.now;
          outline = outline.now;
          source = source;
        }) since)) tx.old tx.new }
{
    tx.execute(
        BEGIN,
        &[
            of_number(number),
            of_number(unit),
            of_text(label),
            of_text(outline),
            of_number(source),
            of_moment(since),
        ],
    )
}

/// Closes the current version of a parcel.
pub fn close<S: Alter>(tx: &mut Transaction<'_, S>, number: u64, stamp: i64) -> Result<usize, Error>
    requires number_fits { number < 2 ^ 63 }
    requires has_tables { HasRegisterTables S.Store tx.old.conn.now }
    ensures same_reference { SameReference tx.old tx.new }
    ensures step { InTransaction S.Store result
        (UpdatesRows parcel_form (closed_version (is_parcel number) stamp)) tx.old tx.new }
{
    tx.execute(CLOSE, &[of_number(number), of_moment(stamp)])
}

/// Returns all versions, each as the cells of its row with its lifespan, in unspecified order.
pub fn all<S: Alter>(conn: &mut Connection<S>) -> Result<Vec<Row>, Error>
    requires { HasV1Tables S.Store conn.old }
    ensures reads_only { ReadsOnly S.Store result
        (λ rows. AreAllRows table.parcel 5 (state S.Store conn.old).now.trees rows.items) conn.old conn.new }
    ensures autocommit { LeavesAutocommit conn.old conn.new }
{
    conn.query_all(ALL, &[])
}
