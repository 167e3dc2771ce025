//! The rows of `moments`.
ghost use Rattle.std.specs.Prelude.{◌<◌, ◌^◌};
ghost use Rattle.land_tables_schema.specs.Connections.{HasRegisterTables, HasV1Tables, InTransaction};
ghost use Rattle.land_tables_schema.specs.Connections.{LeavesAutocommit, ReadsOnly, SameReference};
ghost use Rattle.land_tables_schema.specs.Rows.Forms.{Appends};
ghost use Rattle.land_tables_schema.specs.Rows.ReadQueries.{AreAllNumbered};
ghost use Rattle.land_tables_schema.specs.Rows.Moments.{moment_row};
ghost use Rattle.land_tables_schema.specs.Tables as table;
ghost use Rattle.sqlite.specs.Held.{state};

use crate::rows::cells::{of_moment, of_number};
use sqlite::{Alter, Connection, Error, Row, Transaction};

/// Inserts a commit.
const INSERT: &str = "INSERT INTO moments (stamp, next) VALUES (?1, ?2)";

/// Lists all rows.
pub const ALL: &str = "SELECT stamp, next FROM moments";

/// Inserts a commit: its stamp, and the next number after it.
pub fn insert<S: Alter>(tx: &mut Transaction<'_, S>, stamp: i64, next: u64) -> Result<usize, Error>
    requires next_fits { next < 2 ^ 63 }
    requires has_tables { HasRegisterTables S.Store tx.old.conn.now }
    ensures same_reference { SameReference tx.old tx.new }
    ensures step { InTransaction S.Store result
        (Appends table.moments moment_row (record { stamp = stamp; next = next })) tx.old tx.new }
{
    tx.execute(INSERT, &[of_moment(stamp), of_number(next)])
}

/// Returns all rows, in unspecified order.
pub fn all<S: Alter>(conn: &mut Connection<S>) -> Result<Vec<Row>, Error>
    requires { HasV1Tables S.Store conn.old }
    ensures reads_only { ReadsOnly S.Store result (λ rows. AreAllNumbered table.moments
        (state S.Store conn.old).now.trees rows.items) conn.old conn.new }
    ensures autocommit { LeavesAutocommit conn.old conn.new }
{
    conn.query_all(ALL, &[])
}
