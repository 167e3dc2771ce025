//! The row of `edition`.
ghost use Rattle.land_tables_schema.specs.Connections.{HasRegisterTables, HasV1Tables, InTransaction};
ghost use Rattle.land_tables_schema.specs.Connections.{LeavesAutocommit, ReadsOnly, SameReference};
ghost use Rattle.land_tables_schema.specs.Rows.Edition.{v2_edition, edition_row, v1_edition};
ghost use Rattle.land_tables_schema.specs.Rows.Forms.{Appends};
ghost use Rattle.land_tables_schema.specs.Rows.ReadQueries.{AreAllNumbered};
ghost use Rattle.land_tables_schema.specs.Rows.SchemaMigration.{Rewrites};
ghost use Rattle.land_tables_schema.specs.Tables as table;
ghost use Rattle.sqlite.specs.Held.{state};

use sqlite::{Alter, Connection, Error, Row, Transaction};

/// Inserts the row.
const INSERT: &str = "INSERT INTO edition (id, version) VALUES (1, 2)";

/// Sets the schema version to 2.
const RAISE: &str = "UPDATE edition SET version = 2 WHERE id = 1";

/// Lists all rows.
pub const ALL: &str = "SELECT id, version FROM edition";

/// Inserts the row, with schema version 2.
pub fn insert<S: Alter>(tx: &mut Transaction<'_, S>) -> Result<usize, Error>
    requires { HasRegisterTables S.Store tx.old.conn.now }
    ensures same_reference { SameReference tx.old tx.new }
    ensures step { InTransaction S.Store result
        (Appends table.edition edition_row v2_edition) tx.old tx.new }
{
    tx.execute(INSERT, &[])
}

/// Sets the schema version of the row to 2, in a register of version 1.
pub fn raise<S: Alter>(tx: &mut Transaction<'_, S>) -> Result<usize, Error>
    requires { HasRegisterTables S.Store tx.old.conn.now }
    ensures same_reference { SameReference tx.old tx.new }
    ensures step { InTransaction S.Store result (Rewrites v1_edition v2_edition) tx.old tx.new }
{
    tx.execute(RAISE, &[])
}

/// Returns all rows, in unspecified order.
pub fn all<S: Alter>(conn: &mut Connection<S>) -> Result<Vec<Row>, Error>
    requires { HasV1Tables S.Store conn.old }
    ensures reads_only { ReadsOnly S.Store result (λ rows. AreAllNumbered table.edition
        (state S.Store conn.old).now.trees rows.items) conn.old conn.new }
    ensures autocommit { LeavesAutocommit conn.old conn.new }
{
    conn.query_all(ALL, &[])
}
