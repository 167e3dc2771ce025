//! The rows of `mutation`.
ghost use Rattle.std.specs.Prelude.{◌<◌, ◌^◌};
ghost use Rattle.land_tables_schema.specs.Connections.{HasRegisterTables, HasV1Tables, InTransaction};
ghost use Rattle.land_tables_schema.specs.Connections.{LeavesAutocommit, ReadsOnly, SameReference};
ghost use Rattle.land_tables_schema.specs.Rows.Forms.{InsertsVersion, UpdatesRows};
ghost use Rattle.land_tables_schema.specs.Rows.ReadQueries.{AreAllRows};
ghost use Rattle.land_tables_schema.specs.Rows.Mutation.{FitsMutation, is_mutation, mutation_of};
ghost use Rattle.land_tables_schema.specs.Rows.Mutation.{mutation_form};
ghost use Rattle.land_tables_schema.specs.Rows.Versions.{opened_version, closed_version};
ghost use Rattle.land_tables_schema.specs.Tables as table;
ghost use Rattle.sqlite.specs.Held.{state};

use crate::rows::cells::{of_moment, of_number, of_text};
use sqlite::{Alter, Connection, Error, Row, Transaction};

/// Inserts a current version.
const BEGIN: &str = "INSERT INTO mutation \
    (number, lodger, reference, source, lodged, act, content, state, since, until) \
    VALUES (?1, ?2, ?3, ?4, ?5, ?6, ?7, ?8, ?9, 4102444800000)";

/// Closes the current version.
const CLOSE: &str = "UPDATE mutation SET until = ?2 WHERE number = ?1 AND until = 4102444800000";

/// Lists all versions.
pub const ALL: &str = "SELECT \
    number, lodger, reference, source, lodged, act, content, state, since, until \
    FROM mutation";

/// The cells of a row of `mutation`.
#[derive(Clone, Copy, Debug)]
pub struct MutationCells<'a> {
    /// The mutation's number.
    pub number: u64,
    /// The number of the party that lodged it.
    pub lodger: u64,
    /// Its reference, chosen by the lodger.
    pub reference: &'a str,
    /// The number of its source.
    pub source: u64,
    /// The moment of its lodging, in Unix milliseconds.
    pub lodged: i64,
    /// The word of the act that lodged it.
    pub act: &'a str,
    /// Its content, as compact JSON.
    pub content: &'a str,
    /// The word of its state.
    pub state: &'a str,
}

/// Inserts a current version of a mutation.
pub fn begin<S: Alter>(
    tx: &mut Transaction<'_, S>,
    cells: MutationCells<'_>,
    since: i64,
) -> Result<usize, Error>
    requires fits { FitsMutation cells }
    requires has_tables { HasRegisterTables S.Store tx.old.conn.now }
    ensures same_reference { SameReference tx.old tx.new }
    ensures step { InTransaction S.Store result
        (InsertsVersion mutation_form (opened_version (mutation_of cells.entry) since)) tx.old tx.new }
{
    tx.execute(
        BEGIN,
        &[
            of_number(cells.number),
            of_number(cells.lodger),
            of_text(cells.reference),
            of_number(cells.source),
            of_moment(cells.lodged),
            of_text(cells.act),
            of_text(cells.content),
            of_text(cells.state),
            of_moment(since),
        ],
    )
}

/// Closes the current version of a mutation.
pub fn close<S: Alter>(tx: &mut Transaction<'_, S>, number: u64, stamp: i64) -> Result<usize, Error>
    requires number_fits { number < 2 ^ 63 }
    requires has_tables { HasRegisterTables S.Store tx.old.conn.now }
    ensures same_reference { SameReference tx.old tx.new }
    ensures step { InTransaction S.Store result
        (UpdatesRows mutation_form (closed_version (is_mutation number) stamp)) tx.old tx.new }
{
    tx.execute(CLOSE, &[of_number(number), of_moment(stamp)])
}

/// Returns all versions, each as the cells of its row with its lifespan, in unspecified order.
pub fn all<S: Alter>(conn: &mut Connection<S>) -> Result<Vec<Row>, Error>
    requires { HasV1Tables S.Store conn.old }
    ensures reads_only { ReadsOnly S.Store result
        (λ rows. AreAllRows table.mutation 8 (state S.Store conn.old).now.trees rows.items)
        conn.old conn.new }
    ensures autocommit { LeavesAutocommit conn.old conn.new }
{
    conn.query_all(ALL, &[])
}
