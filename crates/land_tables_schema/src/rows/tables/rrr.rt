//! The rows of `rrr`.
ghost use Rattle.std.specs.Prelude.{◌<◌, ◌^◌};
ghost use Rattle.land_tables_schema.specs.Connections.{HasRegisterTables, HasV1Tables, InTransaction};
ghost use Rattle.land_tables_schema.specs.Connections.{LeavesAutocommit, ReadsOnly, SameReference};
ghost use Rattle.land_tables_schema.specs.Rows.Forms.{InsertsVersion, UpdatesRows};
ghost use Rattle.land_tables_schema.specs.Rows.ReadQueries.{AreAllRows};
ghost use Rattle.land_tables_schema.specs.Rows.Rrr.{FitsRrr, is_rrr, rrr_of, rrr_form};
ghost use Rattle.land_tables_schema.specs.Rows.Versions.{opened_version, closed_version};
ghost use Rattle.land_tables_schema.specs.Tables as table;
ghost use Rattle.sqlite.specs.Held.{state};

use crate::rows::cells::{of_moment, of_number, of_number_or_null, of_text, of_text_or_null};
use sqlite::{Alter, Connection, Error, Row, Transaction};

/// Inserts a current version.
const BEGIN: &str = "INSERT INTO rrr \
    (number, unit, party, class, num, den, amount, currency, place, words, source, since, until) \
    VALUES (?1, ?2, ?3, ?4, ?5, ?6, ?7, ?8, ?9, ?10, ?11, ?12, 4102444800000)";

/// Closes the current version.
const CLOSE: &str = "UPDATE rrr SET until = ?2 WHERE number = ?1 AND until = 4102444800000";

/// Lists all versions.
pub const ALL: &str = "SELECT \
    number, unit, party, class, num, den, amount, currency, place, words, source, since, until \
    FROM rrr";

/// The cells of a row of `rrr`. Those that its class does not use are `None`.
#[derive(Clone, Copy, Debug)]
pub struct RrrCells<'a> {
    /// The entry's number.
    pub number: u64,
    /// The number of its unit.
    pub unit: u64,
    /// The number of its party.
    pub party: u64,
    /// The word of its class.
    pub class: &'a str,
    /// The share of a right: its numerator.
    pub num: Option<u64>,
    /// The share of a right: its denominator.
    pub den: Option<u64>,
    /// The amount of a mortgage, in minor units.
    pub amount: Option<u64>,
    /// The currency of a mortgage (ISO 4217).
    pub currency: Option<&'a str>,
    /// The rank of a mortgage.
    pub place: Option<u64>,
    /// The words of a restriction or a responsibility.
    pub words: Option<&'a str>,
    /// The number of its source.
    pub source: u64,
}

/// Inserts a current version of an entry.
pub fn begin<S: Alter>(
    tx: &mut Transaction<'_, S>,
    cells: RrrCells<'_>,
    since: i64,
) -> Result<usize, Error>
    requires fits { FitsRrr cells }
    requires has_tables { HasRegisterTables S.Store tx.old.conn.now }
    ensures same_reference { SameReference tx.old tx.new }
    ensures step { InTransaction S.Store result
        (InsertsVersion rrr_form (opened_version (rrr_of cells.entry) since)) tx.old tx.new }
{
    tx.execute(
        BEGIN,
        &[
            of_number(cells.number),
            of_number(cells.unit),
            of_number(cells.party),
            of_text(cells.class),
            of_number_or_null(cells.num),
            of_number_or_null(cells.den),
            of_number_or_null(cells.amount),
            of_text_or_null(cells.currency),
            of_number_or_null(cells.place),
            of_text_or_null(cells.words),
            of_number(cells.source),
            of_moment(since),
        ],
    )
}

/// Closes the current version of an entry.
pub fn close<S: Alter>(tx: &mut Transaction<'_, S>, number: u64, stamp: i64) -> Result<usize, Error>
    requires number_fits { number < 2 ^ 63 }
    requires has_tables { HasRegisterTables S.Store tx.old.conn.now }
    ensures same_reference { SameReference tx.old tx.new }
    ensures step { InTransaction S.Store result (UpdatesRows rrr_form (closed_version (is_rrr number) stamp))
        tx.old tx.new }
{
    tx.execute(CLOSE, &[of_number(number), of_moment(stamp)])
}

/// Returns all versions, each as the cells of its row with its lifespan, in unspecified order.
pub fn all<S: Alter>(conn: &mut Connection<S>) -> Result<Vec<Row>, Error>
    requires { HasV1Tables S.Store conn.old }
    ensures reads_only { ReadsOnly S.Store result
        (λ rows. AreAllRows table.rrr 11 (state S.Store conn.old).now.trees rows.items) conn.old conn.new }
    ensures autocommit { LeavesAutocommit conn.old conn.new }
{
    conn.query_all(ALL, &[])
}
