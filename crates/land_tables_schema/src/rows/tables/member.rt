//! The rows of `member`.
ghost use Rattle.std.specs.Prelude.{◌<◌, ◌^◌};
ghost use Rattle.land_tables_schema.specs.Connections.{HasRegisterTables, HasV1Tables, InTransaction};
ghost use Rattle.land_tables_schema.specs.Connections.{LeavesAutocommit, ReadsOnly, SameReference};
ghost use Rattle.land_tables_schema.specs.Rows.Forms.{InsertsVersion, UpdatesRows};
ghost use Rattle.land_tables_schema.specs.Rows.ReadQueries.{AreAllRows};
ghost use Rattle.land_tables_schema.specs.Rows.Member.{is_row_of_group, member_form};
ghost use Rattle.land_tables_schema.specs.Rows.Versions.{opened_version, closed_version};
ghost use Rattle.land_tables_schema.specs.Tables as table;
ghost use Rattle.sqlite.specs.Held.{state};

use crate::rows::cells::{of_moment, of_number};
use sqlite::{Alter, Connection, Error, Row, Transaction};

/// Inserts a current version.
const BEGIN: &str = "INSERT INTO member (grp, party, num, den, since, until) \
    VALUES (?1, ?2, ?3, ?4, ?5, 4102444800000)";

/// Closes the current version.
const CLOSE: &str = "UPDATE member SET until = ?2 WHERE grp = ?1 AND until = 4102444800000";

/// Lists all versions.
pub const ALL: &str = "SELECT grp, party, num, den, since, until FROM member";

/// Inserts a current version of a member of a group.
pub fn begin<S: Alter>(
    tx: &mut Transaction<'_, S>,
    grp: u64,
    party: u64,
    num: u64,
    den: u64,
    since: i64,
) -> Result<usize, Error>
    requires grp_fits { grp < 2 ^ 63 }
    requires party_fits { party < 2 ^ 63 }
    requires num_fits { num < 2 ^ 63 }
    requires den_fits { den < 2 ^ 63 }
    requires has_tables { HasRegisterTables S.Store tx.old.conn.now }
    ensures same_reference { SameReference tx.old tx.new }
    ensures step { InTransaction S.Store result (InsertsVersion member_form
        (opened_version (record { grp = grp; party = party; num = num; den = den }) since)) tx.old tx.new }
{
    tx.execute(
        BEGIN,
        &[
            of_number(grp),
            of_number(party),
            of_number(num),
            of_number(den),
            of_moment(since),
        ],
    )
}

/// Closes the current versions of all members of a group.
pub fn close<S: Alter>(tx: &mut Transaction<'_, S>, grp: u64, stamp: i64) -> Result<usize, Error>
    requires grp_fits { grp < 2 ^ 63 }
    requires has_tables { HasRegisterTables S.Store tx.old.conn.now }
    ensures same_reference { SameReference tx.old tx.new }
    ensures step { InTransaction S.Store result
        (UpdatesRows member_form (closed_version (is_row_of_group grp) stamp)) tx.old tx.new }
{
    tx.execute(CLOSE, &[of_number(grp), of_moment(stamp)])
}

/// Returns all versions, each as the cells of its row with its lifespan, in unspecified order.
pub fn all<S: Alter>(conn: &mut Connection<S>) -> Result<Vec<Row>, Error>
    requires { HasV1Tables S.Store conn.old }
    ensures reads_only { ReadsOnly S.Store result
        (λ rows. AreAllRows table.member 4 (state S.Store conn.old).now.trees rows.items) conn.old conn.new }
    ensures autocommit { LeavesAutocommit conn.old conn.new }
{
    conn.query_all(ALL, &[])
}
