//! The viewers of a party.
ghost use Rattle.std.specs.Prelude.{◌≡◌, length, nat_le};
ghost use Rattle.land_select_queries.specs.Lookups.Viewers.{AreViewerRows, AreViewers};
ghost use Rattle.land_select_queries.specs.TableReads.{FailsOnlyWithoutHistory, ReadsTables};
ghost use Rattle.land_tables_schema.specs.Connections.{HasRegisterTables, LeavesAutocommit};

use crate::joins::running::{known_or_zero, read};
use crate::lookups::relation::{Relation, text_of};
use land_core::sequence::NumberList;
use land_tables_rows::listing::fault::ReadFault;
use land_tables_schema::rows::cells::{of_moment, of_number};
use sqlite::{Alter, Connection, Error, Row};
use std::alloc::Global;

/// The greatest number of rows to decode. The statements return at most one more.
const MAX_VIEWERS: usize = 16;

/// Returns the rows of a party's viewers by a relation at a time, in any order. If there are more than the
/// greatest number, more viewers may exist.
fn rows_of<S: Alter>(
    conn: &mut Connection<S>,
    relation: Relation,
    party: u64,
    at: i64,
) -> Result<Vec<Row>, Error>
    requires has_tables { HasRegisterTables S.Store conn.old }
    ensures reads_only { ReadsTables S.Store result (λ db rows. AreViewerRows relation party at db rows.items)
        conn.old conn.new }
    ensures autocommit { LeavesAutocommit conn.old conn.new }
{
    conn.query_all(
        text_of(relation),
        &[of_number(known_or_zero(party)), of_moment(at)],
    )
}

/// Checks that there are at most 16 rows.
fn are_within_limit(rows: &[Row]) -> bool
    ensures { result ≡ nat_le (length rows.now) 16 }
{
    rows.len() <= MAX_VIEWERS
}

/// Reads the viewers of a party by a relation at a time, in Unix milliseconds, in any order and with
/// repetitions; `None` if there are more than 16 rows. This limits the work for a party with many entries to
/// that for one with few. Returns error 520 only if the tables hold no history, and 501 if out of memory.
pub fn viewers_of_party<S: Alter>(
    alloc: Global,
    conn: &mut Connection<S>,
    relation: Relation,
    party: u64,
    at: i64,
) -> Result<Option<NumberList>, ReadFault>
    requires has_tables { HasRegisterTables S.Store conn.old }
    ensures reads_only { ReadsTables S.Store result (AreViewers relation party at) conn.old conn.new }
    ensures unreadable { FailsOnlyWithoutHistory S.Store result conn.old conn.new }
    ensures autocommit { LeavesAutocommit conn.old conn.new }
{
    let rows = rows_of(conn, relation, party, at)?;
    if !are_within_limit(rows.as_slice()) {
        return Ok(None);
    }
    let told = read(alloc, rows.as_slice())?;
    Ok(Some(told))
}
