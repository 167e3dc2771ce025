//! The parties of the entries of a unit, or of a range of numbers.
ghost use Rattle.land_select_queries.specs.Lookups.Parties.{ArePartiesIn, ArePartiesWithin, ArePartyRows};
ghost use Rattle.land_select_queries.specs.Lookups.Parties.{of_range, of_unit};
ghost use Rattle.land_select_queries.specs.TableReads.{FailsOnlyWithoutHistory, ReadsTables};
ghost use Rattle.land_tables_schema.specs.Connections.{HasRegisterTables, LeavesAutocommit};

use crate::joins::running::known_or_zero;
use crate::lookups::record_rows::read;
use crate::lookups::texts;
use land_core::limits::LAST_NEXT;
use land_core::party::PartyRecord;
use land_core::sequence::Sequence;
use land_tables_history::version::Version;
use land_tables_rows::listing::fault::ReadFault;
use land_tables_schema::rows::cells::{of_moment, of_number};
use sqlite::{Alter, Connection, Error, Row};
use std::alloc::Global;

/// Returns the rows of the parties of a unit's entries at a time, in any order.
fn rows_of<S: Alter>(conn: &mut Connection<S>, unit: u64, at: i64) -> Result<Vec<Row>, Error>
    requires has_tables { HasRegisterTables S.Store conn.old }
    ensures reads_only { ReadsTables S.Store result (λ db rows. ArePartyRows (of_unit unit) at db rows.items)
        conn.old conn.new }
    ensures autocommit { LeavesAutocommit conn.old conn.new }
{
    conn.query_all(
        texts::PARTIES_OF_UNIT,
        &[of_number(known_or_zero(unit)), of_moment(at)],
    )
}

/// Reads the parties of a unit's entries at a time, in Unix milliseconds, in any order. A party is repeated
/// for each of its entries. Returns error 520 only if the tables hold no history, and 501 if out of memory.
pub fn parties<S: Alter>(
    alloc: Global,
    conn: &mut Connection<S>,
    unit: u64,
    at: i64,
) -> Result<Sequence<Version<(u64, PartyRecord)>>, ReadFault>
    requires has_tables { HasRegisterTables S.Store conn.old }
    ensures reads_only { ReadsTables S.Store result (ArePartiesIn unit at) conn.old conn.new }
    ensures unreadable { FailsOnlyWithoutHistory S.Store result conn.old conn.new }
    ensures autocommit { LeavesAutocommit conn.old conn.new }
{
    let rows = rows_of(conn, unit, at)?;
    read(alloc, rows.as_slice())
}

/// Returns the rows of the parties of entries in a range of numbers at a time, in any order.
fn rows_within<S: Alter>(
    conn: &mut Connection<S>,
    first: u64,
    last: u64,
    at: i64,
) -> Result<Vec<Row>, Error>
    requires has_tables { HasRegisterTables S.Store conn.old }
    ensures reads_only { ReadsTables S.Store result
        (λ db rows. ArePartyRows (of_range first last) at db rows.items)
        conn.old conn.new }
    ensures autocommit { LeavesAutocommit conn.old conn.new }
{
    conn.query_all(
        texts::PARTIES_OF_ENTRIES,
        &[
            of_number(first.min(LAST_NEXT)),
            of_moment(at),
            of_number(last.min(LAST_NEXT)),
        ],
    )
}

/// Reads the parties of the entries in a range of numbers, both ends included, at a time, in Unix
/// milliseconds, in any order. A party is repeated for each of its entries. Returns error 520 only if the
/// tables hold no history, and 501 if out of memory.
pub fn parties_within<S: Alter>(
    alloc: Global,
    conn: &mut Connection<S>,
    first: u64,
    last: u64,
    at: i64,
) -> Result<Sequence<Version<(u64, PartyRecord)>>, ReadFault>
    requires has_tables { HasRegisterTables S.Store conn.old }
    ensures reads_only { ReadsTables S.Store result (ArePartiesWithin first last at) conn.old conn.new }
    ensures unreadable { FailsOnlyWithoutHistory S.Store result conn.old conn.new }
    ensures autocommit { LeavesAutocommit conn.old conn.new }
{
    let rows = rows_within(conn, first, last, at)?;
    read(alloc, rows.as_slice())
}
