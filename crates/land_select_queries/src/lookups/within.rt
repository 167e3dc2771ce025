//! Records in a range of numbers.
ghost use Rattle.std.specs.Prelude.{◌≡◌, IfErr};
ghost use Rattle.land_core.specs.Entries.{entries_where};
ghost use Rattle.land_select_queries.specs.Lookups.RecordRows.{AreReadFrom, CannotBeRead};
ghost use Rattle.land_select_queries.specs.Lookups.Parts.{ReadsPart};
ghost use Rattle.land_select_queries.specs.Lookups.Ranges.{AreRowsWithin, is_within, text_within};
ghost use Rattle.land_select_queries.specs.TableReads.{FailsOnlyWithoutHistory, ReadsTables};
ghost use Rattle.land_tables_schema.specs.Connections.{HasRegisterTables, LeavesAutocommit};
ghost use Rattle.sqlite.specs.Held.{state};
ghost use Rattle.sqlite.specs.State.{HasCleanDisk};

use crate::lookups::numbered::Numbered;
use crate::lookups::record_rows::read;
use crate::lookups::texts;
use land_core::duplicate::Duplicate;
use land_core::kind::Kind;
use land_core::limits::LAST_NEXT;
use land_core::records::Records;
use land_core::sequence::Sequence;
use land_tables_history::part::part_at;
use land_tables_history::version::Version;
use land_tables_rows::listing::fault::ReadFault;
use land_tables_rows::reading::from_row::FromRow;
use land_tables_schema::rows::cells::{of_moment, of_number};
use sqlite::{Alter, Connection, Error, Row};
use std::alloc::Global;

/// Returns the SQL statement that selects a range of a kind. Parameter 1 is its first number, parameter 3 its
/// last number, and parameter 2 the time in Unix milliseconds.
pub fn text_within(kind: Kind) -> &'static str
    ensures { result.now ≡ text_within kind }
{
    match kind {
        Kind::Party => texts::PARTIES_WITHIN,
        Kind::Unit => texts::UNITS_WITHIN,
        Kind::Parcel => texts::PARCELS_WITHIN,
        Kind::Rrr => texts::ENTRIES_WITHIN,
        Kind::Source => texts::SOURCES_WITHIN,
        Kind::Mutation => texts::MUTATIONS_WITHIN,
    }
}

/// Returns the rows of a kind in a range of numbers at a time, in any order.
fn rows_of<S: Alter>(
    conn: &mut Connection<S>,
    kind: Kind,
    first: u64,
    last: u64,
    at: i64,
) -> Result<Vec<Row>, Error>
    requires has_tables { HasRegisterTables S.Store conn.old }
    ensures reads_only { ReadsTables S.Store result
        (λ db rows. AreRowsWithin kind first last at db rows.items)
        conn.old conn.new }
    ensures autocommit { LeavesAutocommit conn.old conn.new }
{
    conn.query_all(
        text_within(kind),
        &[
            of_number(first.min(LAST_NEXT)),
            of_moment(at),
            of_number(last.min(LAST_NEXT)),
        ],
    )
}

/// Reads the versions of a kind in a range of numbers at a time, in any order. Returns error 520 if a row is
/// unreadable, and 501 if out of memory.
fn find<V: Numbered, S: Alter>(
    alloc: Global,
    conn: &mut Connection<S>,
    first: u64,
    last: u64,
    at: i64,
) -> Result<Sequence<Version<(u64, V)>>, ReadFault>
where
    Version<(u64, V)>: FromRow,
    requires has_tables { HasRegisterTables S.Store conn.old }
    ensures reads_only { ReadsTables S.Store result
        (λ db it. AreReadFrom ⟦<Version<(u64, V)> as FromRow>⟧.said
        (AreRowsWithin V.KIND first last at db) it)
        conn.old conn.new }
    ensures unreadable { HasCleanDisk (state S.Store conn.new)
        → IfErr result (CannotBeRead ⟦<Version<(u64, V)> as FromRow>⟧.said
        (AreRowsWithin V.KIND first last at (state S.Store conn.old).now.trees)) }
    ensures autocommit { LeavesAutocommit conn.old conn.new }
{
    let rows = rows_of(conn, V::KIND, first, last, at)?;
    read(alloc, rows.as_slice())
}

/// Reads the records of a kind in a range of numbers, both ends included, at a time, in Unix milliseconds.
/// Returns error 520 only if the tables hold no history, and 501 if out of memory.
pub fn records<V: Numbered + Duplicate, S: Alter>(
    alloc: Global,
    conn: &mut Connection<S>,
    first: u64,
    last: u64,
    at: i64,
) -> Result<Records<V>, ReadFault>
where
    Version<(u64, V)>: FromRow,
    requires has_tables { HasRegisterTables S.Store conn.old }
    ensures reads_only { ReadsTables S.Store result
        (ReadsPart (λ r. entries_where (λ n v. is_within first last n) (V.part r)) at) conn.old conn.new }
    ensures unreadable { FailsOnlyWithoutHistory S.Store result conn.old conn.new }
    ensures autocommit { LeavesAutocommit conn.old conn.new }
{
    let found = find::<V, S>(alloc, conn, first, last, at)?;
    Ok(part_at(alloc, found.as_slice(), at)?)
}
