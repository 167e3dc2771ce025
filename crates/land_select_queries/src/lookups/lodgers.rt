//! Lodgers of mutations, read without the contents of these.
ghost use Rattle.std.specs.List.{list_any};
ghost use Rattle.std.specs.Prelude.{◌≡◌, nat_eq};
ghost use Rattle.land_rules.specs.Relations.{has_lodged, has_pending_mutation_on};
ghost use Rattle.land_select_queries.specs.Lookups.Parts.{ReadsPart};
ghost use Rattle.land_select_queries.specs.TableReads.{FailsOnlyWithoutHistory, ReadsTables};
ghost use Rattle.land_tables_schema.specs.Connections.{HasRegisterTables, LeavesAutocommit};

use crate::lookups::column_lookup::ColumnLookup;
use crate::lookups::numbers::numbers;
use land_tables_rows::listing::fault::ReadFault;
use sqlite::{Alter, Connection};
use std::alloc::Global;

/// Checks if a party is in a list.
fn is_among(parties: &[u64], party: u64) -> bool
    ensures { result ≡ list_any (nat_eq party) parties.now }
{
    parties.iter().any(|it| party == *it)
}

/// Checks if the mutation of a number exists at a time, in Unix milliseconds, and a party lodged it. It may
/// be decided. Returns error 520 only if the tables hold no history, and 501 if out of memory.
pub fn has_lodged<S: Alter>(
    alloc: Global,
    conn: &mut Connection<S>,
    party: u64,
    number: u64,
    at: i64,
) -> Result<bool, ReadFault>
    requires has_tables { HasRegisterTables S.Store conn.old }
    ensures reads_only { ReadsTables S.Store result (ReadsPart (λ r. has_lodged r party number) at) conn.old
        conn.new }
    ensures unreadable { FailsOnlyWithoutHistory S.Store result conn.old conn.new }
    ensures autocommit { LeavesAutocommit conn.old conn.new }
{
    let lodgers = numbers(alloc, conn, ColumnLookup::LodgerOfMutation, number, at)?;
    Ok(is_among(lodgers.as_slice(), party))
}

/// Checks if a pending mutation of a party refers to a unit at a time, in Unix milliseconds. Returns error
/// 520 only if the tables hold no history, and 501 if out of memory.
pub fn has_pending_mutation_on<S: Alter>(
    alloc: Global,
    conn: &mut Connection<S>,
    party: u64,
    unit: u64,
    at: i64,
) -> Result<bool, ReadFault>
    requires has_tables { HasRegisterTables S.Store conn.old }
    ensures reads_only { ReadsTables S.Store result (ReadsPart (λ r. has_pending_mutation_on r party unit) at)
        conn.old conn.new }
    ensures unreadable { FailsOnlyWithoutHistory S.Store result conn.old conn.new }
    ensures autocommit { LeavesAutocommit conn.old conn.new }
{
    let lodgers = numbers(alloc, conn, ColumnLookup::LodgersOnUnit, unit, at)?;
    Ok(is_among(lodgers.as_slice(), party))
}
