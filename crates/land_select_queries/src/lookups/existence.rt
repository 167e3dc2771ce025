//! Existence of parties and units, by their numbers only.
ghost use Rattle.std.specs.Prelude.{◌≡◌, nat_eq, length, not};
ghost use Rattle.land_core.specs.Register.{stands};
ghost use Rattle.land_core.specs.declared.kind.Kind.TheVariants as kinds;
ghost use Rattle.land_select_queries.specs.Lookups.Parts.{ReadsPart};
ghost use Rattle.land_select_queries.specs.TableReads.{FailsOnlyWithoutHistory, ReadsTables};
ghost use Rattle.land_tables_schema.specs.Connections.{HasRegisterTables, LeavesAutocommit};

use crate::lookups::column_lookup::ColumnLookup;
use crate::lookups::numbers::numbers;
use land_tables_rows::listing::fault::ReadFault;
use sqlite::{Alter, Connection};
use std::alloc::Global;

/// Checks if a list is not empty.
fn are_some(numbers: &[u64]) -> bool
    ensures { result ≡ not (nat_eq (length numbers.now) 0) }
{
    !numbers.is_empty()
}

/// Checks if a party exists at a time, in Unix milliseconds. The other columns of its row are not read.
/// Returns error 520 only if the tables hold no history, and 501 if out of memory.
pub fn party_exists<S: Alter>(
    alloc: Global,
    conn: &mut Connection<S>,
    number: u64,
    at: i64,
) -> Result<bool, ReadFault>
    requires has_tables { HasRegisterTables S.Store conn.old }
    ensures reads_only { ReadsTables S.Store result (ReadsPart (λ r. stands r kinds.Party number) at) conn.old
        conn.new }
    ensures unreadable { FailsOnlyWithoutHistory S.Store result conn.old conn.new }
    ensures autocommit { LeavesAutocommit conn.old conn.new }
{
    let told = numbers(alloc, conn, ColumnLookup::Party, number, at)?;
    Ok(are_some(told.as_slice()))
}

/// Checks if a unit exists at a time, in Unix milliseconds. The other columns of its row are not read.
/// Returns error 520 only if the tables hold no history, and 501 if out of memory.
pub fn unit_exists<S: Alter>(
    alloc: Global,
    conn: &mut Connection<S>,
    number: u64,
    at: i64,
) -> Result<bool, ReadFault>
    requires has_tables { HasRegisterTables S.Store conn.old }
    ensures reads_only { ReadsTables S.Store result (ReadsPart (λ r. stands r kinds.Unit number) at) conn.old
        conn.new }
    ensures unreadable { FailsOnlyWithoutHistory S.Store result conn.old conn.new }
    ensures autocommit { LeavesAutocommit conn.old conn.new }
{
    let told = numbers(alloc, conn, ColumnLookup::Unit, number, at)?;
    Ok(are_some(told.as_slice()))
}
