//! The mandates that a party holds, their principals, and the circle of the party.
ghost use Rattle.std.specs.Prelude.{◌≡◌, map, nat_eq, IfOk};
ghost use Rattle.land_core.specs.Entries.{entries_where};
ghost use Rattle.land_select_queries.specs.Lookups.Parts.{ArePrincipalsOf, IsCircleOf, ReadsPart};
ghost use Rattle.land_select_queries.specs.TableReads.{FailsOnlyWithoutHistory, ReadsTables};
ghost use Rattle.land_tables_schema.specs.Connections.{HasRegisterTables, LeavesAutocommit};

use crate::lookups::record_lookup::RecordLookup;
use crate::lookups::record_rows::find;
use land_core::mandates::{Mandate, Mandates};
use land_core::sequence::{NumberList, Sequence};
use land_tables_history::mandates::mandates_at;
use land_tables_history::version::Version;
use land_tables_rows::listing::fault::ReadFault;
use sqlite::{Alter, Connection};
use std::alloc::{AllocError, Global};

/// Reads the mandates that a party holds at a time, in Unix milliseconds. Returns error 520 only if the
/// tables hold no history, and 501 if out of memory.
pub fn mandates<S: Alter>(
    alloc: Global,
    conn: &mut Connection<S>,
    agent: u64,
    at: i64,
) -> Result<Mandates, ReadFault>
    requires has_tables { HasRegisterTables S.Store conn.old }
    ensures reads_only { ReadsTables S.Store result
        (ReadsPart (λ r. entries_where (λ mandate u. nat_eq mandate.agent agent) r.mandates) at) conn.old
        conn.new }
    ensures unreadable { FailsOnlyWithoutHistory S.Store result conn.old conn.new }
    ensures autocommit { LeavesAutocommit conn.old conn.new }
{
    let held = find(alloc, conn, RecordLookup::MandatesOfAgent, agent, at)?;
    Ok(mandates_at(alloc, held.as_slice(), at)?)
}

/// Reads the principals of a party at a time, in Unix milliseconds, in any order and each once. Mandates are
/// not transitive: the principals of these are not included. Returns error 520 only if the tables hold no
/// history, and 501 if out of memory.
pub fn principals<S: Alter>(
    alloc: Global,
    conn: &mut Connection<S>,
    agent: u64,
    at: i64,
) -> Result<NumberList, ReadFault>
    requires has_tables { HasRegisterTables S.Store conn.old }
    ensures reads_only { ReadsTables S.Store result (ArePrincipalsOf agent at) conn.old conn.new }
    ensures unreadable { FailsOnlyWithoutHistory S.Store result conn.old conn.new }
    ensures autocommit { LeavesAutocommit conn.old conn.new }
{
    let found = find(alloc, conn, RecordLookup::MandatesOfAgent, agent, at)?;
    Ok(principals_of(alloc, found.as_slice())?)
}

/// Returns the principals of mandates, in the same order.
fn principals_of(alloc: Global, mandates: &[Version<Mandate>]) -> Result<NumberList, AllocError>
    ensures { IfOk result (λ it. it ≡ map (λ v. v.what.principal) mandates.now) }
{
    let mut numbers = Sequence::new(alloc);
    for version in mandates {
        numbers.push(version.what.principal)?;
    }
    Ok(numbers)
}

/// Reads the circle of a party at a time, in Unix milliseconds, in any order: the party and its principals.
/// Returns error 520 only if the tables hold no history, and 501 if out of memory.
pub fn circle<S: Alter>(
    alloc: Global,
    conn: &mut Connection<S>,
    party: u64,
    at: i64,
) -> Result<NumberList, ReadFault>
    requires has_tables { HasRegisterTables S.Store conn.old }
    ensures reads_only { ReadsTables S.Store result (IsCircleOf party at) conn.old conn.new }
    ensures unreadable { FailsOnlyWithoutHistory S.Store result conn.old conn.new }
    ensures autocommit { LeavesAutocommit conn.old conn.new }
{
    let mut numbers = principals(alloc, conn, party, at)?;
    numbers.push(party)?;
    Ok(numbers)
}
