//! The mutations that an act refers to.
ghost use Rattle.std.specs.FinMap as map;
ghost use Rattle.std.specs.Prelude.{◌≡◌, nat_eq, IfOk};
ghost use Rattle.land_acts.specs.Slices.{mutations_in_slice};
ghost use Rattle.land_core.specs.Entries.{entries_where};
ghost use Rattle.land_core.specs.declared.caller.Caller.{Caller as Asker};
ghost use Rattle.land_core.specs.declared.kind.Kind.TheVariants as kinds;
ghost use Rattle.land_rules.specs.Denials.Standing.{mutation_of_act};
ghost use Rattle.land_select.specs.Cache.{IsMutationValue, IsValueOf};
ghost use Rattle.land_select.specs.Slices.Gathered.{HoldsOfRegister, put_one};
ghost use Rattle.land_select_queries.specs.Lookups.Parts.{ReadsPart};
ghost use Rattle.land_select_queries.specs.TableReads.{ReadsTables};
ghost use Rattle.land_tables_schema.specs.Connections.{HasRegisterTables, IsUsable, LeavesAutocommit};

use crate::cache::CachedValue;
use crate::slices::parties_and_roles::put_one;
use land_core::act::Act;
use land_core::caller::Caller;
use land_core::duplicate::Duplicate;
use land_core::mutation::MutationRecord;
use land_core::records::Records;
use land_select_queries::lookups::{by_number, of_lodger};
use land_tables_rows::listing::fault::ReadFault;
use sqlite::{Alter, Connection};
use std::alloc::{AllocError, Global};

/// Reads the mutation of a number, if it exists.
fn read_mutation_records<S: Alter>(
    alloc: Global,
    conn: &mut Connection<S>,
    number: u64,
    at: i64,
) -> Result<Records<MutationRecord>, ReadFault>
    requires has_tables { HasRegisterTables S.Store conn.old }
    ensures reads_only { ReadsTables S.Store result
        (ReadsPart (λ r. entries_where (λ n m. nat_eq n number) r.mutations) at)
        conn.old conn.new }
    ensures autocommit { LeavesAutocommit conn.old conn.new }
{
    let found = by_number::record(alloc, conn, number, at)?;
    Ok(put_one(Records::new(alloc), number, found)?)
}

/// Returns the mutation of a number among others, if it is there.
fn only_mutation(
    alloc: Global,
    mutations: &Records<MutationRecord>,
    number: u64,
) -> Result<Records<MutationRecord>, AllocError>
    ensures { IfOk result (λ it. it ≡ put_one map.empty number (map.get mutations.now number)) }
{
    match mutations.get(number) {
        Some(it) => put_one(Records::new(alloc), number, Some(it.copy(alloc)?)),
        None => Ok(Records::new(alloc)),
    }
}

/// Returns the mutation of a number, if it exists: the cached one, or else the one that is read.
fn decided_mutation<S: Alter>(
    alloc: Global,
    conn: &mut Connection<S>,
    number: u64,
    known: &CachedValue,
    at: i64,
) -> Result<Records<MutationRecord>, ReadFault>
    requires open { IsUsable S.Store conn.old }
    requires has_tables { HasRegisterTables S.Store conn.old }
    ensures reads_only { ReadsTables S.Store result
        (λ db it. HoldsOfRegister (λ r. (caller : Asker) → IsValueOf r caller kinds.Mutation number known.now
        → it ≡ entries_where (λ n m. nat_eq n number) r.mutations) at db) conn.old conn.new }
    ensures autocommit { LeavesAutocommit conn.old conn.new }
{
    match known {
        CachedValue::Mutations(mutations) => Ok(only_mutation(alloc, mutations, number)?),
        _ => read_mutation_records(alloc, conn, number, at),
    }
}

/// Reads the mutations that an act refers to, at a time, in Unix milliseconds: the one that it decides, or
/// the one that its caller lodged before with the same reference. A mutation that is cached is not read.
pub(crate) fn mutations_of<S: Alter>(
    alloc: Global,
    conn: &mut Connection<S>,
    caller: Caller,
    act: &Act,
    known: &CachedValue,
    at: i64,
) -> Result<Records<MutationRecord>, ReadFault>
    requires open { IsUsable S.Store conn.old }
    requires has_tables { HasRegisterTables S.Store conn.old }
    ensures reads_only { ReadsTables S.Store result
        (λ db it. HoldsOfRegister (λ r. IsMutationValue r caller (mutation_of_act act.now) known.now
        → it ≡ mutations_in_slice r caller act.now) at db) conn.old conn.new }
    ensures autocommit { LeavesAutocommit conn.old conn.new }
{
    match act {
        Act::Lodge(it) => {
            of_lodger::find_lodged(alloc, conn, caller.party, it.reference.as_str(), at)
        }
        Act::Approve(it) | Act::Refuse(it) => {
            decided_mutation(alloc, conn, it.mutation, known, at)
        }
        _ => Ok(Records::new(alloc)),
    }
}
