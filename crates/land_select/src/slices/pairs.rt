//! The mandate that an act gives or withdraws.
ghost use Rattle.std.specs.Prelude.{◌≡◌, IfOk};
ghost use Rattle.land_acts.specs.Slices.{is_same_mandate, names_mandate};
ghost use Rattle.land_core.specs.Entries.{entries_where};
ghost use Rattle.land_select.specs.Slices.Named.{mandate_of_act};
ghost use Rattle.land_select_queries.specs.Lookups.Parts.{ReadsPart};
ghost use Rattle.land_select_queries.specs.TableReads.{ReadsTables};
ghost use Rattle.land_tables_schema.specs.Connections.{HasRegisterTables, IsUsable, LeavesAutocommit};

use land_core::act::Act;
use land_core::caller::Caller;
use land_core::mandates::{Mandate, Mandates};
use land_select_queries::lookups::of_agent;
use land_tables_rows::listing::fault::ReadFault;
use sqlite::{Alter, Connection};
use std::alloc::{AllocError, Global};

/// Returns the mandate that an act gives or withdraws, if any.
fn mandate_of_act(caller: Caller, act: &Act) -> Option<Mandate>
    ensures { result ≡ mandate_of_act caller act.now }
{
    match act {
        Act::Mandate(it) => Some(Mandate {
            principal: caller.party,
            agent: it.agent,
        }),
        Act::Withdraw(it) => Some(*it),
        _ => None,
    }
}

/// Checks if two mandates have the same principal and the same agent.
fn is_same_mandate(it: Mandate, mandate: Mandate) -> bool
    ensures { result ≡ is_same_mandate it mandate }
{
    mandate.principal == it.principal && mandate.agent == it.agent
}

/// Returns a mandate as the only one, if it is in a list.
fn only_mandate(alloc: Global, mandates: &Mandates, it: Mandate) -> Result<Mandates, AllocError>
    ensures { IfOk result
        (λ kept. kept ≡ entries_where (λ mandate u. is_same_mandate it mandate) mandates.now) }
{
    let mut kept = Mandates::new(alloc);
    for mandate in mandates.iter() {
        if is_same_mandate(it, *mandate) {
            kept.insert(*mandate)?;
        }
    }
    Ok(kept)
}

/// Reads a mandate, if it exists, from those that its agent holds.
fn read_mandate<S: Alter>(
    alloc: Global,
    conn: &mut Connection<S>,
    it: Mandate,
    at: i64,
) -> Result<Mandates, ReadFault>
    requires has_tables { HasRegisterTables S.Store conn.old }
    ensures reads_only { ReadsTables S.Store result
        (ReadsPart (λ r. entries_where (λ mandate u. is_same_mandate it mandate) r.mandates) at) conn.old
        conn.new }
    ensures autocommit { LeavesAutocommit conn.old conn.new }
{
    let held = of_agent::mandates(alloc, conn, it.agent, at)?;
    Ok(only_mandate(alloc, &held, it)?)
}

/// Reads the mandate that an act gives or withdraws, if it exists at a time, in Unix milliseconds.
pub(crate) fn mandates_of<S: Alter>(
    alloc: Global,
    conn: &mut Connection<S>,
    caller: Caller,
    act: &Act,
    at: i64,
) -> Result<Mandates, ReadFault>
    requires open { IsUsable S.Store conn.old }
    requires has_tables { HasRegisterTables S.Store conn.old }
    ensures reads_only { ReadsTables S.Store result
        (ReadsPart (λ r. entries_where (λ mandate u. names_mandate caller act.now mandate) r.mandates) at)
        conn.old
        conn.new }
    ensures autocommit { LeavesAutocommit conn.old conn.new }
{
    match mandate_of_act(caller, act) {
        Some(it) => read_mandate(alloc, conn, it, at),
        None => Ok(Mandates::new(alloc)),
    }
}
