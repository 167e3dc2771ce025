//! The objects of a kind that a caller sees at a time.
ghost use Rattle.std.specs.Prelude.{◌≡◌, ◌&&◌, false, not};
ghost use Rattle.land_core.specs.Role.{is_role};
ghost use Rattle.land_core.specs.declared.role.Role.TheVariants as roles;
ghost use Rattle.land_rules.specs.Denials.Sight.{sees_all};
ghost use Rattle.land_rules.specs.Laws.{citizen};
ghost use Rattle.land_select_queries.specs.Joins.Sight.{IsSight, IsSightGiven, IsSightWith};
ghost use Rattle.land_select_queries.specs.Joins.Sight.{IsSightWithoutMandates};
ghost use Rattle.land_select_queries.specs.TableReads.{FailsOnlyWithoutHistory, ReadsTables};
ghost use Rattle.land_tables_schema.specs.Connections.{HasRegisterTables, IsUsable, LeavesAutocommit};

use crate::joins::running::{run_union, run_union_for};
use crate::lookups::of_agent::principals;
use crate::sights::laws::{selected_is_seen, selections_are_the_rules};
use crate::sights::sight::selections;
use land_core::caller::Caller;
use land_core::kind::Kind;
use land_core::role::Role;
use land_core::sequence::NumberList;
use land_rules::denials::sight::sees_all;
use land_rules::laws::{circles_see_together, seen_lists_are_exact};
use land_tables_rows::listing::fault::ReadFault;
use sqlite::{Alter, Connection};
use std::alloc::Global;

/// Checks if mandates add to a caller's sight of a kind: only for citizens, and not for parcels, which all
/// roles see.
fn has_circle(role: Role, kind: Kind) -> bool
    ensures { result ≡ is_role role roles.Citizen && not (sees_all role kind) }
{
    role == Role::Citizen && !sees_all(role, kind)
}

/// Returns the numbers of a kind that the policy, without mandates, lets a caller see at a time, in
/// increasing order.
fn sight_without_mandates<S: Alter>(
    alloc: Global,
    conn: &mut Connection<S>,
    caller: Caller,
    kind: Kind,
    at: i64,
) -> Result<NumberList, ReadFault>
    requires open { IsUsable S.Store conn.old }
    requires has_tables { HasRegisterTables S.Store conn.old }
    ensures reads_only { ReadsTables S.Store result
        (IsSightWithoutMandates caller kind at) conn.old conn.new }
    ensures unreadable { FailsOnlyWithoutHistory S.Store result conn.old conn.new }
    ensures autocommit { LeavesAutocommit conn.old conn.new }
{
    selected_is_seen();
    run_union(alloc, conn, selections(caller.role, kind), caller.party, at)
}

/// Returns the numbers of a kind that the policy lets a citizen with these principals see at a time, in
/// increasing order: the union over its circle.
fn sight_of_parties<S: Alter>(
    alloc: Global,
    conn: &mut Connection<S>,
    party: u64,
    principals: NumberList,
    kind: Kind,
    at: i64,
) -> Result<NumberList, ReadFault>
    requires open { IsUsable S.Store conn.old }
    requires has_tables { HasRegisterTables S.Store conn.old }
    ensures reads_only { ReadsTables S.Store result
        (IsSightGiven party principals kind at) conn.old conn.new }
    ensures unreadable { FailsOnlyWithoutHistory S.Store result conn.old conn.new }
    ensures autocommit { LeavesAutocommit conn.old conn.new }
{
    selections_are_the_rules();
    seen_lists_are_exact();
    circles_see_together();
    let mut callers = principals;
    callers.push(party)?;
    run_union_for(
        alloc,
        conn,
        selections(Role::Citizen, kind),
        callers.as_slice(),
        at,
    )
}

/// Returns the numbers of a kind that the policy lets a citizen see at a time, in increasing order. Also
/// returns if the citizen holds no mandate.
fn sight_of_circle<S: Alter>(
    alloc: Global,
    conn: &mut Connection<S>,
    party: u64,
    kind: Kind,
    at: i64,
) -> Result<(NumberList, bool), ReadFault>
    requires open { IsUsable S.Store conn.old }
    requires has_tables { HasRegisterTables S.Store conn.old }
    ensures reads_only { ReadsTables S.Store result (IsSightWith (citizen party) false kind at) conn.old
        conn.new }
    ensures unreadable { FailsOnlyWithoutHistory S.Store result conn.old conn.new }
    ensures autocommit { LeavesAutocommit conn.old conn.new }
{
    seen_lists_are_exact();
    circles_see_together();
    let principals = principals(alloc, conn, party, at)?;
    if principals.as_slice().is_empty() {
        let own = Caller {
            party,
            role: Role::Citizen,
        };
        let numbers = sight_without_mandates(alloc, conn, own, kind, at)?;
        return Ok((numbers, true));
    }
    let numbers = sight_of_parties(alloc, conn, party, principals, kind, at)?;
    Ok((numbers, false))
}

/// Returns the numbers of a kind that the policy lets a caller see at a time, in Unix milliseconds, in
/// increasing order. A citizen also sees the objects of the principals whose mandates it holds at that time;
/// these are not looked up if `holds_none` states that it holds no mandate. Also returns if it was found that
/// the caller holds none. Returns error 520 only if the tables hold no history, and 501 if out of memory.
pub fn sight_and_mandates<S: Alter>(
    alloc: Global,
    conn: &mut Connection<S>,
    caller: Caller,
    holds_none: bool,
    kind: Kind,
    at: i64,
) -> Result<(NumberList, bool), ReadFault>
    requires open { IsUsable S.Store conn.old }
    requires has_tables { HasRegisterTables S.Store conn.old }
    ensures reads_only { ReadsTables S.Store result
        (IsSightWith caller holds_none kind at) conn.old conn.new }
    ensures unreadable { FailsOnlyWithoutHistory S.Store result conn.old conn.new }
    ensures autocommit { LeavesAutocommit conn.old conn.new }
{
    seen_lists_are_exact();
    circles_see_together();
    if has_circle(caller.role, kind) && !holds_none {
        return sight_of_circle(alloc, conn, caller.party, kind, at);
    }
    let numbers = sight_without_mandates(alloc, conn, caller, kind, at)?;
    Ok((numbers, false))
}

/// Returns the numbers of a kind that the policy lets a caller see at a time, in Unix milliseconds, in
/// increasing order. A citizen also sees the objects of the principals whose mandates it holds at that time.
/// Returns error 520 only if the tables hold no history, and 501 if out of memory.
pub fn sight<S: Alter>(
    alloc: Global,
    conn: &mut Connection<S>,
    caller: Caller,
    kind: Kind,
    at: i64,
) -> Result<NumberList, ReadFault>
    requires open { IsUsable S.Store conn.old }
    requires has_tables { HasRegisterTables S.Store conn.old }
    ensures reads_only { ReadsTables S.Store result (IsSight caller kind at) conn.old conn.new }
    ensures unreadable { FailsOnlyWithoutHistory S.Store result conn.old conn.new }
    ensures autocommit { LeavesAutocommit conn.old conn.new }
{
    let told = sight_and_mandates(alloc, conn, caller, false, kind, at)?;
    let (numbers, _) = told;
    Ok(numbers)
}
