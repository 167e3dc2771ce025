//! Authorizes the view of an object.
ghost use Rattle.land_core.specs.Register.{stands};
ghost use Rattle.land_core.specs.declared.kind.Kind.TheVariants as kinds;
ghost use Rattle.land_rules.specs.Denials.Sight.{is_visible_by_pending, verdict_given_sight};
ghost use Rattle.land_rules.specs.Relations.{has_pending_mutation_on};
ghost use Rattle.land_rules.specs.Rules.{first_denial, sees, view_rules};
ghost use Rattle.land_select.specs.Cache.{IsFactWith};
ghost use Rattle.land_select_queries.specs.Lookups.Parts.{ReadsPart};
ghost use Rattle.land_select_queries.specs.TableReads.{ReadsTables};
ghost use Rattle.land_tables_schema.specs.Connections.{HasRegisterTables, IsUsable, LeavesAutocommit};

use crate::cache::{CachedValue, cached_object};
use crate::verdict::by_interest::is_visible_by_interest;
use crate::verdict::conveyancer::{is_pending, read_pending_unit};
use crate::verdict::party::is_party_visible;
use crate::view::is_listed;
use land_core::caller::Caller;
use land_core::kind::Kind;
use land_core::laws::soundness_by_number;
use land_rules::denials::interests::sees_by_interest;
use land_rules::denials::laws::{
    full_sight_shows_all, interests_decide_sight, lodgers_see_their_own, pending_units_are_visible,
    sight_decides_verdicts,
};
use land_rules::denials::sight::{
    is_unit_of_conveyancer, sees_all, sees_by_pending, sees_own_lodgings, view_verdict,
};
use land_rules::laws::seen_lists_are_exact;
use land_rules::verdict::Verdict;
use land_select_queries::joins::sight::sight;
use land_select_queries::lookups::lodgers::has_lodged;
use land_select_queries::lookups::objects::object;
use land_tables_rows::listing::fault::ReadFault;
use sqlite::{Alter, Connection};
use std::alloc::Global;

/// Checks if an object exists at a time. Also returns the object.
pub(crate) fn read_object<S: Alter>(
    alloc: Global,
    conn: &mut Connection<S>,
    caller: Caller,
    kind: Kind,
    number: u64,
    at: i64,
) -> Result<(bool, CachedValue), ReadFault>
    requires has_tables { HasRegisterTables S.Store conn.old }
    ensures reads_only { ReadsTables S.Store result
        (IsFactWith (λ r. stands r kind number) caller kind number at)
        conn.old conn.new }
    ensures autocommit { LeavesAutocommit conn.old conn.new }
{
    soundness_by_number();
    let found = object(alloc, conn, kind, number, at)?;
    Ok((found.is_some(), cached_object(found)))
}

/// Checks if a caller sees an object at a time. Also returns the object, if it was read.
///
/// Reads as little as the role allows:
///
/// | the caller sees, of this kind | rows read |
/// |---|---|
/// | all objects | the object |
/// | its own lodgings | the lodger of the mutation |
/// | by an interest in a unit (citizen, bank) | entries of the unit or of the mutation's units, a citizen's groups |
/// | by a pending mutation (conveyancer) | the lodgers of mutations that refer to the unit |
/// | parties of visible entries | the party's viewers if there are at most 16 rows, else the caller's list |
fn is_visible<S: Alter>(
    alloc: Global,
    conn: &mut Connection<S>,
    caller: Caller,
    kind: Kind,
    number: u64,
    at: i64,
) -> Result<(bool, CachedValue), ReadFault>
    requires open { IsUsable S.Store conn.old }
    requires has_tables { HasRegisterTables S.Store conn.old }
    ensures reads_only { ReadsTables S.Store result
        (IsFactWith (λ r. sees r caller kind number) caller kind number at) conn.old conn.new }
    ensures autocommit { LeavesAutocommit conn.old conn.new }
{
    seen_lists_are_exact();
    soundness_by_number();
    full_sight_shows_all();
    lodgers_see_their_own();
    interests_decide_sight();
    pending_units_are_visible();
    if sees_all(caller.role, kind) {
        return read_object(alloc, conn, caller, kind, number, at);
    }
    if sees_own_lodgings(caller.role, kind) {
        let own = has_lodged(alloc, conn, caller.party, number, at)?;
        return Ok((own, CachedValue::Nothing));
    }
    if sees_by_interest(caller.role, kind) {
        return is_visible_by_interest(alloc, conn, caller, kind, number, at);
    }
    if sees_by_pending(caller.role, kind) {
        return is_pending(alloc, conn, caller, kind, number, at);
    }
    if kind == Kind::Party {
        return is_party_visible(alloc, conn, caller, number, at);
    }
    let listed = sight(alloc, conn, caller, kind, at)?;
    Ok((is_listed(listed.as_slice(), number), CachedValue::Nothing))
}

/// Returns the verdict on a conveyancer's view of a unit at a time. The pending mutations decide both the
/// visibility of the unit and the rule that denies it, so they are read once.
fn unit_verdict<S: Alter>(
    alloc: Global,
    conn: &mut Connection<S>,
    caller: Caller,
    unit: u64,
    at: i64,
) -> Result<Verdict, ReadFault>
    requires has_tables { HasRegisterTables S.Store conn.old }
    ensures reads_only { ReadsTables S.Store result
        (ReadsPart (λ r. verdict_given_sight (is_visible_by_pending r caller kinds.Unit unit)
        (has_pending_mutation_on r caller.party unit) caller
        kinds.Unit unit) at) conn.old conn.new }
    ensures autocommit { LeavesAutocommit conn.old conn.new }
{
    let told = read_pending_unit(alloc, conn, caller, unit, at)?;
    let (is_seen, is_named) = told;
    Ok(view_verdict(is_seen, is_named, caller, Kind::Unit, unit))
}

/// Returns the verdict on the view of an object at a time. Also returns the object, if it was read.
pub(crate) fn read_view_verdict<S: Alter>(
    alloc: Global,
    conn: &mut Connection<S>,
    caller: Caller,
    kind: Kind,
    number: u64,
    at: i64,
) -> Result<(Verdict, CachedValue), ReadFault>
    requires open { IsUsable S.Store conn.old }
    requires has_tables { HasRegisterTables S.Store conn.old }
    ensures reads_only { ReadsTables S.Store result
        (IsFactWith (λ r. first_denial (view_rules r caller kind number)) caller kind number at) conn.old
        conn.new }
    ensures autocommit { LeavesAutocommit conn.old conn.new }
{
    soundness_by_number();
    sight_decides_verdicts();
    pending_units_are_visible();
    if is_unit_of_conveyancer(caller.role, kind) {
        let verdict = unit_verdict(alloc, conn, caller, number, at)?;
        return Ok((verdict, CachedValue::Nothing));
    }
    let told = is_visible(alloc, conn, caller, kind, number, at)?;
    let (is_seen, found) = told;
    let verdict = view_verdict(is_seen, false, caller, kind, number);
    Ok((verdict, found))
}
