//! The act `revoke`: a role of a party ends.
ghost use Rattle.std.specs.Prelude.{◌≡◌, IfOk};
ghost use Rattle.land_acts.specs.Mutations.Planning.{IsPlanOf, first_refusal_of};
ghost use Rattle.land_acts.specs.Revoking.{revoke_refusals, revoke_change, revoke_done};
ghost use Rattle.land_acts.specs.Revoking.{has_other_administrator};

use crate::mutations::planning::done_on;
use crate::mutations::refusal::Refusal;
use crate::slice::Slice;
use land_core::change::{Change, Done};
use land_core::role::Role;
use land_core::roles::Grant;
use land_core::sequence::Sequence;
use std::alloc::{AllocError, Global};

/// Returns the first refusal of a revocation whose condition holds: 205, 216, 217 or 218.
pub(crate) fn refusal(slice: &Slice, it: &Grant, stamp: Option<i64>) -> Option<Refusal>
    ensures { result ≡ first_refusal_of (revoke_refusals slice.now it.now stamp) }
{
    if !slice.has_single_party(it.party) {
        Some(Refusal::NoSuchParty)
    } else if !slice.holds(it.party, it.role) {
        Some(Refusal::RoleNotHeld)
    } else if stamp.is_none() {
        Some(Refusal::ClockOut)
    } else if it.role == Role::StateAdministrator && !has_other_administrator(slice, it.party) {
        Some(Refusal::LastAdministrator)
    } else {
        None
    }
}

/// Returns whether another party is state administrator.
fn has_other_administrator(slice: &Slice, party: u64) -> bool
    ensures { result ≡ has_other_administrator slice.now party }
{
    slice.roles.iter().any(|grant| grant.role == Role::StateAdministrator && grant.party != party)
}

/// Returns the change, which ends the role, and the receipt.
pub(crate) fn plan_of(
    alloc: Global,
    slice: &Slice,
    it: &Grant,
    stamp: i64,
) -> Result<(Change, Done), AllocError>
    ensures { IfOk result (IsPlanOf (revoke_change slice.now it.now) (revoke_done it.now stamp)) }
{
    let roles = Sequence::of_one(alloc, *it)?;
    let mut change = Change::empty(alloc, slice.next);
    change.ended.roles = roles;
    Ok((change, done_on(alloc, it.party, stamp)))
}
