//! The act `grant`: a party gets a role.
ghost use Rattle.std.specs.Prelude.{◌≡◌, IfOk};
ghost use Rattle.land_acts.specs.Granting.{grant_refusals, grant_change, grant_done};
ghost use Rattle.land_acts.specs.Mutations.Planning.{IsPlanOf, first_refusal_of};

use crate::mutations::planning::done_on;
use crate::mutations::refusal::Refusal;
use crate::slice::Slice;
use land_core::change::{Change, Done};
use land_core::roles::Grant;
use land_core::sequence::Sequence;
use std::alloc::{AllocError, Global};

/// Returns the first refusal of a grant whose condition holds: 205, 215 or 217.
pub(crate) fn refusal(slice: &Slice, it: &Grant, stamp: Option<i64>) -> Option<Refusal>
    ensures { result ≡ first_refusal_of (grant_refusals slice.now it.now stamp) }
{
    if !slice.has_single_party(it.party) {
        Some(Refusal::NoSuchParty)
    } else if slice.holds(it.party, it.role) {
        Some(Refusal::RoleHeld)
    } else if stamp.is_none() {
        Some(Refusal::ClockOut)
    } else {
        None
    }
}

/// Returns the change, which starts the role, and the receipt.
pub(crate) fn plan_of(
    alloc: Global,
    slice: &Slice,
    it: &Grant,
    stamp: i64,
) -> Result<(Change, Done), AllocError>
    ensures { IfOk result (IsPlanOf (grant_change slice.now it.now) (grant_done it.now stamp)) }
{
    let roles = Sequence::of_one(alloc, *it)?;
    let mut change = Change::empty(alloc, slice.next);
    change.put.roles = roles;
    Ok((change, done_on(alloc, it.party, stamp)))
}
