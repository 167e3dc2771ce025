//! The act `withdraw`: a mandate ends.
ghost use Rattle.std.specs.Prelude.{◌≡◌, IfOk};
ghost use Rattle.land_acts.specs.Mutations.Planning.{IsPlanOf, first_refusal_of};
ghost use Rattle.land_acts.specs.Withdrawing.{withdraw_refusals, withdraw_change, withdraw_done};

use crate::mutations::planning::done_on;
use crate::mutations::refusal::Refusal;
use crate::slice::Slice;
use land_core::change::{Change, Done};
use land_core::mandates::Mandate;
use land_core::sequence::Sequence;
use std::alloc::{AllocError, Global};

/// Returns the first refusal of a withdrawal whose condition holds: 217 or 222.
pub(crate) fn refusal(slice: &Slice, it: &Mandate, stamp: Option<i64>) -> Option<Refusal>
    ensures { result ≡ first_refusal_of (withdraw_refusals slice.now it.now stamp) }
{
    if stamp.is_none() {
        Some(Refusal::ClockOut)
    } else if !slice.mandates.contains(*it) {
        Some(Refusal::NoMandate)
    } else {
        None
    }
}

/// Returns the change, which ends the mandate, and the receipt.
pub(crate) fn plan_of(
    alloc: Global,
    slice: &Slice,
    it: &Mandate,
    stamp: i64,
) -> Result<(Change, Done), AllocError>
    ensures { IfOk result (IsPlanOf (withdraw_change slice.now it.now) (withdraw_done it.now stamp)) }
{
    let mandates = Sequence::of_one(alloc, *it)?;
    let mut change = Change::empty(alloc, slice.next);
    change.ended.mandates = mandates;
    Ok((change, done_on(alloc, it.agent, stamp)))
}
