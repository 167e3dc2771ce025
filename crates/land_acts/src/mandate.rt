//! The act `mandate`: the caller lets another party see what it sees.
ghost use Rattle.std.specs.Prelude.{◌≡◌, IfOk};
ghost use Rattle.land_acts.specs.Mandating.{mandate_of_caller, mandate_refusals, mandate_change};
ghost use Rattle.land_acts.specs.Mandating.{mandate_done};
ghost use Rattle.land_acts.specs.Mutations.Planning.{IsPlanOf, first_refusal_of};

use crate::mutations::planning::done_on;
use crate::mutations::refusal::Refusal;
use crate::slice::Slice;
use land_core::act::NewMandate;
use land_core::caller::Caller;
use land_core::change::{Change, Done};
use land_core::mandates::Mandate;
use land_core::sequence::Sequence;
use std::alloc::{AllocError, Global};

/// Returns the first refusal of a mandate whose condition holds: 205, 217, 219 or 221.
pub(crate) fn refusal(
    slice: &Slice,
    caller: Caller,
    it: &NewMandate,
    stamp: Option<i64>,
) -> Option<Refusal>
    ensures { result ≡ first_refusal_of (mandate_refusals slice.now caller it.now stamp) }
{
    if !slice.has_single_party(it.agent) {
        Some(Refusal::NoSuchParty)
    } else if stamp.is_none() {
        Some(Refusal::ClockOut)
    } else if it.agent == caller.party {
        Some(Refusal::SameParty)
    } else if slice.mandates.contains(mandate_of_caller(caller, it)) {
        Some(Refusal::MandateHeld)
    } else {
        None
    }
}

/// Returns the mandate from the caller to the agent.
pub(crate) fn mandate_of_caller(caller: Caller, it: &NewMandate) -> Mandate
    ensures { result ≡ mandate_of_caller caller it.now }
{
    Mandate {
        principal: caller.party,
        agent: it.agent,
    }
}

/// Returns the change, which starts the mandate, and the receipt.
pub(crate) fn plan_of(
    alloc: Global,
    slice: &Slice,
    caller: Caller,
    it: &NewMandate,
    stamp: i64,
) -> Result<(Change, Done), AllocError>
    ensures { IfOk result (IsPlanOf (mandate_change slice.now caller it.now) (mandate_done it.now stamp)) }
{
    let mandates = Sequence::of_one(alloc, mandate_of_caller(caller, it))?;
    let mut change = Change::empty(alloc, slice.next);
    change.put.mandates = mandates;
    Ok((change, done_on(alloc, it.agent, stamp)))
}
