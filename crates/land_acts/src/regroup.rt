//! The act `regroup`: a group gets other members.
ghost use Rattle.std.specs.Prelude.{◌≡◌, IfOk};
ghost use Rattle.land_acts.specs.Mutations.Planning.{IsPlanOf, first_refusal_of};
ghost use Rattle.land_acts.specs.Regrouping.{regroup_refusals, regroup_change, regroup_done};

use crate::mutations::planning::done_on;
use crate::mutations::refusal::Refusal;
use crate::sharing::{lists_no_single_party, lists_twice, members_of_list, wholeness};
use crate::slice::Slice;
use land_core::act::Regroup;
use land_core::change::{Change, Done};
use land_core::sequence::Sequence;
use land_fraction::Whole;
use std::alloc::{AllocError, Global};

/// Returns the first refusal of a regrouping whose condition holds: 205, 207, 213, 217 or 219. The other
/// error is out of memory.
pub(crate) fn refusal(
    alloc: Global,
    slice: &Slice,
    it: &Regroup,
    stamp: Option<i64>,
) -> Result<Option<Refusal>, AllocError>
    ensures { IfOk result (λ first. first ≡ first_refusal_of (regroup_refusals slice.now it.now stamp)) }
{
    let members = it.members.as_slice();
    if !slice.has_group(it.group) || lists_no_single_party(slice, members) {
        return Ok(Some(Refusal::NoSuchParty));
    }
    let whole = wholeness(alloc, members)?;
    if whole == Whole::TooFine {
        Ok(Some(Refusal::SharesTooFine))
    } else if whole != Whole::Yes {
        Ok(Some(Refusal::SharesNotWhole))
    } else if stamp.is_none() {
        Ok(Some(Refusal::ClockOut))
    } else if lists_twice(members) {
        Ok(Some(Refusal::SameParty))
    } else {
        Ok(None)
    }
}

/// Returns the change, which replaces the members of the group, and the receipt.
pub(crate) fn plan_of(
    alloc: Global,
    slice: &Slice,
    it: &Regroup,
    stamp: i64,
) -> Result<(Change, Done), AllocError>
    ensures { IfOk result (IsPlanOf (regroup_change slice.now it.now) (regroup_done it.now stamp)) }
{
    let members = members_of_list(alloc, it.members.as_slice())?;
    let members = Sequence::of_one(alloc, (it.group, members))?;
    let mut change = Change::empty(alloc, slice.next);
    change.put.members = members;
    Ok((change, done_on(alloc, it.group, stamp)))
}
