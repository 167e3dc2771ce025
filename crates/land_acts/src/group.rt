//! The act `group`: parties become the members of a new group.
ghost use Rattle.std.specs.Prelude.{◌≡◌, ◌≤◌, IfOk};
ghost use Rattle.land_acts.specs.Grouping.{group_refusals, group_change, group_done};
ghost use Rattle.land_acts.specs.Mutations.Planning.{IsPlanOf, first_refusal_of};

use crate::mutations::planning::runs_out_of_numbers;
use crate::mutations::refusal::Refusal;
use crate::sharing::{lists_no_single_party, lists_twice, members_of_list, wholeness};
use crate::slice::Slice;
use land_core::act::NewGroup;
use land_core::change::{Change, Done};
use land_core::duplicate::Duplicate;
use land_core::kind::PartyKind;
use land_core::party::PartyRecord;
use land_core::sequence::Sequence;
use land_fraction::Whole;
use std::alloc::{AllocError, Global};

/// Returns the first refusal of a new group whose condition holds: 205, 207, 210, 213, 217 or 219. The other
/// error is out of memory.
pub(crate) fn refusal(
    alloc: Global,
    slice: &Slice,
    it: &NewGroup,
    stamp: Option<i64>,
) -> Result<Option<Refusal>, AllocError>
    ensures { IfOk result (λ first. first ≡ first_refusal_of (group_refusals slice.now it.now stamp)) }
{
    let members = it.members.as_slice();
    if lists_no_single_party(slice, members) {
        return Ok(Some(Refusal::NoSuchParty));
    }
    let whole = wholeness(alloc, members)?;
    if whole == Whole::TooFine {
        Ok(Some(Refusal::SharesTooFine))
    } else if runs_out_of_numbers(slice, 1) {
        Ok(Some(Refusal::TooMany))
    } else if whole != Whole::Yes {
        Ok(Some(Refusal::SharesNotWhole))
    } else if stamp.is_none() {
        Ok(Some(Refusal::ClockOut))
    } else if lists_twice(members) {
        Ok(Some(Refusal::SameParty))
    } else {
        Ok(None)
    }
}

/// Returns the change, with the group under the next number and its members, and the receipt.
pub(crate) fn plan_of(
    alloc: Global,
    slice: &Slice,
    it: &NewGroup,
    stamp: i64,
) -> Result<(Change, Done), AllocError>
    requires { slice.now.next ≤ 1_000_000_000 }
    ensures { IfOk result (IsPlanOf (group_change slice.now it.now) (group_done slice.now stamp)) }
{
    let number = slice.next;
    let party = PartyRecord {
        kind: PartyKind::Group,
        name: it.name.copy(alloc)?,
    };
    let parties = Sequence::of_one(alloc, (number, party))?;
    let members = members_of_list(alloc, it.members.as_slice())?;
    let members = Sequence::of_one(alloc, (number, members))?;
    let made = Sequence::of_one(alloc, number)?;
    let mut change = Change::empty(alloc, number + 1);
    change.put.parties = parties;
    change.put.members = members;
    Ok((
        change,
        Done {
            number,
            made,
            stamp,
        },
    ))
}
