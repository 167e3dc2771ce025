//! The act `enrol`: a party is added to the register.
ghost use Rattle.std.specs.Prelude.{◌≡◌, ◌≤◌, ◌+◌, IfOk};
ghost use Rattle.land_acts.specs.Enrolment.{enrol_refusals, enrol_change, enrol_done};
ghost use Rattle.land_acts.specs.Mutations.Planning.{IsPlanOf, first_refusal_of};

use crate::mutations::planning::runs_out_of_numbers;
use crate::mutations::refusal::Refusal;
use crate::slice::Slice;
use land_core::act::Enrol;
use land_core::change::{Change, Done};
use land_core::duplicate::Duplicate;
use land_core::party::PartyRecord;
use land_core::role::Role;
use land_core::roles::Grant;
use land_core::sequence::Sequence;
use std::alloc::{AllocError, Global};

/// Returns the first refusal of an enrolment whose condition holds: 210 or 217.
pub(crate) fn refusal(slice: &Slice, stamp: Option<i64>) -> Option<Refusal>
    ensures { result ≡ first_refusal_of (enrol_refusals slice.now stamp) }
{
    if runs_out_of_numbers(slice, 1) {
        Some(Refusal::TooMany)
    } else if stamp.is_none() {
        Some(Refusal::ClockOut)
    } else {
        None
    }
}

/// Returns the change, with the party under the next number and its role citizen, and the receipt.
pub(crate) fn plan_of(
    alloc: Global,
    slice: &Slice,
    it: &Enrol,
    stamp: i64,
) -> Result<(Change, Done), AllocError>
    requires { slice.now.next ≤ 1_000_000_000 }
    ensures { IfOk result (IsPlanOf (enrol_change slice.now it.now) (enrol_done slice.now it.now stamp)) }
{
    let number = slice.next;
    let party = PartyRecord {
        kind: it.kind,
        name: it.name.copy(alloc)?,
    };
    let citizen = Grant {
        party: number,
        role: Role::Citizen,
    };
    let parties = Sequence::of_one(alloc, (number, party))?;
    let roles = Sequence::of_one(alloc, citizen)?;
    let made = Sequence::of_one(alloc, number)?;
    let mut change = Change::empty(alloc, number + 1);
    change.put.parties = parties;
    change.put.roles = roles;
    Ok((
        change,
        Done {
            number,
            made,
            stamp,
        },
    ))
}
