//! The plan of an act: its refusal, or its change and receipt.
ghost use Rattle.std.specs.Prelude.{◌≡◌, ◌≢◌, true, IfOk};
ghost use Rattle.land_acts.specs.Mutations.Planning.{IsPlanOf, first_refusal_of};
ghost use Rattle.land_acts.specs.Outcome.{outcome_of, refusals_of, change_of, done_of, has_room_for};
ghost use Rattle.land_acts.specs.Outcome.{repeat_receipt_of, HasNoRefusal};
ghost use Rattle.land_acts.specs.Slices.{IsSliceOfSound};
ghost use Rattle.land_core.specs.Acts.{is_well_formed};

use crate::mutations::refusal::{Planned, Refusal};
use crate::slice::Slice;
use crate::{
    burden, decide, enrol, grant, group, lift, lodge, mandate, register, regroup, revoke, withdraw,
};
use land_core::act::Act;
use land_core::caller::Caller;
use land_core::change::{Change, Done};
use std::alloc::{AllocError, Global};

/// Plans an act on a slice of a sound register. Returns the first refusal whose condition holds, or else the
/// change and the receipt; a repeated lodging gets its first receipt again. `stamp` is the Unix time of the
/// change in milliseconds. Errors are the refusals 201 to 222, and 501 if out of memory. On any other
/// records, for example those of a corrupted file, it returns as well, and no number overflows: if one is out
/// of range, the act is refused with 210.
pub fn plan(
    alloc: Global,
    slice: &Slice,
    caller: Caller,
    act: &Act,
    stamp: Option<i64>,
) -> Result<Planned, Refusal>
    requires { is_well_formed act.now ≡ true }
    ensures { IsSliceOfSound slice.now caller act.now → result ≢ Err Refusal.NoMemory
        → result ≡ outcome_of slice.now caller act.now stamp }
{
    if let Some(done) = receipt_of_repeat(alloc, slice, caller, act)? {
        return Ok(Planned::Repeat(done));
    }
    if let Some(refusal) = first_refusal(alloc, slice, caller, act, stamp)? {
        return Err(refusal);
    }
    let Some(stamp) = stamp else {
        return Err(Refusal::ClockOut);
    };
    if !has_room(slice, act) {
        return Err(Refusal::TooMany);
    }
    let (change, done) = plan_of(alloc, slice, caller, act, stamp)?;
    Ok(Planned::New(change, done))
}

/// Returns the receipt of an earlier act if this one repeats it.
fn receipt_of_repeat(
    alloc: Global,
    slice: &Slice,
    caller: Caller,
    act: &Act,
) -> Result<Option<Done>, AllocError>
    ensures { IfOk result (λ told. told ≡ repeat_receipt_of slice.now caller act.now) }
{
    match act {
        Act::Lodge(it) => lodge::repeat(alloc, slice, caller, it),
        _ => Ok(None),
    }
}

/// Returns the first refusal whose condition holds.
fn first_refusal(
    alloc: Global,
    slice: &Slice,
    caller: Caller,
    act: &Act,
    stamp: Option<i64>,
) -> Result<Option<Refusal>, AllocError>
    requires { is_well_formed act.now ≡ true }
    ensures { IfOk result (λ first. first ≡ first_refusal_of (refusals_of slice.now caller act.now stamp)) }
{
    match act {
        Act::Enrol(_) => Ok(enrol::refusal(slice, stamp)),
        Act::Group(it) => group::refusal(alloc, slice, it, stamp),
        Act::Regroup(it) => regroup::refusal(alloc, slice, it, stamp),
        Act::Grant(it) => Ok(grant::refusal(slice, it, stamp)),
        Act::Revoke(it) => Ok(revoke::refusal(slice, it, stamp)),
        Act::Mandate(it) => Ok(mandate::refusal(slice, caller, it, stamp)),
        Act::Withdraw(it) => Ok(withdraw::refusal(slice, it, stamp)),
        Act::Register(it) => register::refusal(alloc, slice, it, stamp),
        Act::Burden(it) => Ok(burden::refusal(slice, it, stamp)),
        Act::Lift(it) => Ok(lift::refusal(slice, it, stamp)),
        Act::Lodge(it) => Ok(lodge::refusal(slice, caller, it, stamp)),
        Act::Approve(it) => decide::approve_refusal(alloc, slice, *it, stamp),
        Act::Refuse(it) => Ok(decide::refuse_refusal(slice, *it, stamp)),
    }
}

/// Returns whether the numbers and ranks that an act creates stay in range.
fn has_room(slice: &Slice, act: &Act) -> bool
    ensures { result ≡ has_room_for slice.now act.now }
{
    match act {
        Act::Approve(it) => decide::approve_has_room(slice, *it),
        _ => true,
    }
}

/// Returns the change of an act without refusal, and its receipt.
fn plan_of(
    alloc: Global,
    slice: &Slice,
    caller: Caller,
    act: &Act,
    stamp: i64,
) -> Result<(Change, Done), AllocError>
    requires formed { is_well_formed act.now ≡ true }
    requires room { has_room_for slice.now act.now ≡ true }
    requires unrefused { HasNoRefusal slice.now caller act.now }
    ensures { IfOk result (IsPlanOf (change_of slice.now caller act.now stamp)
        (done_of slice.now caller act.now stamp)) }
{
    match act {
        Act::Enrol(it) => enrol::plan_of(alloc, slice, it, stamp),
        Act::Group(it) => group::plan_of(alloc, slice, it, stamp),
        Act::Regroup(it) => regroup::plan_of(alloc, slice, it, stamp),
        Act::Grant(it) => grant::plan_of(alloc, slice, it, stamp),
        Act::Revoke(it) => revoke::plan_of(alloc, slice, it, stamp),
        Act::Mandate(it) => mandate::plan_of(alloc, slice, caller, it, stamp),
        Act::Withdraw(it) => withdraw::plan_of(alloc, slice, it, stamp),
        Act::Register(it) => register::plan_of(alloc, slice, it, stamp),
        Act::Burden(it) => burden::plan_of(alloc, slice, it, stamp),
        Act::Lift(it) => lift::plan_of(alloc, slice, it, stamp),
        Act::Lodge(it) => lodge::plan_of(alloc, slice, caller, it, stamp),
        Act::Approve(it) => decide::approval_plan(alloc, slice, *it, stamp),
        Act::Refuse(it) => decide::refusal_plan(alloc, slice, *it, stamp),
    }
}
