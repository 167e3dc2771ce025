//! The act `lift`: a restriction or a responsibility ends.
ghost use Rattle.std.specs.Prelude.{◌≡◌, IfOk};
ghost use Rattle.land_acts.specs.Lifting.{has_burden, is_burden_class, lift_refusals, lift_change, lift_done};
ghost use Rattle.land_acts.specs.Mutations.Planning.{IsPlanOf, first_refusal_of};

use crate::mutations::planning::done_on;
use crate::mutations::refusal::Refusal;
use crate::slice::Slice;
use land_core::act::Lift;
use land_core::change::{Change, Done};
use land_core::rrr::Class;
use land_core::sequence::Sequence;
use std::alloc::{AllocError, Global};

/// Returns the first refusal of a lift whose condition holds: 204 or 217.
pub(crate) fn refusal(slice: &Slice, it: &Lift, stamp: Option<i64>) -> Option<Refusal>
    ensures { result ≡ first_refusal_of (lift_refusals slice.now it.now stamp) }
{
    if !has_burden(slice, it.rrr) {
        Some(Refusal::NoSuchRight)
    } else if stamp.is_none() {
        Some(Refusal::ClockOut)
    } else {
        None
    }
}

/// Returns whether a burden exists at a number.
fn has_burden(slice: &Slice, number: u64) -> bool
    ensures { result ≡ has_burden slice.now number }
{
    match slice.rrrs.get(number) {
        Some(entry) => is_burden(&entry.class),
        None => false,
    }
}

/// Returns whether an entry is a restriction or a responsibility.
fn is_burden(class: &Class) -> bool
    ensures { result ≡ is_burden_class class.now }
{
    match class {
        Class::Restriction { .. } | Class::Responsibility { .. } => true,
        Class::Right { .. } | Class::Mortgage { .. } => false,
    }
}

/// Returns the change, which ends the entry, and the receipt.
pub(crate) fn plan_of(
    alloc: Global,
    slice: &Slice,
    it: &Lift,
    stamp: i64,
) -> Result<(Change, Done), AllocError>
    ensures { IfOk result (IsPlanOf (lift_change slice.now it.now) (lift_done it.now stamp)) }
{
    let rrrs = Sequence::of_one(alloc, it.rrr)?;
    let mut change = Change::empty(alloc, slice.next);
    change.ended.rrrs = rrrs;
    Ok((change, done_on(alloc, it.rrr, stamp)))
}
