//! The content `discharge`: a mortgage ends.
ghost use Rattle.std.specs.Prelude.{◌≡◌, IfOk};
ghost use Rattle.land_acts.specs.Mutations.Discharging.{discharge_change, discharge_refusals};
ghost use Rattle.land_acts.specs.Mutations.Discharging.{is_entry_of_unit};
ghost use Rattle.land_acts.specs.Mutations.Discharging.{is_mortgage_at};
ghost use Rattle.land_acts.specs.Mutations.Planning.{first_refusal_of};

use crate::mutations::planning::Slice;
use crate::mutations::refusal::Refusal;
use land_core::change::Change;
use land_core::content::Discharge;
use land_core::kind::Kind;
use land_core::sequence::Sequence;
use std::alloc::{AllocError, Global};

/// Returns the first refusal of a discharge whose condition holds: 202, 204, 212 or 217.
pub(crate) fn refusal(slice: &Slice, it: &Discharge, stamp: Option<i64>) -> Option<Refusal>
    ensures { result ≡ first_refusal_of (discharge_refusals slice.now it.now stamp) }
{
    if !slice.stands(Kind::Unit, it.unit) {
        Some(Refusal::NoSuchUnit)
    } else if !has_entry_in(slice, it.unit, it.mortgage) {
        Some(Refusal::NoSuchRight)
    } else if !is_mortgage_at(slice, it.mortgage) {
        Some(Refusal::NotMortgage)
    } else if stamp.is_none() {
        Some(Refusal::ClockOut)
    } else {
        None
    }
}

/// Returns whether an entry of this unit exists at a number.
fn has_entry_in(slice: &Slice, unit: u64, number: u64) -> bool
    ensures { result ≡ is_entry_of_unit slice.now unit number }
{
    match slice.rrrs.get(number) {
        Some(entry) => entry.unit == unit,
        None => false,
    }
}

/// Returns whether a mortgage exists at a number.
fn is_mortgage_at(slice: &Slice, number: u64) -> bool
    ensures { result ≡ is_mortgage_at slice.now number }
{
    match slice.rrrs.get(number) {
        Some(entry) => entry.class.rank().is_some(),
        None => false,
    }
}

/// Returns the change, which ends the mortgage.
pub(crate) fn change(alloc: Global, slice: &Slice, it: &Discharge) -> Result<Change, AllocError>
    ensures { IfOk result (λ change. change ≡ discharge_change slice.now it.now) }
{
    let rrrs = Sequence::of_one(alloc, it.mortgage)?;
    let mut change = Change::empty(alloc, slice.next);
    change.ended.rrrs = rrrs;
    Ok(change)
}
