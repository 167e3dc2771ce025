//! The content `mortgage`: a unit becomes the security of a loan.
ghost use Rattle.std.specs.Prelude.{◌≡◌, ◌≤◌, IfOk};
ghost use Rattle.land_acts.specs.Mutations.Mortgaging.{greatest, mortgage_change, mortgage_refusals};
ghost use Rattle.land_acts.specs.Mutations.Mortgaging.{next_rank, rank_in, ranks_in};
ghost use Rattle.land_acts.specs.Mutations.Planning.{would_exceed_entries, first_refusal_of};

use crate::mutations::planning::{Slice, runs_out_of_numbers, would_exceed_entries};
use crate::mutations::refusal::Refusal;
use land_core::change::Change;
use land_core::content::Mortgage;
use land_core::duplicate::Duplicate;
use land_core::kind::Kind;
use land_core::role::Role;
use land_core::rrr::{Class, RrrRecord};
use land_core::sequence::Sequence;
use std::alloc::{AllocError, Global};

/// Returns the first refusal of a mortgage whose condition holds: 202, 205, 210, 211 or 217.
pub(crate) fn refusal(slice: &Slice, it: &Mortgage, stamp: Option<i64>) -> Option<Refusal>
    ensures { result ≡ first_refusal_of (mortgage_refusals slice.now it.now stamp) }
{
    if !slice.stands(Kind::Unit, it.unit) {
        Some(Refusal::NoSuchUnit)
    } else if !slice.stands(Kind::Party, it.creditor) {
        Some(Refusal::NoSuchParty)
    } else if runs_out_of_numbers(slice, 1) || would_exceed_entries(slice, it.unit) {
        Some(Refusal::TooMany)
    } else if !slice.holds(it.creditor, Role::Bank) {
        Some(Refusal::NotBank)
    } else if stamp.is_none() {
        Some(Refusal::ClockOut)
    } else {
        None
    }
}

/// Returns the change, with the mortgage under the next number and with the next rank.
pub(crate) fn change(
    alloc: Global,
    slice: &Slice,
    source: u64,
    it: &Mortgage,
) -> Result<Change, AllocError>
    requires next { slice.now.next ≤ 1_000_000_000 }
    requires rank { next_rank slice.now it.now.unit ≤ 1_000_000_000 }
    ensures { IfOk result (λ change. change ≡ mortgage_change slice.now source it.now) }
{
    let entry = RrrRecord {
        unit: it.unit,
        party: it.creditor,
        class: Class::Mortgage {
            amount: it.amount,
            currency: it.currency.copy(alloc)?,
            rank: greatest_rank(slice, it.unit) + 1,
        },
        source,
    };
    let rrrs = Sequence::of_one(alloc, (slice.next, entry))?;
    let mut change = Change::empty(alloc, slice.next + 1);
    change.put.rrrs = rrrs;
    Ok(change)
}

/// Returns the greatest rank of the mortgages on a unit, or 0 if there are none.
pub(crate) fn greatest_rank(slice: &Slice, unit: u64) -> u64
    ensures { result ≡ greatest (ranks_in slice.now unit) }
{
    let mut greatest = 0;
    for (_, entry) in slice.rrrs.iter() {
        if let Some(rank) = rank_in(unit, entry) {
            if greatest < rank {
                greatest = rank;
            }
        }
    }
    greatest
}

/// Returns the rank of an entry if it is a mortgage on the unit.
fn rank_in(unit: u64, entry: &RrrRecord) -> Option<u64>
    ensures { result ≡ rank_in unit entry.now }
{
    if entry.unit == unit {
        entry.class.rank()
    } else {
        None
    }
}
