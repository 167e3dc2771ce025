//! The content `merger`: parcels become one, and units with the same entries end in another.
ghost use Rattle.std.specs.Prelude.{◌≡◌, ◌≤◌, ◌∷◌, [], not, nat_eq, IfOk};
ghost use Rattle.std.specs.List.{list_all, list_any};
ghost use Rattle.land_acts.specs.Mutations.Areas.{outlines_at};
ghost use Rattle.land_acts.specs.Mutations.Grounds.{are_same_ground};
ghost use Rattle.land_acts.specs.Mutations.Merging.{are_same_entries, entries_of_others, has_unlike};
ghost use Rattle.land_acts.specs.Mutations.Merging.{is_unit_of_merger, is_parcel_named, is_same_class};
ghost use Rattle.land_acts.specs.Mutations.Merging.{is_same_entry};
ghost use Rattle.land_acts.specs.Mutations.Merging.{are_equally_checked, is_unlike, keeps_parcel};
ghost use Rattle.land_acts.specs.Mutations.Merging.{lacks_parcel};
ghost use Rattle.land_acts.specs.Mutations.Merging.{lacks_unit, merger_change, merger_refusals, count_in};
ghost use Rattle.land_acts.specs.Mutations.Merging.{would_have_more_parcels};
ghost use Rattle.land_acts.specs.Mutations.Planning.{first_refusal_of};
ghost use Rattle.land_acts.specs.Mutations.Subdividing.{list_entries_of};
ghost use Rattle.land_core.specs.Contents.{is_same_share};
ghost use Rattle.land_core.specs.Entries.{has};

use crate::mutations::grounds::{are_same_ground, outlines_at};
use crate::mutations::planning::{Slice, runs_out_of_numbers};
use crate::mutations::refusal::Refusal;
use crate::mutations::subdivide::count_other_parcels;
use crate::mutations::transfer::is_checked;
use land_core::change::Change;
use land_core::duplicate::Duplicate;
use land_core::kind::Kind;
use land_core::merger::{Merger, lists_number};
use land_core::parcel::ParcelRecord;
use land_core::rrr::{Class, RrrRecord};
use land_core::sequence::{NumberList, Sequence};
use land_fraction::Fraction;
use land_shape::Ring;
use std::alloc::{AllocError, Global};

/// Returns the first refusal of a merger whose condition holds: 202, 203, 209, 210, 217 or 220. The other
/// error is out of memory.
pub(crate) fn refusal(
    alloc: Global,
    slice: &Slice,
    it: &Merger,
    stamp: Option<i64>,
) -> Result<Option<Refusal>, AllocError>
    ensures { IfOk result (λ first. first ≡ first_refusal_of (merger_refusals slice.now it.now stamp)) }
{
    let first = if lacks_unit(slice, it) {
        Some(Refusal::NoSuchUnit)
    } else if lacks_parcel(slice, it) {
        Some(Refusal::NoSuchParcel)
    } else if has_unlike(slice, it) {
        Some(Refusal::UnitsUnlike)
    } else if runs_out_of_numbers(slice, 1) || would_have_more_parcels(slice, it) {
        Some(Refusal::TooMany)
    } else if stamp.is_none() {
        Some(Refusal::ClockOut)
    } else if !keeps_ground(alloc, slice, it)? {
        Some(Refusal::NotMatched)
    } else {
        None
    };
    Ok(first)
}

/// Returns whether the unit or one of the others does not exist.
fn lacks_unit(slice: &Slice, it: &Merger) -> bool
    ensures { result ≡ lacks_unit slice.now it.now }
{
    !slice.stands(Kind::Unit, it.unit) || lacks_other(slice, it.others.as_slice())
}

/// Returns whether one of these units does not exist.
fn lacks_other(slice: &Slice, others: &[u64]) -> bool
    ensures { result ≡ list_any (λ n. not (has slice.now.units n)) others.now }
{
    others.iter().any(|other| !slice.stands(Kind::Unit, *other))
}

/// Returns whether a listed number is not a parcel of the units of the merger.
fn lacks_parcel(slice: &Slice, it: &Merger) -> bool
    ensures { result ≡ lacks_parcel slice.now it.now }
{
    it.parcels
        .as_slice()
        .iter()
        .any(|number| !is_parcel_named(slice, it, *number))
}

/// Returns whether a parcel of one of the units of the merger exists at a number.
fn is_parcel_named(slice: &Slice, it: &Merger, number: u64) -> bool
    ensures { result ≡ is_parcel_named slice.now it.now number }
{
    match slice.parcels.get(number) {
        Some(parcel) => is_unit_of_merger(it, parcel.unit),
        None => false,
    }
}

/// Returns whether a unit is one of the units of the merger.
fn is_unit_of_merger(it: &Merger, unit: u64) -> bool
    ensures { result ≡ is_unit_of_merger it.now unit }
{
    unit == it.unit || lists_number(it.others.as_slice(), unit)
}

/// Returns whether the new outline covers exactly the ground of the parcels. The only error is out of memory.
fn keeps_ground(alloc: Global, slice: &Slice, it: &Merger) -> Result<bool, AllocError>
    ensures { IfOk result (λ same. same ≡ are_same_ground (outlines_at slice.now it.now.parcels)
        (it.now.outline ∷ [])) }
{
    let old = outlines_at(alloc, slice, it.parcels.as_slice())?;
    let new = Sequence::of_one(alloc, Ring::copy(&it.outline)?)?;
    are_same_ground(alloc, old.as_slice(), new.as_slice())
}

/// Returns whether one of the other units cannot be merged with the unit.
fn has_unlike(slice: &Slice, it: &Merger) -> bool
    ensures { result ≡ has_unlike slice.now it.now }
{
    it.others
        .as_slice()
        .iter()
        .any(|other| is_unlike(slice, it, *other))
}

/// Returns whether another unit cannot be merged with the unit: a parcel of it is not listed, only one of the
/// two is checked, or their entries differ.
fn is_unlike(slice: &Slice, it: &Merger, other: u64) -> bool
    ensures { result ≡ is_unlike slice.now it.now other }
{
    keeps_parcel(slice, it, other)
        || !are_equally_checked(is_checked(slice, other), is_checked(slice, it.unit))
        || !are_same_entries(slice, other, it.unit)
}

/// Returns whether a parcel of the unit is not listed.
fn keeps_parcel(slice: &Slice, it: &Merger, unit: u64) -> bool
    ensures { result ≡ keeps_parcel slice.now it.now unit }
{
    0 < count_other_parcels(slice, unit, it.parcels.as_slice())
}

/// Returns whether two units are both checked or both not.
fn are_equally_checked(checked: bool, other: bool) -> bool
    ensures { result ≡ are_equally_checked checked other }
{
    checked == other
}

/// Returns whether two units have the same entries, each the same number of times.
fn are_same_entries(slice: &Slice, unit: u64, other: u64) -> bool
    ensures { result ≡ are_same_entries (list_entries_of slice.now unit) (list_entries_of slice.now other) }
{
    occur_equally_often(slice, unit, unit, other) && occur_equally_often(slice, other, unit, other)
}

/// Returns whether each entry of the unit `listed` occurs the same number of times in `unit` and in `other`.
fn occur_equally_often(slice: &Slice, listed: u64, unit: u64, other: u64) -> bool
    ensures { result ≡ list_all (λ e. nat_eq (count_in (list_entries_of slice.now unit) e)
        (count_in (list_entries_of slice.now other) e)) (list_entries_of slice.now listed) }
{
    slice
        .rrrs
        .iter()
        .filter(|(_, entry)| entry.unit == listed)
        .all(|(_, entry)| count_in(slice, unit, entry) == count_in(slice, other, entry))
}

/// Returns the number of times that an entry occurs in a unit.
fn count_in(slice: &Slice, unit: u64, it: &RrrRecord) -> usize
    ensures { result ≡ count_in (list_entries_of slice.now unit) it.now }
{
    slice
        .rrrs
        .iter()
        .filter(|(_, entry)| entry.unit == unit && is_same_entry(it, entry))
        .count()
}

/// Returns whether two entries are equal, except for number, unit and source.
fn is_same_entry(it: &RrrRecord, other: &RrrRecord) -> bool
    ensures { result ≡ is_same_entry it.now other.now }
{
    it.party == other.party && is_same_class(&it.class, &other.class)
}

fn is_same_class(class: &Class, other: &Class) -> bool
    ensures { result ≡ is_same_class class.now other.now }
{
    match (class, other) {
        (
            Class::Right { right_type, share },
            Class::Right {
                right_type: other,
                share: part,
            },
        ) => right_type.is(*other) && is_same_share(*share, *part),
        (Class::Restriction { words }, Class::Restriction { words: other }) => {
            words.as_str() == other.as_str()
        }
        (Class::Responsibility { words }, Class::Responsibility { words: other }) => {
            words.as_str() == other.as_str()
        }
        (
            Class::Mortgage {
                amount,
                currency,
                rank,
            },
            Class::Mortgage {
                amount: sum,
                currency: coin,
                rank: place,
            },
        ) => amount == sum && currency.as_str() == coin.as_str() && rank == place,
        _ => false,
    }
}

/// Returns whether two shares are equal. Shares are in lowest terms.
fn is_same_share(share: Fraction, other: Fraction) -> bool
    ensures { result ≡ is_same_share share other }
{
    share.numerator() == other.numerator() && share.denominator() == other.denominator()
}

/// Returns whether the unit would have more than 256 parcels.
fn would_have_more_parcels(slice: &Slice, it: &Merger) -> bool
    ensures { result ≡ would_have_more_parcels slice.now it.now }
{
    256 <= count_other_parcels(slice, it.unit, it.parcels.as_slice())
}

/// Returns the change: the new parcel replaces the listed ones, and the other units end with their entries.
/// The only error is out of memory.
pub(crate) fn change(
    alloc: Global,
    slice: &Slice,
    source: u64,
    it: &Merger,
) -> Result<Change, AllocError>
    requires { slice.now.next ≤ 1_000_000_000 }
    ensures { IfOk result (λ change. change ≡ merger_change slice.now source it.now) }
{
    let parcel = ParcelRecord {
        unit: it.unit,
        label: it.label.copy(alloc)?,
        outline: Ring::copy(&it.outline)?,
        source,
    };
    let parcels = Sequence::of_one(alloc, (slice.next, parcel))?;
    let ended_units = it.others.copy(alloc)?;
    let ended_parcels = it.parcels.copy(alloc)?;
    let ended_rrrs = entries_of_others(alloc, slice, it)?;
    let mut change = Change::empty(alloc, slice.next + 1);
    change.put.parcels = parcels;
    change.ended.units = ended_units;
    change.ended.parcels = ended_parcels;
    change.ended.rrrs = ended_rrrs;
    Ok(change)
}

/// Returns the numbers of the entries of the other units.
fn entries_of_others(alloc: Global, slice: &Slice, it: &Merger) -> Result<NumberList, AllocError>
    ensures { IfOk result (λ ended. ended ≡ entries_of_others slice.now it.now) }
{
    let mut ended = Sequence::new(alloc);
    for (number, entry) in slice.rrrs.iter() {
        if lists_number(it.others.as_slice(), entry.unit) {
            ended.push(*number)?;
        }
    }
    Ok(ended)
}
