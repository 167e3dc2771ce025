//! The content `subdivision`: a parcel is replaced by its parts.
ghost use Rattle.std.specs.Prelude.{◌≡◌, ◌≤◌, ◌<◌, ◌+◌, ◌^◌, ◌∷◌, ◌++◌, [], length, map as map_list, IfOk};
ghost use Rattle.std.specs.Prelude.{OnOk};
ghost use Rattle.std.specs.Option.{option_map_or};
ghost use Rattle.land_acts.specs.Mutations.Areas.{outlines_at};
ghost use Rattle.land_acts.specs.Mutations.Grounds.{are_same_ground};
ghost use Rattle.land_acts.specs.Mutations.Numbering.{with_numbers_from};
ghost use Rattle.land_acts.specs.Mutations.Planning.{first_refusal_of};
ghost use Rattle.land_acts.specs.Mutations.Subdividing.{all_parts, copies_made, list_entries_of};
ghost use Rattle.land_acts.specs.Mutations.Subdividing.{has_parcel_in};
ghost use Rattle.land_acts.specs.Mutations.Subdividing.{in_unit, origin_of, outlines_of, count_other_parcels};
ghost use Rattle.land_acts.specs.Mutations.Subdividing.{parcels_made, count_staying, subdivision_change};
ghost use Rattle.land_acts.specs.Mutations.Subdividing.{subdivision_count, subdivision_refusals, units_made};
ghost use Rattle.land_acts.specs.Mutations.Subdividing.{would_have_many_parcels};
ghost use Rattle.land_core.specs.Numbers.{last_next};

use crate::mutations::grounds::{are_same_ground, outlines_at, outlines_of_parts};
use crate::mutations::planning::{Slice, runs_out_of_numbers};
use crate::mutations::refusal::Refusal;
use crate::mutations::transfer::is_checked;
use land_core::change::Change;
use land_core::contents::rrr_count;
use land_core::duplicate::Duplicate;
use land_core::kind::Kind;
use land_core::merger::lists_number;
use land_core::parcel::ParcelRecord;
use land_core::rrr::RrrRecord;
use land_core::sequence::Sequence;
use land_core::subdivision::{Part, Subdivision};
use land_core::text::Text;
use land_core::unit::UnitRecord;
use land_shape::Ring;
use std::alloc::{AllocError, Global};

/// Returns the first refusal of a subdivision whose condition holds: 202, 203, 210, 217 or 220. The other
/// error is out of memory.
pub(crate) fn refusal(
    alloc: Global,
    slice: &Slice,
    it: &Subdivision,
    stamp: Option<i64>,
) -> Result<Option<Refusal>, AllocError>
    ensures { IfOk result (λ first. first ≡ first_refusal_of (subdivision_refusals slice.now it.now stamp)) }
{
    let first = if !slice.stands(Kind::Unit, it.unit) {
        Some(Refusal::NoSuchUnit)
    } else if !has_parcel_in(slice, it.unit, it.parcel) {
        Some(Refusal::NoSuchParcel)
    } else if runs_out_of_numbers(slice, count(slice, it)) || would_have_many_parcels(slice, it) {
        Some(Refusal::TooMany)
    } else if stamp.is_none() {
        Some(Refusal::ClockOut)
    } else if !keeps_ground(alloc, slice, it)? {
        Some(Refusal::NotMatched)
    } else {
        None
    };
    Ok(first)
}

/// Returns whether a parcel of this unit exists at a number.
fn has_parcel_in(slice: &Slice, unit: u64, number: u64) -> bool
    ensures { result ≡ has_parcel_in slice.now unit number }
{
    match slice.parcels.get(number) {
        Some(parcel) => parcel.unit == unit,
        None => false,
    }
}

/// Returns whether the parts cover exactly the ground of the parcel. The only error is out of memory.
fn keeps_ground(alloc: Global, slice: &Slice, it: &Subdivision) -> Result<bool, AllocError>
    ensures { IfOk result (λ same. same ≡ are_same_ground (outlines_at slice.now (it.now.parcel ∷ []))
        (outlines_of (all_parts it.now))) }
{
    let old = outlines_at(alloc, slice, &[it.parcel])?;
    let new = outlines_of_parts(alloc, it)?;
    are_same_ground(alloc, old.as_slice(), new.as_slice())
}

/// Returns the number of new objects.
pub(crate) fn count(slice: &Slice, it: &Subdivision) -> u128
    ensures { result ≡ subdivision_count slice.now it.now }
{
    let copies = rrr_count(slice, it.unit) as u128;
    let mut count = 1;
    for part in it.rest.as_slice() {
        count += numbers_for(copies, &part.unit);
    }
    count
}

/// Returns the count of numbers that a part takes: one for its parcel and, with a new unit, one for the unit
/// and one for each copied entry.
fn numbers_for(copies: u128, new_unit: &Option<Text>) -> u128
    requires { copies < 2 ^ 64 }
    ensures { result ≡ option_map_or (λ name. 2 + copies) new_unit.now 1 }
{
    match new_unit {
        Some(_) => 2 + copies,
        None => 1,
    }
}

/// Returns whether the unit would have more than 256 parcels.
fn would_have_many_parcels(slice: &Slice, it: &Subdivision) -> bool
    ensures { result ≡ would_have_many_parcels slice.now it.now }
{
    let standing = count_other_parcels(slice, it.unit, &[it.parcel]) as u128;
    256 < standing + (count_staying(it.rest.as_slice()) as u128 + 1)
}

/// Returns the number of parts that stay in the unit.
fn count_staying(parts: &[Part]) -> usize
    ensures { result ≡ count_staying parts.now }
{
    parts.iter().filter(|part| part.unit.is_none()).count()
}

/// Returns the number of parcels of a unit, except those that end.
pub(crate) fn count_other_parcels(slice: &Slice, unit: u64, ended: &[u64]) -> usize
    ensures { result ≡ count_other_parcels slice.now unit ended.now }
{
    slice
        .parcels
        .iter()
        .filter(|(number, parcel)| parcel.unit == unit && !lists_number(ended, **number))
        .count()
}

/// Returns the change: the parts replace the parcel, in new units with copies of the entries where requested.
/// The only error is out of memory.
pub(crate) fn change(
    alloc: Global,
    slice: &Slice,
    source: u64,
    it: &Subdivision,
) -> Result<Change, AllocError>
    requires { slice.now.next + subdivision_count slice.now it.now ≤ last_next }
    ensures { IfOk result (λ change. change ≡ subdivision_change slice.now source it.now) }
{
    let units = units_made(alloc, slice, it)?;
    let parcels = parcels_made(alloc, slice, source, it)?;
    let rrrs = copies_made(alloc, slice, it)?;
    let ended = Sequence::of_one(alloc, it.parcel)?;
    let mut change = Change::empty(alloc, slice.next + count(slice, it) as u64);
    change.put.units = units;
    change.put.parcels = parcels;
    change.put.rrrs = rrrs;
    change.ended.parcels = ended;
    Ok(change)
}

/// Returns the new units.
fn units_made(
    alloc: Global,
    slice: &Slice,
    it: &Subdivision,
) -> Result<Sequence<(u64, UnitRecord)>, AllocError>
    requires { slice.now.next + subdivision_count slice.now it.now ≤ last_next }
    ensures { IfOk result (λ units. units ≡ units_made (origin_of slice.now 0 it.now) slice.now.next
        (all_parts it.now)) }
{
    let checked = is_checked(slice, it.unit);
    let copies = rrr_count(slice, it.unit) as u128;
    let mut units = Sequence::new(alloc);
    let mut number = slice.next + 1;
    for part in it.rest.as_slice() {
        if let Some(name) = &part.unit {
            let name = name.copy(alloc)?;
            units.push((number, UnitRecord { name, checked }))?;
        }
        number += numbers_for(copies, &part.unit) as u64;
    }
    Ok(units)
}

/// Returns the parts as parcels, each in its unit.
fn parcels_made(
    alloc: Global,
    slice: &Slice,
    source: u64,
    it: &Subdivision,
) -> Result<Sequence<(u64, ParcelRecord)>, AllocError>
    requires { slice.now.next + subdivision_count slice.now it.now ≤ last_next }
    ensures { IfOk result (λ parcels. parcels
        ≡ parcels_made (origin_of slice.now source it.now) slice.now.next (all_parts it.now)) }
{
    let copies = rrr_count(slice, it.unit) as u128;
    let first = parcel_in(alloc, it.unit, source, &it.first.label, &it.first.outline)?;
    let mut parcels = Sequence::of_one(alloc, (slice.next, first))?;
    let mut number = slice.next + 1;
    for part in it.rest.as_slice() {
        let (parcel, unit) = match &part.unit {
            Some(_) => (number + 1, number),
            None => (number, it.unit),
        };
        let record = parcel_in(alloc, unit, source, &part.label, &part.outline)?;
        parcels.push((parcel, record))?;
        number += numbers_for(copies, &part.unit) as u64;
    }
    Ok(parcels)
}

/// Returns a parcel in a unit, with its source.
fn parcel_in(
    alloc: Global,
    unit: u64,
    source: u64,
    label: &Text,
    outline: &Ring,
) -> Result<ParcelRecord, AllocError>
    ensures { IfOk result (λ parcel. parcel
        ≡ record { unit = unit; label = label.now; outline = outline.now; source = source }) }
{
    Ok(ParcelRecord {
        unit,
        label: label.copy(alloc)?,
        outline: Ring::copy(outline)?,
        source,
    })
}

/// Returns the entries of the new units.
fn copies_made(
    alloc: Global,
    slice: &Slice,
    it: &Subdivision,
) -> Result<Sequence<(u64, RrrRecord)>, AllocError>
    requires { slice.now.next + subdivision_count slice.now it.now ≤ last_next }
    ensures { IfOk result (λ copies. copies
        ≡ copies_made (origin_of slice.now 0 it.now) slice.now.next (all_parts it.now)) }
{
    let copies = rrr_count(slice, it.unit) as u128;
    let mut rrrs = Sequence::new(alloc);
    let mut number = slice.next + 1;
    for part in it.rest.as_slice() {
        if part.unit.is_some() {
            push_copies(alloc, &mut rrrs, slice, it.unit, number)?;
        }
        number += numbers_for(copies, &part.unit) as u64;
    }
    Ok(rrrs)
}

/// Appends copies of the entries of a unit for a new unit. Their numbers follow those of the new unit and its
/// parcel.
fn push_copies(
    alloc: Global,
    rrrs: &mut Sequence<(u64, RrrRecord)>,
    slice: &Slice,
    unit: u64,
    new_unit: u64,
) -> Result<(), AllocError>
    requires { new_unit + 2 + length (list_entries_of slice.now unit) ≤ last_next }
    ensures { OnOk result (rrrs.new ≡ rrrs.old
        ++ with_numbers_from (new_unit + 2) (map_list (in_unit new_unit) (list_entries_of slice.now unit))) }
{
    let mut number = new_unit + 2;
    for (_, entry) in slice.rrrs.iter() {
        if entry.unit == unit {
            rrrs.push((number, in_unit(alloc, new_unit, entry)?))?;
            number += 1;
        }
    }
    Ok(())
}

/// Returns a copy of an entry for another unit.
fn in_unit(alloc: Global, unit: u64, entry: &RrrRecord) -> Result<RrrRecord, AllocError>
    ensures { IfOk result (λ copy. copy ≡ in_unit unit entry.now) }
{
    let mut copy = entry.copy(alloc)?;
    copy.unit = unit;
    Ok(copy)
}
