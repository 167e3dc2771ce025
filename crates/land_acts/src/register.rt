//! The act `register`: a unit is added with its first parcels and rights.
ghost use Rattle.std.specs.Prelude.{◌≡◌, ◌≤◌, ◌+◌, true, length, map as map_list, IfOk};
ghost use Rattle.land_acts.specs.Mutations.Numbering.{with_numbers_from, numbers_from};
ghost use Rattle.land_acts.specs.Mutations.Planning.{IsPlanOf, first_refusal_of};
ghost use Rattle.land_acts.specs.Registering.{new_count, new_parcel_record, register_refusals};
ghost use Rattle.land_acts.specs.Registering.{register_change};
ghost use Rattle.land_acts.specs.Registering.{register_done, new_right_record};
ghost use Rattle.land_core.specs.Acts.{is_new_unit};
ghost use Rattle.land_core.specs.Numbers.{last_next};

use crate::first_rights::{
    are_types_too_fine, are_types_whole, has_right_twice, lists_absent_party,
};
use crate::mutations::planning::{document_source, numbers_from, runs_out_of_numbers};
use crate::mutations::refusal::Refusal;
use crate::slice::Slice;
use land_core::act::{NewParcel, NewRight, NewUnit};
use land_core::change::{Change, Done};
use land_core::duplicate::Duplicate;
use land_core::parcel::ParcelRecord;
use land_core::rrr::{Class, RrrRecord};
use land_core::sequence::Sequence;
use land_core::source::SourceKind;
use land_core::unit::UnitRecord;
use land_shape::Ring;
use std::alloc::{AllocError, Global};

/// Returns the first refusal of a registration whose condition holds: 205, 207, 210, 213, 217 or 219. The
/// other error is out of memory.
pub(crate) fn refusal(
    alloc: Global,
    slice: &Slice,
    it: &NewUnit,
    stamp: Option<i64>,
) -> Result<Option<Refusal>, AllocError>
    requires { is_new_unit it.now ≡ true }
    ensures { IfOk result (λ first. first ≡ first_refusal_of (register_refusals slice.now it.now stamp)) }
{
    let rights = it.rights.as_slice();
    if lists_absent_party(slice, rights) {
        Ok(Some(Refusal::NoSuchParty))
    } else if it.checked && are_types_too_fine(alloc, rights)? {
        Ok(Some(Refusal::SharesTooFine))
    } else if runs_out_of_numbers(slice, u128::from(new_count(it))) {
        Ok(Some(Refusal::TooMany))
    } else if it.checked && !are_types_whole(alloc, rights)? {
        Ok(Some(Refusal::SharesNotWhole))
    } else if stamp.is_none() {
        Ok(Some(Refusal::ClockOut))
    } else if has_right_twice(rights) {
        Ok(Some(Refusal::SameParty))
    } else {
        Ok(None)
    }
}

/// Returns the number of new objects: the source, the unit, the parcels and the rights.
fn new_count(it: &NewUnit) -> u64
    requires { is_new_unit it.now ≡ true }
    ensures { result ≡ new_count it.now }
{
    2 + it.parcels.as_slice().len() as u64 + it.rights.as_slice().len() as u64
}

/// Returns the change, with the source, the unit, its parcels and its rights under the next numbers, and the
/// receipt.
pub(crate) fn plan_of(
    alloc: Global,
    slice: &Slice,
    it: &NewUnit,
    stamp: i64,
) -> Result<(Change, Done), AllocError>
    requires formed { is_new_unit it.now ≡ true }
    requires room { slice.now.next + new_count it.now ≤ last_next }
    ensures { IfOk result (IsPlanOf (register_change slice.now it.now)
        (register_done slice.now it.now stamp)) }
{
    let source = slice.next;
    let unit = source + 1;
    let count = new_count(it);
    let first_right = source + 2 + it.parcels.as_slice().len() as u64;
    let sources = document_source(alloc, source, SourceKind::Administrative, &it.document)?;
    let record = UnitRecord {
        name: it.name.copy(alloc)?,
        checked: it.checked,
    };
    let units = Sequence::of_one(alloc, (unit, record))?;
    let parcels = numbered_parcels(alloc, it.parcels.as_slice(), unit, source, source + 2)?;
    let rrrs = numbered_rights(alloc, it.rights.as_slice(), unit, source, first_right)?;
    let made = numbers_from(alloc, source, count)?;
    let mut change = Change::empty(alloc, source + count);
    change.put.sources = sources;
    change.put.units = units;
    change.put.parcels = parcels;
    change.put.rrrs = rrrs;
    Ok((
        change,
        Done {
            number: unit,
            made,
            stamp,
        },
    ))
}

/// Returns the records of the parcels, numbered from `first`.
fn numbered_parcels(
    alloc: Global,
    parcels: &[NewParcel],
    unit: u64,
    source: u64,
    first: u64,
) -> Result<Sequence<(u64, ParcelRecord)>, AllocError>
    requires { first + length parcels.now ≤ last_next }
    ensures { IfOk result
        (λ it. it ≡ with_numbers_from first (map_list (new_parcel_record unit source) parcels.now)) }
{
    let mut placed = Sequence::new(alloc);
    let mut number = first;
    for parcel in parcels {
        let record = ParcelRecord {
            unit,
            label: parcel.label.copy(alloc)?,
            outline: Ring::copy(&parcel.outline)?,
            source,
        };
        placed.push((number, record))?;
        number += 1;
    }
    Ok(placed)
}

/// Returns the records of the rights, numbered from `first`.
fn numbered_rights(
    alloc: Global,
    rights: &[NewRight],
    unit: u64,
    source: u64,
    first: u64,
) -> Result<Sequence<(u64, RrrRecord)>, AllocError>
    requires { first + length rights.now ≤ last_next }
    ensures { IfOk result
        (λ it. it ≡ with_numbers_from first (map_list (new_right_record unit source) rights.now)) }
{
    let mut placed = Sequence::new(alloc);
    let mut number = first;
    for right in rights {
        let record = RrrRecord {
            unit,
            party: right.party,
            class: Class::Right {
                right_type: right.right_type,
                share: right.share,
            },
            source,
        };
        placed.push((number, record))?;
        number += 1;
    }
    Ok(placed)
}
