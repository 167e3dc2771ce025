//! Subdivisions: a parcel is divided into parts.
ghost use Rattle.std.specs.Prelude.{◌≡◌, IfOk};
ghost use Rattle.land_core.specs.Subdivisions.{are_same_parts, have_names, is_new_name, is_part};
ghost use Rattle.land_core.specs.Subdivisions.{are_further_parts};
ghost use Rattle.land_core.specs.Subdivisions.{is_further_part_count, is_same_name, is_same_parcel};
ghost use Rattle.land_core.specs.Subdivisions.{is_same_part};
ghost use Rattle.land_core.specs.Subdivisions.{is_same_subdivision, is_subdivision};

use crate::act::NewParcel;
use crate::duplicate::Duplicate;
use crate::limits::{is_label, is_name, is_number};
use crate::sequence::Sequence;
use crate::text::Text;
use land_shape::Ring;
use std::alloc::{AllocError, Global};

/// A part of a divided parcel, other than the first.
#[derive(Debug, Drop)]
pub struct Part {
    /// The label on the map: 1 to 40 characters.
    pub label: Text,
    /// Its outline, in millimetres.
    pub outline: Ring,
    /// The name of the new unit of the part: 1 to 200 characters. `None`: the part stays in the unit.
    pub unit: Option<Text>,
}

/// Divides a parcel of a unit into 2 to 16 parts.
#[derive(Debug, Drop)]
pub struct Subdivision {
    /// The unit's number.
    pub unit: u64,
    /// The number of the divided parcel, which ends.
    pub parcel: u64,
    /// The part that stays in the unit.
    pub first: NewParcel,
    /// The other 1 to 15 parts.
    pub rest: Sequence<Part>,
}

impl Subdivision {
    pub(crate) fn is_well_formed(&self) -> bool
        ensures { result ≡ is_subdivision self.now }
    {
        is_number(self.unit)
            && is_number(self.parcel)
            && is_label(self.first.label.as_str())
            && are_further_parts(self.rest.as_slice())
    }

    pub(crate) fn is_same(&self, other: &Subdivision) -> bool
        ensures { result ≡ is_same_subdivision self.now other.now }
    {
        self.unit == other.unit
            && self.parcel == other.parcel
            && is_same_parcel(&self.first, &other.first)
            && are_same_parts(self.rest.as_slice(), other.rest.as_slice())
    }
}

/// Checks if these are valid further parts: 1 to 15.
fn are_further_parts(parts: &[Part]) -> bool
    ensures { result ≡ are_further_parts parts.now }
{
    is_further_part_count(parts.len()) && have_names(parts)
}

fn is_further_part_count(count: usize) -> bool
    ensures { result ≡ is_further_part_count count }
{
    1 <= count && count <= 15
}

fn have_names(parts: &[Part]) -> bool
    ensures { result ≡ have_names parts.now }
{
    parts.iter().all(|part| is_part(part))
}

fn is_part(part: &Part) -> bool
    ensures { result ≡ is_part part.now }
{
    is_label(part.label.as_str()) && is_new_name(&part.unit)
}

/// Checks if the name of the new unit, if any, is valid.
fn is_new_name(name: &Option<Text>) -> bool
    ensures { result ≡ is_new_name name.now }
{
    match name {
        Some(name) => is_name(name.as_str()),
        None => true,
    }
}

fn is_same_parcel(it: &NewParcel, other: &NewParcel) -> bool
    ensures { result ≡ is_same_parcel it.now other.now }
{
    it.label.as_str() == other.label.as_str() && it.outline.is_same(&other.outline)
}

fn are_same_parts(parts: &[Part], others: &[Part]) -> bool
    ensures { result ≡ are_same_parts parts.now others.now }
{
    if parts.len() != others.len() {
        return false;
    }
    for (place, part) in parts.iter().enumerate() {
        if !is_same_part(part, &others[place]) {
            return false;
        }
    }
    true
}

fn is_same_part(it: &Part, other: &Part) -> bool
    ensures { result ≡ is_same_part it.now other.now }
{
    it.label.as_str() == other.label.as_str()
        && it.outline.is_same(&other.outline)
        && is_same_name(&it.unit, &other.unit)
}

fn is_same_name(name: &Option<Text>, other: &Option<Text>) -> bool
    ensures { result ≡ is_same_name name.now other.now }
{
    match (name, other) {
        (Some(name), Some(other)) => name.as_str() == other.as_str(),
        (None, None) => true,
        _ => false,
    }
}

impl Duplicate for NewParcel {
    fn copy(&self, alloc: Global) -> Result<NewParcel, AllocError> {
        Ok(NewParcel {
            label: self.label.copy(alloc)?,
            outline: Ring::copy(&self.outline)?,
        })
    }
}

fn copy_name(name: &Option<Text>, alloc: Global) -> Result<Option<Text>, AllocError>
    ensures { IfOk result (λ it. it ≡ name.now) }
{
    match name {
        Some(name) => Ok(Some(name.copy(alloc)?)),
        None => Ok(None),
    }
}

impl Duplicate for Part {
    fn copy(&self, alloc: Global) -> Result<Part, AllocError> {
        Ok(Part {
            label: self.label.copy(alloc)?,
            outline: Ring::copy(&self.outline)?,
            unit: copy_name(&self.unit, alloc)?,
        })
    }
}

impl Duplicate for Subdivision {
    fn copy(&self, alloc: Global) -> Result<Subdivision, AllocError> {
        Ok(Subdivision {
            unit: self.unit,
            parcel: self.parcel,
            first: self.first.copy(alloc)?,
            rest: self.rest.copy(alloc)?,
        })
    }
}
