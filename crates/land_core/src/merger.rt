//! Mergers: several parcels become one.
ghost use Rattle.std.specs.Prelude.{◌≡◌};
ghost use Rattle.std.specs.List.{list_all};
ghost use Rattle.land_core.specs.Mergers.{are_merged_parcels, are_other_units, are_ascending_numbers};
ghost use Rattle.land_core.specs.Mergers.{is_merger, is_same_merger};
ghost use Rattle.land_core.specs.Mergers.{lists_number, all_above};
ghost use Rattle.land_core.specs.Numbers.{is_number};

use crate::duplicate::Duplicate;
use crate::limits::{is_label, is_number};
use crate::sequence::NumberList;
use crate::text::Text;
use land_shape::Ring;
use std::alloc::{AllocError, Global};

/// Merges parcels of a unit and of other units into one parcel of the unit. The other units end.
#[derive(Debug, Drop)]
pub struct Merger {
    /// The unit's number.
    pub unit: u64,
    /// The numbers of up to 15 other units, which end: strictly ascending, without the unit itself.
    pub others: NumberList,
    /// The numbers of the 2 to 16 parcels that are merged: strictly ascending.
    pub parcels: NumberList,
    /// The label of the new parcel on the map: 1 to 40 characters.
    pub label: Text,
    /// The new parcel's outline, in millimetres.
    pub outline: Ring,
}

impl Merger {
    pub(crate) fn is_well_formed(&self) -> bool
        ensures { result ≡ is_merger self.now }
    {
        is_number(self.unit)
            && are_other_units(self.unit, self.others.as_slice())
            && are_merged_parcels(self.parcels.as_slice())
            && is_label(self.label.as_str())
    }

    pub(crate) fn is_same(&self, other: &Merger) -> bool
        ensures { result ≡ is_same_merger self.now other.now }
    {
        self.unit == other.unit
            && self.others.as_slice() == other.others.as_slice()
            && self.parcels.as_slice() == other.parcels.as_slice()
            && self.label.as_str() == other.label.as_str()
            && self.outline.is_same(&other.outline)
    }
}

/// Checks if a list contains a number.
pub fn lists_number(numbers: &[u64], number: u64) -> bool
    ensures { result ≡ lists_number numbers.now number }
{
    numbers.iter().any(|it| *it == number)
}

/// Checks if these are valid numbers of other units: at most 15, strictly ascending, without the unit itself.
fn are_other_units(unit: u64, others: &[u64]) -> bool
    ensures { result ≡ are_other_units unit others.now }
{
    others.len() <= 15 && are_ascending_numbers(others) && !lists_number(others, unit)
}

/// Checks if these are valid numbers of merged parcels: 2 to 16, strictly ascending.
fn are_merged_parcels(parcels: &[u64]) -> bool
    ensures { result ≡ are_merged_parcels parcels.now }
{
    2 <= parcels.len() && parcels.len() <= 16 && are_ascending_numbers(parcels)
}

/// Checks if these are strictly ascending numbers of objects.
fn are_ascending_numbers(numbers: &[u64]) -> bool
    ensures { result ≡ are_ascending_numbers numbers.now }
{
    all_above(0, numbers) && are_numbers(numbers)
}

/// Checks if the numbers are strictly ascending and the first is above `last`.
pub fn all_above(last: u64, numbers: &[u64]) -> bool
    ensures { result ≡ all_above last numbers.now }
{
    let mut above = last;
    for number in numbers {
        if *number <= above {
            return false;
        }
        above = *number;
    }
    true
}

fn are_numbers(numbers: &[u64]) -> bool
    ensures { result ≡ list_all is_number numbers.now }
{
    numbers.iter().all(|number| is_number(*number))
}

impl Duplicate for Merger {
    fn copy(&self, alloc: Global) -> Result<Merger, AllocError> {
        Ok(Merger {
            unit: self.unit,
            others: self.others.copy(alloc)?,
            parcels: self.parcels.copy(alloc)?,
            label: self.label.copy(alloc)?,
            outline: Ring::copy(&self.outline)?,
        })
    }
}
