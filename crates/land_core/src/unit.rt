//! Basic administrative units (LA_BAUnit).
use crate::duplicate::Duplicate;
use crate::text::Text;
use std::alloc::{AllocError, Global};

/// The record of a unit, stored by its number. Its parcels and its entries are in separate maps.
#[derive(Debug, Drop)]
pub struct UnitRecord {
    /// The name: 1 to 200 characters.
    pub name: Text,
    /// Whether the shares of each type of right must sum to 1.
    pub checked: bool,
}

impl Duplicate for UnitRecord {
    fn copy(&self, alloc: Global) -> Result<UnitRecord, AllocError> {
        Ok(UnitRecord {
            name: self.name.copy(alloc)?,
            checked: self.checked,
        })
    }
}

/// A unit: its record with its number.
#[derive(Debug, Drop)]
pub struct Unit {
    /// Its number.
    pub number: u64,
    /// The name.
    pub name: Text,
    /// Whether the shares of each type of right must sum to 1.
    pub checked: bool,
}

impl Duplicate for Unit {
    fn copy(&self, alloc: Global) -> Result<Unit, AllocError> {
        Ok(Unit {
            number: self.number,
            name: self.name.copy(alloc)?,
            checked: self.checked,
        })
    }
}
