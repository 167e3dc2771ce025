//! Parcels (LA_SpatialUnit).
use crate::duplicate::Duplicate;
use crate::text::Text;
use land_shape::Ring;
use std::alloc::{AllocError, Global};

/// The record of a parcel, stored by its number.
#[derive(Debug, Drop)]
pub struct ParcelRecord {
    /// The number of its unit.
    pub unit: u64,
    /// The label on the map: 1 to 40 characters.
    pub label: Text,
    /// Its outline, in millimetres.
    pub outline: Ring,
    /// The number of its source.
    pub source: u64,
}

impl Duplicate for Ring {
    fn copy(&self, _alloc: Global) -> Result<Ring, AllocError> {
        Ring::copy(self)
    }
}

impl Duplicate for ParcelRecord {
    fn copy(&self, alloc: Global) -> Result<ParcelRecord, AllocError> {
        Ok(ParcelRecord {
            unit: self.unit,
            label: self.label.copy(alloc)?,
            outline: Ring::copy(&self.outline)?,
            source: self.source,
        })
    }
}

/// A parcel: its record with its number. Its area is that of its outline.
#[derive(Debug, Drop)]
pub struct Parcel {
    /// Its number.
    pub number: u64,
    /// The number of its unit.
    pub unit: u64,
    /// The label on the map.
    pub label: Text,
    /// Its outline, in millimetres.
    pub outline: Ring,
    /// The number of its source.
    pub source: u64,
}

impl Duplicate for Parcel {
    fn copy(&self, alloc: Global) -> Result<Parcel, AllocError> {
        Ok(Parcel {
            number: self.number,
            unit: self.unit,
            label: self.label.copy(alloc)?,
            outline: Ring::copy(&self.outline)?,
            source: self.source,
        })
    }
}
