//! Parcels: labels and outlines (LA_SpatialUnit).

pub mod cells;
pub mod change_writing;
pub mod reading;
pub mod writing;
