//! Moments at which the register changed.

pub mod reading;
pub mod writing;
