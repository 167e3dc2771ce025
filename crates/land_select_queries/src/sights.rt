//! The objects that a caller sees, as selections from the versions of the register's records.

pub mod laws;
pub mod selection;
pub mod sight;
