//! Links of mutations to units.

pub mod change_writing;
pub mod reading;
pub mod writing;
