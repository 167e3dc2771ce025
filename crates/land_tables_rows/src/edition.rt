//! The edition of the tables.

pub mod reading;
pub mod writing;
