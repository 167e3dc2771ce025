//! Roles of parties.

pub mod change_writing;
pub mod reading;
pub mod writing;
