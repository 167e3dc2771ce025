//! Parties (LA_Party).

pub mod change_writing;
pub mod reading;
pub mod writing;
