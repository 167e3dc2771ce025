//! Basic administrative units (LA_BAUnit).

pub mod change_writing;
pub mod reading;
pub mod writing;
