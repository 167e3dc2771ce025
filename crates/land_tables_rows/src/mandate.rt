//! Mandates that parties have given.

pub mod change_writing;
pub mod reading;
pub mod writing;
