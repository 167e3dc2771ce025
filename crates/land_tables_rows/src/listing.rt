//! Reads all rows of all tables as moments and versions.

pub mod fault;
pub mod history;
pub mod listed;
pub mod reading;
mod tables;
