//! The cells in which records are written to the register's tables, and how they decode.

pub mod laws;
pub mod texts;
