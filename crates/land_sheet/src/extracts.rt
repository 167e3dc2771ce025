//! Extracts: the objects of a kind that a caller sees, returned row by row, or written as CSV part by part.

pub mod extract;
pub mod fault;
mod list;
mod part;
mod row;
pub mod seen;
