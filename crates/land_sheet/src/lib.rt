//! Writes title sheets of units, and the rows of extracts.
#![tactic(auto)]

pub mod areas;
pub mod dates;
pub mod extracts;
pub mod laws;
pub mod rows;
pub mod sheet;
mod words;
