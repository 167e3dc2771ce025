//! Test cases of extracts: those of a register after the scenario, in memory and with indexed queries; errors
//! of a writer; and rows that a keeper lends one at a time. If out of memory, the error has the number of
//! bytes written before.

pub mod extract_rows;
pub mod lent_rows;
mod page;
mod texts;
