//! Decodes the rows of the register's tables: records with their lifespans, or the fault of the first value
//! that is not valid for its field. The faults are those of the same field in a request (`WireFault`); NULL
//! and values of another type are fault 131.

pub mod cells;
pub mod from_row;
pub mod words;
