//! Queries on the tables: the objects that a caller sees, as selections (`sights`) and as SQL statements with
//! their meaning (`joins`); and records by key (`lookups`).
#![tactic(auto)]

pub mod joins;
pub mod lookups;
pub mod sights;
