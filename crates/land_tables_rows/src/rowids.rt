//! Checks that the rows of the tables of versions have unique rowids. SQLite ensures this, but the contracts
//! of the `sqlite` crate do not state it.

mod apart;
mod keyed;
mod listing;
pub mod rowids;
