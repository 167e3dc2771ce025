//! Reads the part of a register that planning an act needs.

mod gathers;
mod mutations;
mod named;
mod pairs;
mod parties_and_roles;
pub mod slice;
mod sources;
mod units_and_entries;
