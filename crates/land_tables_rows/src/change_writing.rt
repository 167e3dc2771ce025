//! Writes a change to the register's tables, statement by statement.

pub mod all;
pub mod change;
mod kinds;
mod lists;
mod parties_and_roles;
mod sources_and_mutations;
mod units_and_entries;
pub mod versioned;
