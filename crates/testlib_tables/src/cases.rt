//! Stores in memory, the tables of new registers in them, and scenarios that are played on them.

pub mod run_scenario;
pub mod stores;
