//! Serves many connections at once, over one keeper, by one loop.
#![tactic(auto)]

pub mod connection_source;
pub mod open_connection;
pub mod pool;
