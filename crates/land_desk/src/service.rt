//! Serves TCP connections one at a time, with the system clock.

pub mod callers;
pub mod connections;
pub mod serving;
pub mod system_clock;
pub mod timer;
