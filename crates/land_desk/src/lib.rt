//! The HTTP server: parses requests from byte streams, and answers them in order.
#![tactic(auto)]

pub mod handler;
pub mod laws;
pub mod next_item;
pub mod response;
pub mod serve;
pub mod service;
