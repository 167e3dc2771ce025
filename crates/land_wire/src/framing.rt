//! Splits a stream of bytes into items: requests, as RFC 9112 frames them, and framing faults.

pub mod connection;
pub mod frame_fault;
pub mod framing;
pub mod head;
pub mod item;
pub mod laws;
pub mod listing;
pub mod named;
pub mod target;
