//! Test cases for the HTTP layer: requests and replies as bytes, and streams of them.

pub mod exchanges;
pub mod failures;
pub mod last_reads;
pub mod long_requests;
pub mod long_streams;
pub mod mandates;
mod office;
pub mod readings;
pub mod replies;
pub mod streams;
