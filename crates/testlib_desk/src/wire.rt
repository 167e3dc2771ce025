//! Test cases for routes, texts, bodies and sheets: calls succeed up to their limits, and worked examples.

pub mod bodies;
pub mod contents;
pub mod extracts;
pub mod faults;
mod reading;
pub mod routes;
pub mod sheets;
