//! Reads requests, and writes the texts of replies.
#![tactic(auto)]

pub mod act;
pub mod fields;
pub mod framing;
pub mod laws;
pub mod numbers;
pub mod query;
pub mod reading;
pub mod routes;
pub mod text;
pub mod words;
