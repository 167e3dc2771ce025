//! The digest of a history: SHA-256 of a text with one line per event. The text does not depend on the order
//! of rows.
#![tactic(auto)]

pub mod digest;
mod entries;
pub mod entry;
pub mod exact;
mod fields;
pub mod laws;
mod lines;
pub mod recorded;
mod values;
