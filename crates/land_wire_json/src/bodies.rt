//! Reads the bodies of acts, and the contents of mutations.

pub mod content;
pub mod content_kind;
pub mod decimals;
pub mod fields;
pub mod laws;
pub mod lodging;
pub mod merger;
pub mod outline;
pub mod party;
pub mod share;
pub mod stored;
pub mod subdivision;
pub mod unit;
pub mod wire_fault;
pub mod words;
