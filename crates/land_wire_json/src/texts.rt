//! Writes objects and contents as JSON.

pub mod fields;
pub mod laws;
pub mod members;
pub mod merger;
pub mod mutation;
pub mod object;
pub mod parcel;
pub mod party;
pub mod rrr;
pub mod source;
pub mod subdivision;
pub mod unit;
