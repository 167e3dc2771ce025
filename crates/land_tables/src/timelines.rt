//! The timeline that the versions of a history represent.

pub mod laws;
pub mod validation_laws;
pub mod writing_laws;
