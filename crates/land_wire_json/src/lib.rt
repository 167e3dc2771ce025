//! The register in JSON: writes the texts of objects and of contents, and reads the bodies of acts.
#![tactic(auto)]

pub mod bodies;
pub mod texts;
