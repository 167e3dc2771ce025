//! The policy: 29 numbered rules that determine which requests are allowed, and the objects that a caller
//! sees.
#![tactic(auto)]

mod circles;
pub mod denials;
pub mod laws;
mod relations;
pub mod rules;
pub mod verdict;
