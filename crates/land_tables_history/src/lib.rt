//! The history of the register: versions of its records, each with its lifespan, and the register at a
//! moment.
#![tactic(auto)]

pub mod group_member;
pub mod groups;
pub mod history;
pub mod intervals;
pub mod keyed;
pub mod laws;
pub mod mandates;
pub mod moment;
pub mod moments;
pub mod naming;
pub mod part;
pub mod register;
pub mod roles;
mod spans;
mod stamps;
pub mod sweeps;
pub mod version;
