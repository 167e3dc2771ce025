//! The acts: for each, its refusals with their conditions, its change of the register, and its receipt.
#![tactic(auto)]

mod burden;
mod decide;
mod enrol;
mod first_rights;
mod grant;
mod group;
pub mod laws;
mod lift;
mod lodge;
mod mandate;
pub mod mutations;
pub mod plan;
mod register;
mod regroup;
mod revoke;
mod sharing;
pub mod slice;
pub mod slice_parts;
mod withdraw;

pub use crate::mutations::refusal;
