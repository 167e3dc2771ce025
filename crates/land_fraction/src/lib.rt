//! Bounded fractions, the shares of rights and of groups: above 0, at most 1, in lowest terms, with a
//! denominator of at most 1_000_000_000. Nothing is rounded, and no function allocates.
#![tactic(auto)]

mod bounded;
mod divisor;
mod fault;
pub mod laws;
mod lists;
mod order;

pub use bounded::Fraction;
pub use fault::FractionFault;
pub use lists::{Whole, common, is_whole};
