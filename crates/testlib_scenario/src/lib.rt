//! The scenario: steps from a new register to a garden of which a part has become an orchard, with the
//! expected reply to each, and the expected rows of the tables after it. Tests of several crates run it on a
//! keeper, as a stream of requests, and compare every byte of the replies. For tests only, without contracts.
#![tactic(auto)]

pub mod calls;
pub mod doubles;
pub mod first;
pub mod lines;
pub mod looks;
pub mod mandates;
pub mod run_scenario;
pub mod scenario;
pub mod stop;
pub mod talk;
