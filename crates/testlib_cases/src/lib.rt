//! Cases: acts and requests as rows of tests write them; objects and replies in one line each; rows that are
//! run on a new register and compared with their full replies; the steps with which other rows begin; errors
//! of tests. Only for tests: nothing here has a contract.
#![tactic(auto)]

pub mod asked;
pub mod lodged;
pub mod rows;
pub mod steps;
pub mod stop;
pub mod told;
pub mod worlds;
