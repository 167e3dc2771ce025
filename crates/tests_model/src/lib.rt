//! The tests that need no database: shares, outlines, intervals, records, acts on registers that are built by
//! hand, the policy, and runs of the register machine. The tests of whole registers and of the policy call
//! trials in `testlib_register`. There is no other code here, because a crate with tests is proved twice,
//! and its program is compiled with all its dependencies.
//!
//! The tests check only what no clause states: that calls succeed up to the limits, worked examples with full
//! replies, and the state after an allocation failed. A test returns `Err` only if memory ran out; every
//! other wrong result fails an assertion. So a test succeeds unless an allocation fails. `.ci/oom-tests` runs
//! these tests with each allocation failing in turn: a test may then return `Err`, and no assertion may fail.
#![tactic(auto)]

#[cfg(test)]
mod acts;
#[cfg(test)]
mod alike;
#[cfg(test)]
mod chains;
#[cfg(test)]
mod conclusion;
#[cfg(test)]
mod core_acts;
#[cfg(test)]
mod core_types;
#[cfg(test)]
mod end_of_time;
#[cfg(test)]
mod first_rows;
#[cfg(test)]
mod fraction;
#[cfg(test)]
mod groups_and_roles;
#[cfg(test)]
mod large_unit;
#[cfg(test)]
mod late;
#[cfg(test)]
mod mandates;
#[cfg(test)]
mod memory;
#[cfg(test)]
mod mutations;
#[cfg(test)]
mod parcels;
#[cfg(test)]
mod policy;
#[cfg(test)]
mod registers;
#[cfg(test)]
mod shape;
#[cfg(test)]
mod sweeps;
#[cfg(test)]
mod tilings;
#[cfg(test)]
mod units_and_sight;
