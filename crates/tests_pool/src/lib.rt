//! Tests of connections that are open at the same time: from scripts, with known input and chosen failures,
//! and over sockets of this process.
//!
//! A test returns an error only if memory ran out, so it fails unless an allocation failure was injected;
//! each other failure panics. `.ci/oom-tests` runs these tests with each allocation failing in order: a test
//! may then return an error, but must not panic.
#![tactic(auto)]

#[cfg(test)]
mod conclusion;
#[cfg(test)]
mod connections;
#[cfg(test)]
mod hostile;
#[cfg(test)]
mod known;
#[cfg(test)]
mod one_run;
#[cfg(test)]
mod orders;
#[cfg(test)]
mod requests;
#[cfg(test)]
mod scripts;
#[cfg(test)]
mod sizes;
#[cfg(test)]
mod sockets;
