//! Tests of requests and replies: routes, bodies, sheets, requests and replies as bytes, streams,
//! connections. The test cases of the wire and HTTP layers are in `testlib_desk`; those of connections and
//! clocks are here. The crate has nothing else, because a crate with tests is proved twice, and its program
//! is compiled with all its dependencies.
//!
//! A test returns an error only if memory ran out, so it fails unless an allocation failure was injected;
//! each other failure panics. `.ci/oom-tests` runs these tests with each allocation failing in order: a test
//! may then return an error, but must not panic.
#![tactic(auto)]

#[cfg(test)]
mod callers;
#[cfg(test)]
mod clocks;
#[cfg(test)]
mod conclusion;
#[cfg(test)]
mod connections;
#[cfg(test)]
mod desk_rows;
#[cfg(test)]
mod sizes;
#[cfg(test)]
mod wire;
