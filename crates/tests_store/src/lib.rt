//! The tests of everything above the store: its tables, the keepers that use them, extracts, commands and
//! their arguments. Each of them calls a test case in `testlib_store`, `testlib_tables`,
//! `testlib_keepers` or `testlib_stops`; only the arguments are tested here. There is nothing else here,
//! since a crate with tests is proved twice, and its program is compiled with everything below it.
//!
//! If a test runs out of memory, it ends with an `Err`, so that it fails unless an allocation failed on
//! purpose; any other error fails an assertion. `.ci/oom-tests` runs these tests with each allocation failing
//! in turn: a test may then end because it is out of memory, and no assertion may fail.
#![tactic(auto)]

#[cfg(test)]
mod calls_read_less;
#[cfg(test)]
mod commands;
#[cfg(test)]
mod conclusion;
#[cfg(test)]
mod damage;
#[cfg(test)]
mod every_growth;
#[cfg(test)]
mod every_stop;
#[cfg(test)]
mod extracts;
#[cfg(test)]
mod hostile;
#[cfg(test)]
mod joins;
#[cfg(test)]
mod random;
#[cfg(test)]
mod rows;
#[cfg(test)]
mod sights;
#[cfg(test)]
mod sizes;
#[cfg(test)]
mod tables;
#[cfg(test)]
mod texts_read_less;
#[cfg(test)]
mod town;
#[cfg(test)]
mod two_keepers;
#[cfg(test)]
mod versions;
#[cfg(test)]
mod words;
