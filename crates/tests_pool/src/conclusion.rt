//! The result of a test.
use std::process::Abort;
use std::test::Fail;
use testlib_scenario::stop::Stop;

/// Ends a test: panics if a check failed, and returns an error only if memory ran out.
pub fn conclude(rt: &impl Abort, outcome: Result<(), Stop>) -> Result<(), Fail> {
    match outcome {
        Ok(()) => Ok(()),
        Err(Stop::Memory) => Err("no memory")?,
        Err(Stop::Call) => panic!(rt; "a call failed"),
        Err(Stop::Mismatch(name, place)) => panic!(rt; "{name}: {place}"),
    }
}
