//! How a test ends.
use std::process::Abort;
use std::test::Fail;
use testlib_scenario::stop::Stop;

/// Ends a test: with a failed assertion if a result is not the expected one, and with an `Err` only if out of
/// memory.
pub fn conclude(rt: &impl Abort, outcome: Result<(), Stop>) -> Result<(), Fail> {
    match outcome {
        Ok(()) => Ok(()),
        Err(Stop::Memory) => Err("no memory")?,
        Err(Stop::Call) => panic!(rt; "a call failed"),
        Err(Stop::Mismatch(name, place)) => panic!(rt; "{name}: {place}"),
    }
}
