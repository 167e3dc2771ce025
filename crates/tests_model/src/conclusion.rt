//! The end of a test.
use std::process::Abort;
use std::test::Fail;
use testlib_cases::stop::Stop;

/// Ends a test by the outcome of its trial: fails an assertion if a result is wrong, and returns `Err` only
/// if memory ran out.
pub fn conclude(rt: &impl Abort, outcome: Result<(), Stop>) -> Result<(), Fail> {
    match outcome {
        Ok(()) => Ok(()),
        Err(Stop::Memory) => Err("no memory")?,
        Err(Stop::Unmade(name)) => panic!(rt; "{name} cannot be made"),
        Err(Stop::Mismatch(name, place)) => panic!(rt; "{name}: {place}"),
    }
}
