//! Lines between which allocations are counted.
use testlib_scenario::stop::Stop;

/// Prints a line.
pub fn mark(rt: &impl Print, line: &str) -> Result<(), Stop> {
    match println!(rt; "{line}") {
        Ok(()) => Ok(()),
        Err(_) => Err(Stop::Call),
    }
}

/// Prints the line after the last call.
pub fn mark_end(rt: &impl Print) -> Result<(), Stop> {
    mark(rt, "the end")
}
