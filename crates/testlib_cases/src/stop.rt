//! Errors of tests.
use land_fraction::FractionFault;
use land_shape::ShapeFault;
use std::alloc::{AllocError, AllocFailed};

/// Errors of tests.
#[derive(Clone, Copy, Debug)]
pub enum Stop {
    /// Out of memory.
    Memory,
    /// A value of a row is invalid: its name.
    Unmade(&'static str),
    /// A result differs from the expected one: its name and its index.
    Mismatch(&'static str, usize),
}

impl From<AllocError> for Stop {
    fn from(_error: AllocError) -> Stop {
        Stop::Memory
    }
}

impl<T: Drop> From<AllocFailed<T>> for Stop {
    fn from(_error: AllocFailed<T>) -> Stop {
        Stop::Memory
    }
}

impl From<FractionFault> for Stop {
    fn from(_fault: FractionFault) -> Stop {
        Stop::Unmade("a share")
    }
}

impl From<ShapeFault> for Stop {
    fn from(fault: ShapeFault) -> Stop {
        match fault {
            ShapeFault::NoMemory => Stop::Memory,
            _ => Stop::Unmade("an outline"),
        }
    }
}

/// Returns an error if the condition is false.
pub fn expect(is_well: bool, name: &'static str, place: usize) -> Result<(), Stop> {
    if is_well {
        Ok(())
    } else {
        Err(Stop::Mismatch(name, place))
    }
}
