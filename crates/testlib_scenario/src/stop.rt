//! Why a test stops.
use land_keep::store_fault::StoreFault;
use sqlite::{Error, ErrorCode};
use std::alloc::AllocError;
use std::io;

/// Why a test stops.
#[derive(Clone, Copy)]
pub enum Stop {
    /// Out of memory.
    Memory,
    /// A call failed that must succeed.
    Call,
    /// A check failed: its name, and its place.
    Mismatch(&'static str, usize),
}

impl From<AllocError> for Stop {
    fn from(_error: AllocError) -> Stop {
        Stop::Memory
    }
}

impl From<Error> for Stop {
    fn from(error: Error) -> Stop {
        match error {
            Error::SqliteFailure(ErrorCode::OutOfMemory) => Stop::Memory,
            _ => Stop::Call,
        }
    }
}

impl From<StoreFault> for Stop {
    fn from(fault: StoreFault) -> Stop {
        match fault {
            StoreFault::NoMemory => Stop::Memory,
            _ => Stop::Call,
        }
    }
}

impl From<io::Error> for Stop {
    fn from(error: io::Error) -> Stop {
        match error.kind() {
            io::ErrorKind::OutOfMemory => Stop::Memory,
            _ => Stop::Call,
        }
    }
}

/// Returns an error if a check failed.
pub fn expect(is_well: bool, name: &'static str, place: usize) -> Result<(), Stop> {
    if is_well {
        Ok(())
    } else {
        Err(Stop::Mismatch(name, place))
    }
}
