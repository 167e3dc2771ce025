//! Errors of reading rows.
ghost use Rattle.std.specs.Prelude.{◌≡◌};

use land_wire_json::bodies::wire_fault::WireFault;
use sqlite::{Error, ErrorCode};
use std::alloc::AllocError;

/// Why rows were not read. The store is then unchanged, or closed.
#[derive(Clone, Copy, Debug, PartialEq, Eq)]
pub enum ReadFault {
    /// A value is not a valid value of its field.
    Unreadable,
    /// Out of memory.
    NoMemory,
    /// Another error of the store.
    Store,
}

impl From<AllocError> for ReadFault {
    ghost use Rattle.land_tables_rows.specs.declared.listing.fault.ReadFault.TheVariants.{NoMemory};

    ghost from_gives = { λ _ fault. fault ≡ NoMemory };

    fn from(_error: AllocError) -> ReadFault {
        ReadFault::NoMemory
    }
}

/// Converts an error of the store: out of memory, or another cause.
impl From<Error> for ReadFault {
    ghost use Rattle.land_tables_rows.specs.Listing.Faults.{of_error};

    ghost from_gives = { λ error fault. fault ≡ of_error error };

    fn from(error: Error) -> ReadFault {
        match error {
            Error::SqliteFailure(ErrorCode::OutOfMemory) => ReadFault::NoMemory,
            _ => ReadFault::Store,
        }
    }
}

/// Converts the fault of a value: out of memory, or not a valid value of its field.
impl From<WireFault> for ReadFault {
    ghost use Rattle.land_tables_rows.specs.Listing.Faults.{of_wire};

    ghost from_gives = { λ error fault. fault ≡ of_wire error };

    fn from(error: WireFault) -> ReadFault {
        match error {
            WireFault::NoMemory => ReadFault::NoMemory,
            _ => ReadFault::Unreadable,
        }
    }
}
