//! Faults of a keeper's store.
ghost use Rattle.std.specs.Prelude.{◌≡◌};

use std::alloc::AllocError;

/// Errors of a keeper. Nothing has changed.
#[derive(Clone, Copy, Debug, PartialEq, Eq)]
pub enum StoreFault {
    /// 501: out of memory.
    NoMemory,
    /// 502: a store operation failed for another cause; the keeper is closed.
    Store,
    /// 503: the keeper is closed, until its store is opened again.
    Closed,
}

impl StoreFault {
    ghost use Rattle.land_keep.specs.Faults.{store_fault_number};

    /// Returns the number of the error: 501, 502 or 503.
    pub fn number(self) -> u16
        ensures { result ≡ store_fault_number self }
    {
        match self {
            StoreFault::NoMemory => 501,
            StoreFault::Store => 502,
            StoreFault::Closed => 503,
        }
    }
}

impl From<AllocError> for StoreFault {
    ghost use Rattle.land_keep.specs.declared.store_fault.StoreFault.TheVariants.{NoMemory};

    ghost from_gives = { λ _ fault. fault ≡ NoMemory };

    fn from(_error: AllocError) -> StoreFault {
        StoreFault::NoMemory
    }
}
