//! The errors of an extract.
ghost use Rattle.std.specs.Prelude.{◌≡◌};

use land_keep::store_fault::StoreFault;
use std::alloc::AllocError;

/// The reason that an extract was not written, or not completely. The register is unchanged.
#[derive(Clone, Copy, Debug, PartialEq, Eq)]
pub enum ExtractFault {
    /// The policy denies the list: the number of the first rule that does. Nothing was written.
    Denied(u8),
    /// 135: the moment is in the future. Nothing was written.
    Fault(u16),
    /// The writer failed, or accepted 0 bytes, or the count of bytes would exceed 64 bits.
    Write {
        /// The number of bytes written.
        written: u64,
    },
    /// The store failed, or out of memory.
    Store {
        /// The store's error.
        fault: StoreFault,
        /// The number of bytes written.
        written: u64,
    },
}

/// The store failed before anything was written.
impl From<StoreFault> for ExtractFault {
    ghost use Rattle.land_sheet.specs.declared.extracts.fault.ExtractFault.TheVariants.{Store};

    ghost from_gives = { λ fault it. it ≡ Store fault 0 };

    fn from(fault: StoreFault) -> ExtractFault {
        ExtractFault::Store { fault, written: 0 }
    }
}

/// Memory ran out before anything was written.
impl From<AllocError> for ExtractFault {
    ghost use Rattle.land_keep.specs.declared.store_fault.StoreFault.TheVariants.{NoMemory};
    ghost use Rattle.land_sheet.specs.declared.extracts.fault.ExtractFault.TheVariants.{Store};

    ghost from_gives = { λ _ it. it ≡ Store NoMemory 0 };

    fn from(_error: AllocError) -> ExtractFault {
        ExtractFault::Store {
            fault: StoreFault::NoMemory,
            written: 0,
        }
    }
}
