//! Errors of opening a store as a register file.
ghost use Rattle.std.specs.Prelude.{◌≡◌};

use land_tables_rows::listing::fault::ReadFault;
use std::alloc::AllocError;

/// Why a store was refused. The store is then unchanged.
#[derive(Clone, Copy, Debug, PartialEq, Eq)]
pub enum AdoptFault {
    /// 520: a table or a column is missing or differs from the register's, there is an additional table, view
    /// or unique index, or a value is not a valid value of its field.
    NotOurs,
    /// 521: two lifespans of one key overlap, an end is not after its beginning, or a beginning or an end is
    /// not a stamp.
    Interval,
    /// 522: the register at some stamp is not sound, there is no stamp, or the next number decreases.
    Unsound,
    /// 523: the tables have another schema version than the required one.
    Version,
    /// 501: out of memory.
    NoMemory,
    /// 502: another error of the store.
    Store,
}

impl AdoptFault {
    ghost use Rattle.land_tables.specs.Faults.{adopt_fault_number};

    /// Returns the number of the error.
    pub fn number(self) -> u16
        ensures { result ≡ adopt_fault_number self }
    {
        match self {
            AdoptFault::NotOurs => 520,
            AdoptFault::Interval => 521,
            AdoptFault::Unsound => 522,
            AdoptFault::Version => 523,
            AdoptFault::NoMemory => 501,
            AdoptFault::Store => 502,
        }
    }
}

impl From<AllocError> for AdoptFault {
    ghost use Rattle.land_tables.specs.declared.fault.AdoptFault.TheVariants.{NoMemory};

    ghost from_gives = { λ _ fault. fault ≡ NoMemory };

    fn from(_error: AllocError) -> AdoptFault {
        AdoptFault::NoMemory
    }
}

/// Converts the fault of a failed read.
impl From<ReadFault> for AdoptFault {
    ghost use Rattle.land_tables.specs.Faults.{of_read};

    ghost from_gives = { λ error fault. fault ≡ of_read error };

    fn from(error: ReadFault) -> AdoptFault {
        match error {
            ReadFault::Unreadable => AdoptFault::NotOurs,
            ReadFault::NoMemory => AdoptFault::NoMemory,
            ReadFault::Store => AdoptFault::Store,
        }
    }
}
