//! Faults of the program.
ghost use Rattle.std.specs.Prelude.{◌≡◌};
ghost use Rattle.std.specs.IoError.{error_kind};
ghost use Rattle.land_commands.specs.ProgramFaults.{fault_of, fault_of_adopting, fault_of_creating};
ghost use Rattle.land_commands.specs.ProgramFaults.{fault_of_pool, fault_of_service};
ghost use Rattle.land_commands.specs.ProgramFaults.{IsFaultOfWords, line_of, exit_status};

use land_desk::serve::DeskFault;
use land_desk::service::serving::ServiceFault;
use land_keep::store_fault::StoreFault;
use land_pool::pool::PoolFault;
use land_tables::fault::AdoptFault;
use std::alloc::AllocError;
use std::io;

/// Why the program exits without success.
#[derive(Clone, Copy, Debug, PartialEq, Eq)]
pub enum ProgramFault {
    /// An argument is not valid UTF-8.
    Words,
    /// A read, a write or accepting a connection failed.
    Stream,
    /// 501: out of memory.
    NoMemory,
    /// A file cannot be opened.
    Open,
    /// Listening on a port failed.
    Listen,
    /// 135: the requested time is in the future.
    FutureMoment,
    /// 502: a store operation failed, or the file for a new register has tables already.
    Closed,
    /// 520: the file does not have the tables of a register, or has a value that is not valid for its field.
    NotOurs,
    /// 521: the validity intervals of its rows contradict each other.
    Interval,
    /// 522: the register at some stamp is not sound.
    Unsound,
    /// 523: its tables have another schema version.
    Version,
}

impl ProgramFault {
    /// Returns the exit status: 2 for the arguments, 1 for any other fault.
    pub fn status(self) -> u8
        ensures { result ≡ exit_status self }
    {
        match self {
            ProgramFault::Words => 2,
            ProgramFault::Stream | ProgramFault::NoMemory | ProgramFault::Open => 1,
            ProgramFault::Listen | ProgramFault::FutureMoment => 1,
            ProgramFault::Closed | ProgramFault::NotOurs => 1,
            ProgramFault::Interval | ProgramFault::Unsound | ProgramFault::Version => 1,
        }
    }

    /// Returns the line for standard error.
    pub fn line(self) -> &'static str
        ensures { result.now ≡ line_of self }
    {
        match self {
            ProgramFault::Words => "land: a word of the command line is no text\n",
            ProgramFault::Stream => "land: input or output failed\n",
            ProgramFault::NoMemory => "land: fault 501\n",
            ProgramFault::Open => "land: cannot open\n",
            ProgramFault::Listen => "land: cannot listen\n",
            ProgramFault::FutureMoment => "land: fault 135\n",
            ProgramFault::Closed => "land: fault 502\n",
            ProgramFault::NotOurs => "land: fault 520\n",
            ProgramFault::Interval => "land: fault 521\n",
            ProgramFault::Unsound => "land: fault 522\n",
            ProgramFault::Version => "land: fault 523\n",
        }
    }
}

impl From<DeskFault> for ProgramFault {
    ghost from_gives = { λ from to. to ≡ fault_of from };

    fn from(fault: DeskFault) -> ProgramFault {
        match fault {
            DeskFault::Read | DeskFault::Write => ProgramFault::Stream,
            DeskFault::NoMemory => ProgramFault::NoMemory,
        }
    }
}

/// From a store in which no register could be created.
impl From<StoreFault> for ProgramFault {
    ghost from_gives = { λ from to. to ≡ fault_of_creating from };

    fn from(fault: StoreFault) -> ProgramFault {
        match fault {
            StoreFault::NoMemory => ProgramFault::NoMemory,
            StoreFault::Store | StoreFault::Closed => ProgramFault::Closed,
        }
    }
}

/// From a store that is not a valid register.
impl From<AdoptFault> for ProgramFault {
    ghost from_gives = { λ from to. to ≡ fault_of_adopting from };

    fn from(fault: AdoptFault) -> ProgramFault {
        match fault {
            AdoptFault::NotOurs => ProgramFault::NotOurs,
            AdoptFault::Interval => ProgramFault::Interval,
            AdoptFault::Unsound => ProgramFault::Unsound,
            AdoptFault::Version => ProgramFault::Version,
            AdoptFault::NoMemory => ProgramFault::NoMemory,
            AdoptFault::Store => ProgramFault::Closed,
        }
    }
}

/// From a service that ended early.
impl From<ServiceFault> for ProgramFault {
    ghost from_gives = { λ from to. to ≡ fault_of_service from };

    fn from(fault: ServiceFault) -> ProgramFault {
        match fault {
            ServiceFault::Closed => ProgramFault::Closed,
            ServiceFault::Accept => ProgramFault::Stream,
        }
    }
}

/// From a service of several connections at the same time that ended early.
impl From<PoolFault> for ProgramFault {
    ghost from_gives = { λ from to. to ≡ fault_of_pool from };

    fn from(fault: PoolFault) -> ProgramFault {
        match fault {
            PoolFault::Closed => ProgramFault::Closed,
            PoolFault::Accept => ProgramFault::Stream,
            PoolFault::NoMemory => ProgramFault::NoMemory,
        }
    }
}

impl From<AllocError> for ProgramFault {
    ghost use Rattle.land_commands.specs.declared.program_fault.ProgramFault.TheVariants.{NoMemory};

    ghost from_gives = { λ _ fault. fault ≡ NoMemory };

    fn from(_error: AllocError) -> ProgramFault {
        ProgramFault::NoMemory
    }
}

/// From reading the arguments, which may not be valid UTF-8.
impl From<io::Error> for ProgramFault {
    ghost from_gives = { λ error fault. IsFaultOfWords (error_kind error) fault };

    fn from(error: io::Error) -> ProgramFault {
        if error.kind() == io::ErrorKind::OutOfMemory {
            ProgramFault::NoMemory
        } else {
            ProgramFault::Words
        }
    }
}
