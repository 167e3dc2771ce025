//! Faults of the arguments.
ghost use Rattle.std.specs.Prelude.{◌≡◌};

use std::alloc::AllocError;

/// Why the arguments name no command.
#[derive(Debug, Drop)]
pub enum WordsFault {
    /// `clap` rejects the arguments, or they request help: its text.
    Refused(String),
    /// 501: out of memory.
    NoMemory,
}

impl From<AllocError> for WordsFault {
    ghost use Rattle.land_commands.specs.declared.words.words_fault.WordsFault.TheVariants.{NoMemory};

    ghost from_gives = { λ _ fault. fault ≡ NoMemory };

    fn from(_error: AllocError) -> WordsFault {
        WordsFault::NoMemory
    }
}
