//! Errors of commands that the policy may deny.
ghost use Rattle.std.specs.Prelude.{◌≡◌};
ghost use Rattle.land_commands.specs.CommandErrors.{command_error_of};

use crate::program_fault::ProgramFault;
use land_sheet::extracts::fault::ExtractFault;

/// Why a command failed that the policy may deny.
#[derive(Clone, Copy, Debug, PartialEq, Eq)]
pub enum CommandError {
    /// The policy denies it: the number of the first rule that does.
    Denied(u8),
    /// A fault of the program.
    Fault(ProgramFault),
}

/// From opening a register.
impl From<ProgramFault> for CommandError {
    ghost use Rattle.land_commands.specs.declared.command_error.CommandError.TheVariants.{Fault};

    ghost from_gives = { λ from to. to ≡ Fault from };

    fn from(fault: ProgramFault) -> CommandError {
        CommandError::Fault(fault)
    }
}

/// From an extract that was not completed.
impl From<ExtractFault> for CommandError {
    ghost from_gives = { λ from to. to ≡ command_error_of from };

    fn from(fault: ExtractFault) -> CommandError {
        match fault {
            ExtractFault::Denied(rule) => CommandError::Denied(rule),
            ExtractFault::Fault(_) => CommandError::Fault(ProgramFault::FutureMoment),
            ExtractFault::Write { written: _ } => CommandError::Fault(ProgramFault::Stream),
            ExtractFault::Store { fault, written: _ } => CommandError::Fault(ProgramFault::from(
                fault,
            )),
        }
    }
}
