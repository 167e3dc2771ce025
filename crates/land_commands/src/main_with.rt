//! Runs the command that the arguments name.
ghost use Rattle.std.specs.Prelude.{map, string_bytes};
ghost use Rattle.land_commands.specs.Program.{RunsArguments, files_of};

use crate::host::Host;
use crate::program_fault::ProgramFault;
use crate::run::{report_fault, run_command, write_stderr};
use crate::words::read_words;
use crate::words::words_fault::WordsFault;
use land_keep::clock::Clock;
use std::io::{Read, Write};

/// Runs the command that the arguments name, on these streams and this clock, and returns the exit status.
///
/// The first argument is the name of the program. Status: 0; 1 for a fault, which is written to `errors`; 2
/// if `clap` rejects the arguments, with its message on `errors`.
pub fn run_args<H: Host, I: Read, O: Write, E: Write, C: Clock>(
    host: &mut H,
    words: &[String],
    input: &mut I,
    output: &mut O,
    errors: &mut E,
    clock: &mut C,
) -> u8
    ensures { RunsArguments H.Store.Store
        (files_of H.holds H.is_closed H.coming H.ended host.old host.new) C.reads
        (map string_bytes words.now) (I.remaining input.old) clock.old clock.new
        (O.contents output.old) (O.contents output.new)
        (E.contents errors.old) (E.contents errors.new) result }
{
    match read_words(host.alloc(), words) {
        Ok(command) => run_command(host, command, input, output, errors, clock),
        Err(WordsFault::Refused(text)) => {
            write_stderr(errors, text.as_str());
            2
        }
        Err(WordsFault::NoMemory) => report_fault(errors, ProgramFault::NoMemory),
    }
}
