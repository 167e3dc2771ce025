//! Runs the commands of the program.
ghost use Rattle.std.specs.Prelude.{◌≡◌, [], string_bytes, IfOk, IfSome};
ghost use Rattle.std.specs.Io.KnownBytes.{Appends};
ghost use Rattle.land_commands.specs.Program.{ReportsServed, RunsCommand, Talks, ReportsDenial, ReportsDone};
ghost use Rattle.land_commands.specs.Program.{ReportsExtracted};
ghost use Rattle.land_commands.specs.Program.{WritesOrFails, files_of};
ghost use Rattle.land_commands.specs.ProgramFaults.{line_of, exit_status};
ghost use Rattle.land_commands.specs.CommandErrors.{denied_text};
ghost use Rattle.land_commands.specs.Words.PlainCommands.{order_of};
ghost use Rattle.land_tables.specs.TablesState.{IsCreated};
ghost use Rattle.sqlite.specs.Steps.{over_memory};

use crate::command_error::CommandError;
use crate::digest_command::digest;
use crate::extract_command::{ExtractRequest, extract};
use crate::file_commands::{check, create_register, serve_register};
use crate::fixed_clock::FixedClock;
use crate::host::Host;
use crate::migrate_command::migrate;
use crate::program_fault::ProgramFault;
use crate::words::command::Command;
use land_desk::serve::{DeskFault, Served, serve};
use land_keep::clock::Clock;
use land_select::sql_keeper::SqlKeeper;
use land_streams::send::send;
use land_tables::tables::Tables;
use sqlite::{Connection, MemStore};
use std::alloc::{AllocError, Global};
use std::io::{Read, Write};

/// Runs a command on these streams and this clock, and returns the exit status.
///
/// Status: 0, or 1 for a fault, which is written to `errors`. `talk` has a clock of its own.
pub fn run_command<H: Host, I: Read, O: Write, E: Write, C: Clock>(
    host: &mut H,
    command: Command<'_>,
    input: &mut I,
    output: &mut O,
    errors: &mut E,
    clock: &mut C,
) -> u8
    ensures { RunsCommand H.Store.Store
        (files_of H.holds H.is_closed H.coming H.ended host.old host.new) C.reads
        (order_of command.entry) (I.remaining input.old) clock.old clock.new
        (O.contents output.old) (O.contents output.new)
        (E.contents errors.old) (E.contents errors.new) result }
{
    match command {
        Command::Talk { clock } => {
            let served = talk(host.alloc(), clock, input, output);
            report_served(errors, served)
        }
        Command::New { file } => report_done(errors, create_register(host, file)),
        Command::Serve {
            file,
            port,
            connections,
            at_once,
        } => {
            let done = serve_register(host, file, port, connections, at_once, clock);
            report_done(errors, done)
        }
        Command::Check { file } => report_done(errors, check(host, file, output)),
        Command::Migrate { file } => report_done(errors, migrate(host, file, output)),
        Command::Extract {
            file,
            clock,
            caller,
            kind,
            at,
        } => {
            let wanted = ExtractRequest {
                clock,
                caller,
                kind,
                at,
            };
            let done = extract(host, file, wanted, output);
            report_extracted(host.alloc(), errors, done)
        }
        Command::Digest { file, at } => report_done(errors, digest(host, file, at, output)),
    }
}

/// Serves the input on a new register, in tables in memory. The clock always reads `reading`, in Unix
/// milliseconds.
fn talk<I: Read, O: Write>(
    alloc: Global,
    reading: i64,
    input: &mut I,
    output: &mut O,
) -> Result<Served, DeskFault>
    ensures { IfSome (I.remaining input.old) (λ bytes. Talks bytes reading
        (O.contents output.old) (O.contents output.new) result) }
{
    let Ok(tables) = new_tables(alloc) else {
        return Err(DeskFault::NoMemory);
    };
    let mut keeper = SqlKeeper::new(tables);
    let mut clock = FixedClock { reading };
    serve(alloc, input, output, &mut keeper, &mut clock)
}

/// Creates the tables of a new register in memory. The error is out of memory.
fn new_tables(alloc: Global) -> Result<Tables<MemStore>, AllocError>
    ensures { IfOk result (IsCreated over_memory) }
{
    let conn = Connection::open_in_memory(alloc)?;
    match Tables::create(conn) {
        Ok(tables) => Ok(tables),
        Err(_) => Err(AllocError),
    }
}

/// Returns the exit status after serving, and writes a fault to `errors`.
fn report_served<E: Write>(errors: &mut E, served: Result<Served, DeskFault>) -> u8
    ensures { ReportsServed served (E.contents errors.old) (E.contents errors.new) result }
{
    match served {
        Ok(_) => 0,
        Err(fault) => report_fault(errors, ProgramFault::from(fault)),
    }
}

/// Returns the exit status after a command on a file, and writes a fault to `errors`.
fn report_done<E: Write>(errors: &mut E, done: Result<(), ProgramFault>) -> u8
    ensures { ReportsDone done (E.contents errors.old) (E.contents errors.new) result }
{
    match done {
        Ok(()) => 0,
        Err(fault) => report_fault(errors, fault),
    }
}

/// Returns the exit status after an extract, and writes a denial or a fault to `errors`.
fn report_extracted<E: Write>(alloc: Global, errors: &mut E, done: Result<(), CommandError>) -> u8
    ensures { ReportsExtracted done (E.contents errors.old) (E.contents errors.new) result }
{
    match done {
        Ok(()) => 0,
        Err(CommandError::Denied(rule)) => report_denial(alloc, errors, rule),
        Err(CommandError::Fault(fault)) => report_fault(errors, fault),
    }
}

/// Writes the rule that denies to `errors`, or 501 if out of memory, and returns the exit status 1.
fn report_denial<E: Write>(alloc: Global, errors: &mut E, rule: u8) -> u8
    ensures { ReportsDenial rule (E.contents errors.old) (E.contents errors.new) result }
{
    match denied_line(alloc, rule) {
        Ok(line) => {
            write_stderr(errors, line.as_str());
            1
        }
        Err(_) => report_fault(errors, ProgramFault::NoMemory),
    }
}

/// Formats the line that reports a denial.
fn denied_line(alloc: Global, rule: u8) -> Result<String, AllocError>
    ensures { IfOk result (λ text. string_bytes text ≡ denied_text rule) }
{
    format!(in alloc; "land: denied {rule}\n")
}

/// Writes a fault to `errors` and returns its exit status.
pub fn report_fault<E: Write>(errors: &mut E, fault: ProgramFault) -> u8
    ensures status { result ≡ exit_status fault }
    ensures said { WritesOrFails (line_of fault) (E.contents errors.old) (E.contents errors.new) }
{
    write_stderr(errors, fault.line());
    fault.status()
}

/// Writes a text, or a prefix of it if the writer fails.
pub fn write_stderr<E: Write>(errors: &mut E, text: &str)
    ensures { WritesOrFails text.now (E.contents errors.old) (E.contents errors.new) }
{
    match send(errors, text.as_bytes()) {
        Ok(()) | Err(_) => {}
    }
}
