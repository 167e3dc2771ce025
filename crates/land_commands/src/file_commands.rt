//! The commands `new`, `check` and `serve`, on files.
ghost use Rattle.std.specs.Prelude.{◌≡◌, string_bytes, IfErr, IfOk, OnOk};
ghost use Rattle.land_commands.specs.Filed.{ChecksRegister, OpensRegister, CreatesRegister};
ghost use Rattle.land_commands.specs.Filed.{ServesFile, ServesRegister, ServesTables};
ghost use Rattle.land_commands.specs.Filed.{check_text};
ghost use Rattle.land_commands.specs.ProgramFaults.{IsFaultOfClosing};

use crate::at_once_command::serve_file_at_once;
use crate::host::Host;
use crate::program_fault::ProgramFault;
use land_desk::service::connections::Connections;
use land_desk::service::serving::{ServiceFault, serve_connections};
use land_keep::clock::Clock;
use land_select::sql_keeper::SqlKeeper;
use land_streams::send::send;
use land_tables::tables::Tables;
use sqlite::{Alter, Connection};
use std::alloc::{AllocError, Global};
use std::io::Write;

/// Creates a new register in a file, and the file if it does not exist. A file that has tables is not
/// changed.
pub fn create_register<H: Host>(host: &mut H, file: &str) -> Result<(), ProgramFault>
    ensures { CreatesRegister H.Store.Store (H.holds file.now) H.is_closed result }
{
    let conn = host.open_or_create(file)?;
    match Tables::create(conn) {
        Ok(tables) => close::<H>(tables.into_connection()),
        Err((_, fault)) => Err(ProgramFault::from(fault)),
    }
}

/// Closes a file. The database file then holds all commits, and its log is empty.
pub(crate) fn close<H: Host>(conn: Connection<H::Store>) -> Result<(), ProgramFault>
    ensures closed { OnOk result (H.is_closed conn) }
    ensures fault { IfErr result IsFaultOfClosing }
{
    let mut left = Some(conn);
    H::close(&mut left)
}

/// Opens the register in a file. Does not change the file.
pub(crate) fn open_register<H: Host>(
    host: &mut H,
    file: &str,
) -> Result<Tables<H::Store>, ProgramFault>
    ensures finding { OpensRegister H.Store.Store (H.holds file.now) result }
    ensures port { H.coming host.new ≡ H.coming host.old }
    ensures ended { H.ended host.new ≡ H.ended host.old }
{
    let conn = host.open_existing(file)?;
    match Tables::adopt(host.alloc(), conn) {
        Ok(tables) => Ok(tables),
        Err((_, refusal)) => Err(ProgramFault::from(refusal)),
    }
}

/// Checks that a file holds a sound register, and writes its last stamp and its next number.
pub fn check<H: Host, O: Write>(
    host: &mut H,
    file: &str,
    output: &mut O,
) -> Result<(), ProgramFault>
    ensures { ChecksRegister H.Store.Store (H.holds file.now)
        (O.contents output.old) (O.contents output.new) result }
{
    let tables = open_register(host, file)?;
    let line = check_line(host.alloc(), tables.last(), tables.next())?;
    match send(output, line.as_bytes()) {
        Ok(()) => Ok(()),
        Err(_) => Err(ProgramFault::Stream),
    }
}

/// Formats the line that reports a sound register.
fn check_line(alloc: Global, last: i64, next: u64) -> Result<String, AllocError>
    ensures { IfOk result (λ text. string_bytes text ≡ check_text last next) }
{
    format!(in alloc; "sound: last {last}, next {next}\n")
}

/// Serves the first `connections` connections to a port on the register in a file: one at a time, or at most
/// `at_once` of them at the same time if that is above 1.
pub fn serve_register<H: Host, C: Clock>(
    host: &mut H,
    file: &str,
    port: u16,
    connections: u32,
    at_once: u16,
    clock: &mut C,
) -> Result<(), ProgramFault>
    ensures { ServesRegister H.Store.Store (H.holds file.now) H.is_closed at_once (record {
      reads = C.reads;
      wanted = connections;
      coming = H.coming host.old port;
      after = H.coming host.new port;
      clock = clock.old;
      clock_after = clock.new;
    }) (record { old = H.ended host.old port; new = H.ended host.new port }) result }
{
    if at_once <= 1 {
        serve_file(host, file, port, connections, clock)
    } else {
        serve_file_at_once(host, file, port, connections, at_once, clock)
    }
}

/// Serves the first `connections` connections to a port, one at a time, on the register in a file.
pub fn serve_file<H: Host, C: Clock>(
    host: &mut H,
    file: &str,
    port: u16,
    connections: u32,
    clock: &mut C,
) -> Result<(), ProgramFault>
    ensures { ServesFile H.Store.Store (H.holds file.now) H.is_closed (record {
      reads = C.reads;
      wanted = connections;
      coming = H.coming host.old port;
      after = H.coming host.new port;
      clock = clock.old;
      clock_after = clock.new;
    }) result }
{
    let tables = open_register(host, file)?;
    let Ok(mut listener) = host.listen(port) else {
        return Err(ProgramFault::Listen);
    };
    let (served, tables) = serve_tables(host.alloc(), tables, &mut listener, connections, clock);
    host.stop_listening(port, listener);
    match served {
        Ok(()) => close::<H>(tables.into_connection()),
        Err(fault) => Err(ProgramFault::from(fault)),
    }
}

/// Serves the first `connections` connections of a listener on tables, and returns the tables.
fn serve_tables<S: Alter, L: Connections, C: Clock>(
    alloc: Global,
    tables: Tables<S>,
    listener: &mut L,
    connections: u32,
    clock: &mut C,
) -> (Result<(), ServiceFault>, Tables<S>)
    ensures { ServesTables S.Store C.reads connections (L.coming listener.old) (L.coming listener.new)
        tables clock.old result.1 clock.new result.0 }
{
    let mut keeper = SqlKeeper::new(tables);
    let served = serve_connections(alloc, listener, connections, &mut keeper, clock);
    (served, keeper.into_tables())
}
