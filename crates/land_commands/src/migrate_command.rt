//! The command `migrate`: upgrades a register in a file from schema version 1 to 2.
ghost use Rattle.std.specs.Prelude.{◌≡◌, string_bytes, IfOk};
ghost use Rattle.land_commands.specs.Migrating.{IsMigrating, OpensMigrated, migrated_text};

use crate::file_commands::close;
use crate::host::Host;
use crate::program_fault::ProgramFault;
use land_streams::send::send;
use land_tables::tables::Tables;
use std::alloc::{AllocError, Global};
use std::io::Write;

/// Opens a register of schema version 1 and migrates it to version 2. If that fails, does not change the
/// file.
fn open_migrated<H: Host>(host: &mut H, file: &str) -> Result<Tables<H::Store>, ProgramFault>
    ensures { OpensMigrated H.Store.Store (H.holds file.now) result }
{
    let conn = host.open_existing(file)?;
    match Tables::migrate(host.alloc(), conn) {
        Ok(tables) => Ok(tables),
        Err((_, fault)) => Err(ProgramFault::from(fault)),
    }
}

/// Migrates the register in a file from schema version 1 to 2, and writes its last stamp and its next number.
pub fn migrate<H: Host, O: Write>(
    host: &mut H,
    file: &str,
    output: &mut O,
) -> Result<(), ProgramFault>
    ensures { IsMigrating H.Store.Store (H.holds file.now) H.is_closed
        (O.contents output.old) (O.contents output.new) result }
{
    let tables = open_migrated(host, file)?;
    let line = migrated_line(host.alloc(), tables.last(), tables.next())?;
    close::<H>(tables.into_connection())?;
    match send(output, line.as_bytes()) {
        Ok(()) => Ok(()),
        Err(_) => Err(ProgramFault::Stream),
    }
}

/// Formats the line that reports a migrated register.
fn migrated_line(alloc: Global, last: i64, next: u64) -> Result<String, AllocError>
    ensures { IfOk result (λ text. string_bytes text ≡ migrated_text last next) }
{
    format!(in alloc; "migrated: last {last}, next {next}\n")
}
