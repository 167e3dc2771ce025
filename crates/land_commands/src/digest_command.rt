//! The command `digest`: prints the digest of the history of a register.
ghost use Rattle.std.specs.Prelude.{◌≡◌, string_bytes, unwrap_or, IfOk};
ghost use Rattle.land_commands.specs.Digesting.{DigestsRegister, OpensContents, contents_text};
ghost use Rattle.land_core.specs.Numbers.{last_moment};
ghost use Rattle.land_digest.specs.Laws.{HasIntervals};

use crate::host::Host;
use crate::program_fault::ProgramFault;
use land_core::limits::LAST_MOMENT;
use land_digest::digest::{history_digest, last_stamp_at};
use land_streams::send::send;
use land_tables::table_contents::TableContents;
use land_tables::tables::Tables;
use std::alloc::{AllocError, Global};
use std::io::Write;

/// Opens the register in a file, and returns it with the contents of its tables. Does not change the file.
fn open_contents<H: Host>(
    host: &mut H,
    file: &str,
) -> Result<(Tables<H::Store>, TableContents), ProgramFault>
    ensures { OpensContents H.Store.Store (H.holds file.now) result }
{
    let conn = host.open_existing(file)?;
    match Tables::adopt_with_contents(host.alloc(), conn) {
        Ok(opened) => Ok(opened),
        Err((_, refusal)) => Err(ProgramFault::from(refusal)),
    }
}

/// Writes the digest of the history in the register in a file, with the last stamp at or before a time, in
/// Unix milliseconds, up to which it counts; `None`: with the last stamp of all.
pub fn digest<H: Host, O: Write>(
    host: &mut H,
    file: &str,
    at: Option<i64>,
    output: &mut O,
) -> Result<(), ProgramFault>
    ensures { DigestsRegister H.Store.Store (H.holds file.now) (unwrap_or at last_moment)
        (O.contents output.old) (O.contents output.new) result }
{
    let opened = open_contents(host, file)?;
    let (tables, contents) = opened;
    // The digest needs only the contents, so the pages of the file are freed before its entries are made.
    drop(tables);
    let line = digest_line(host.alloc(), &contents, at.unwrap_or(LAST_MOMENT))?;
    match send(output, line.as_bytes()) {
        Ok(()) => Ok(()),
        Err(_) => Err(ProgramFault::Stream),
    }
}

/// Formats the line that reports the digest of a history up to a time, in Unix milliseconds.
fn digest_line(alloc: Global, found: &TableContents, at: i64) -> Result<String, AllocError>
    requires { HasIntervals found.now.moments found.now.history }
    ensures { IfOk result (λ text. string_bytes text ≡ contents_text found.now at) }
{
    let stamp = last_stamp_at(found.moments.as_slice(), at);
    let digest = history_digest(alloc, found.moments.as_slice(), &found.history, stamp)?;
    let digits = hex::encode(alloc, digest)?;
    format!(in alloc; "digest: {stamp} {digits}\n")
}
