//! Writes extracts part by part.
ghost use Rattle.std.specs.Prelude.{◌≡◌, false};
ghost use Rattle.land_keep.specs.Keepers.{LeavesTimeline, WasHonest};
ghost use Rattle.land_keep.specs.Keeping.{Closes};
ghost use Rattle.land_sheet.specs.Extracts.{extract_of, list_reply, rows_at};
ghost use Rattle.land_sheet.specs.Extracts.Timelines.{keeper_register, time_of};
ghost use Rattle.land_sheet.specs.Extracts.Writing.{IsExtracted, WritesText, store_result, rows_of};

use crate::extracts::fault::ExtractFault;
use crate::extracts::list::list;
use crate::extracts::part::part_end;
use crate::rows::{csv_header, csv_rows};
use land_core::caller::Caller;
use land_core::kind::Kind;
use land_keep::keeper::Keeper;
use land_keep::named::NamedObject;
use land_keep::store_fault::StoreFault;
use land_streams::put::put;
use std::alloc::Global;
use std::io::Write;

/// Writes the extract of a kind: the names of its columns, then a row for each object that the caller sees at
/// a moment, by increasing number. Without `at` the moment is now.
///
/// Returns the number of bytes written. The register does not change. The rows of a part are built before
/// they are written. If the store fails, the keeper stays closed.
pub fn extract_to<K: Keeper, W: Write>(
    alloc: Global,
    keeper: &mut K,
    clock: i64,
    caller: Caller,
    kind: Kind,
    at: Option<i64>,
    writer: &mut W,
) -> Result<u64, ExtractFault>
    ensures extracted { K.honest keeper.new → IsExtracted
        (list_reply clock caller kind at (K.timeline keeper.old))
        (extract_of (keeper_register K.Keeper keeper.old (time_of K.Keeper keeper.old clock at)) caller kind)
        (W.contents writer.old) (W.contents writer.new) result }
    ensures was { WasHonest K.Keeper keeper.old keeper.new }
    ensures same { LeavesTimeline K.Keeper keeper.old keeper.new }
    ensures closes { Closes (K.closed keeper.old) (K.closed keeper.new) (store_result result) }
{
    let listed = list(alloc, keeper, clock, caller, kind, at)?;
    let header = csv_header(alloc, kind)?;
    match put(writer, 0, header.as_slice()) {
        Ok(written) => {
            let numbers = listed.numbers.as_slice();
            write_parts(alloc, keeper, kind, listed.at, numbers, writer, written)
        }
        Err(written) => Err(ExtractFault::Write { written }),
    }
}

/// Writes the rows of the objects with these numbers at a moment, after `before` bytes, and returns the total
/// number of bytes written. Reads the objects part by part, so that memory is bounded by the size of a part.
fn write_parts<K: Keeper, W: Write>(
    alloc: Global,
    keeper: &mut K,
    kind: Kind,
    at: i64,
    numbers: &[u64],
    writer: &mut W,
    before: u64,
) -> Result<u64, ExtractFault>
    requires { K.closed keeper.old ≡ false }
    ensures put { K.honest keeper.new
        → WritesText (rows_at (keeper_register K.Keeper keeper.old at) kind numbers.now) before
        (W.contents writer.old) (W.contents writer.new) result }
    ensures was { WasHonest K.Keeper keeper.old keeper.new }
    ensures same { LeavesTimeline K.Keeper keeper.old keeper.new }
    ensures closes { Closes (K.closed keeper.old) (K.closed keeper.new) (store_result result) }
{
    let mut written = before;
    let mut given = 0;
    'parts: while given < numbers.len() {
        let end = part_end(numbers, given);
        match keeper.objects(alloc, kind, &numbers[given..end], at) {
            Ok(part) => written = write_rows(alloc, part.as_slice(), writer, written)?,
            Err(fault) => return Err(ExtractFault::Store { fault, written }),
        }
        given = end;
    }
    Ok(written)
}

/// Writes the rows of objects after `before` bytes, and returns the total number of bytes written. The rows
/// are built before they are written.
fn write_rows<W: Write>(
    alloc: Global,
    rows: &[NamedObject],
    writer: &mut W,
    before: u64,
) -> Result<u64, ExtractFault>
    ensures put { WritesText (rows_of rows.now) before (W.contents writer.old)
        (W.contents writer.new) result }
    ensures closes { Closes false false (store_result result) }
{
    match csv_rows(alloc, rows) {
        Ok(lines) => match put(writer, before, lines.as_slice()) {
            Ok(after) => Ok(after),
            Err(after) => Err(ExtractFault::Write { written: after }),
        },
        Err(_) => Err(ExtractFault::Store {
            fault: StoreFault::NoMemory,
            written: before,
        }),
    }
}
