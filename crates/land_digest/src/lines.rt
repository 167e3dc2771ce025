//! Writes the lines of events to a hasher.
ghost use Rattle.std.specs.Prelude.{◌≡◌, flat_map, map as map_list, OnOk};
ghost use Rattle.land_digest.specs.Entries.{Gains, event_of, place_fields};
ghost use Rattle.land_digest.specs.Events.{event_line, events_text};
ghost use Rattle.land_digest.specs.Fields.{field_text};

use crate::entry::Entry;
use crate::fields::{put_integer, put_number};
use crate::values::put_values;
use sha2::{Digest, Sha256};
use std::alloc::{AllocError, Global};

fn put_place(hasher: &mut Sha256, stamp: i64, ends: u64, table: u64, first: u64, second: u64)
    ensures { Gains hasher.old hasher.new
        (flat_map field_text (place_fields (stamp, ends, table, first, second))) }
{
    put_integer(hasher, stamp);
    put_number(hasher, ends);
    put_number(hasher, table);
    put_number(hasher, first);
    put_number(hasher, second);
}

fn put_entry(alloc: Global, hasher: &mut Sha256, entry: &Entry<'_>) -> Result<(), AllocError>
    ensures { OnOk result (Gains hasher.old hasher.new (event_line (event_of entry.now))) }
{
    let (stamp, ends, table, first, second) = entry.place;
    put_place(
        hasher,
        stamp,
        u64::from(ends),
        u64::from(table),
        first,
        second,
    );
    put_values(alloc, hasher, &entry.values)?;
    hasher.update(b"\n");
    Ok(())
}

/// Writes a line for each entry. Returns an error only if it is out of memory.
pub(crate) fn put_entries(
    alloc: Global,
    hasher: &mut Sha256,
    entries: &[Entry<'_>],
) -> Result<(), AllocError>
    ensures { OnOk result (Gains hasher.old hasher.new (events_text (map_list event_of entries.now))) }
{
    'entries: for entry in entries {
        put_entry(alloc, hasher, entry)?;
    }
    Ok(())
}
