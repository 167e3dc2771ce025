//! The parcels and the entries of a unit.
ghost use Rattle.std.specs.Prelude.{nat_eq};
ghost use Rattle.land_core.specs.Entries.{entries_where};
ghost use Rattle.land_select_queries.specs.Lookups.Parts.{ReadsPart};
ghost use Rattle.land_select_queries.specs.TableReads.{FailsOnlyWithoutHistory, ReadsTables};
ghost use Rattle.land_tables_schema.specs.Connections.{HasRegisterTables, LeavesAutocommit};

use crate::lookups::record_lookup::RecordLookup;
use crate::lookups::record_rows::find;
use land_core::parcel::ParcelRecord;
use land_core::records::Records;
use land_core::rrr::RrrRecord;
use land_tables_history::part::part_at;
use land_tables_rows::listing::fault::ReadFault;
use sqlite::{Alter, Connection};
use std::alloc::Global;

/// Reads the parcels of a unit at a time, in Unix milliseconds, by number. Returns error 520 only if the
/// tables hold no history, and 501 if out of memory.
pub fn parcels<S: Alter>(
    alloc: Global,
    conn: &mut Connection<S>,
    unit: u64,
    at: i64,
) -> Result<Records<ParcelRecord>, ReadFault>
    requires has_tables { HasRegisterTables S.Store conn.old }
    ensures reads_only { ReadsTables S.Store result
        (ReadsPart (λ r. entries_where (λ n p. nat_eq p.unit unit) r.parcels) at)
        conn.old conn.new }
    ensures unreadable { FailsOnlyWithoutHistory S.Store result conn.old conn.new }
    ensures autocommit { LeavesAutocommit conn.old conn.new }
{
    let found = find(alloc, conn, RecordLookup::ParcelsOfUnit, unit, at)?;
    Ok(part_at(alloc, found.as_slice(), at)?)
}

/// Reads the entries of a unit at a time, in Unix milliseconds, by number. Returns error 520 only if the
/// tables hold no history, and 501 if out of memory.
pub fn entries<S: Alter>(
    alloc: Global,
    conn: &mut Connection<S>,
    unit: u64,
    at: i64,
) -> Result<Records<RrrRecord>, ReadFault>
    requires has_tables { HasRegisterTables S.Store conn.old }
    ensures reads_only { ReadsTables S.Store result
        (ReadsPart (λ r. entries_where (λ n e. nat_eq e.unit unit) r.rrrs) at)
        conn.old conn.new }
    ensures unreadable { FailsOnlyWithoutHistory S.Store result conn.old conn.new }
    ensures autocommit { LeavesAutocommit conn.old conn.new }
{
    let found = find(alloc, conn, RecordLookup::EntriesOfUnit, unit, at)?;
    Ok(part_at(alloc, found.as_slice(), at)?)
}
