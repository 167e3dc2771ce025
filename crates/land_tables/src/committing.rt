//! Writes a change of the register and commits it.
ghost use Rattle.std.specs.Prelude.{◌≡◌, ◌≢◌, ◌&&◌, ◌≤ℤ◌, pos, false, int_le, IsTrue, Err, OnErr, OnOk};
ghost use Rattle.land_core.specs.Numbers.{IsMoment, last_moment};
ghost use Rattle.land_keep.specs.declared.store_fault.StoreFault.TheVariants as store;
ghost use Rattle.land_tables.specs.Calls.{IsSafeWrite, MayWriteChange};
ghost use Rattle.land_tables.specs.TablesState.{HoldsRegister};
ghost use Rattle.land_tables_rows.specs.Recording.Whole.{WritesChange, fits_change};
ghost use Rattle.land_tables_schema.specs.Connections.{HasRegisterTables};
ghost use Rattle.sqlite.specs.Held.{state};
ghost use Rattle.sqlite.specs.State.{HasCleanDisk, Survives};

use crate::failed_reads::fault_after;
use land_core::change::Change;
use land_core::limits::LAST_MOMENT;
use land_keep::store_fault::StoreFault;
use land_tables_rows::change_writing::change::{fits, write_change};
use land_tables_rows::listing::fault::ReadFault;
use sqlite::{Alter, Connection, Error};
use std::alloc::Global;

/// Checks if a change can be written with a stamp.
fn can_write_change(change: &Change, stamp: i64) -> bool
    ensures { result ≡ (int_le (pos 0) stamp && int_le stamp last_moment && fits_change change.now) }
{
    0 <= stamp && stamp <= LAST_MOMENT && fits(change)
}

/// Writes a change in one transaction, whose last store operation is the commit.
fn commit_change<S: Alter>(
    alloc: Global,
    conn: &mut Connection<S>,
    change: &Change,
    next: u64,
    stamp: i64,
) -> Result<(), Error>
    requires alone { conn.old.in_transaction ≡ false }
    requires fits { IsTrue (fits_change change.now) }
    requires moment { IsMoment stamp }
    requires has_tables { HasRegisterTables S.Store conn.old }
    ensures done { HasCleanDisk (state S.Store conn.new)
        → OnOk result
        (WritesChange change.now next stamp (state S.Store conn.old).now (state S.Store conn.new).now) }
    ensures committed { HasCleanDisk (state S.Store conn.new)
        → OnOk result ((state S.Store conn.new).committed ≡ (state S.Store conn.new).now) }
    ensures open { HasCleanDisk (state S.Store conn.new)
        → OnOk result (IsTrue (state S.Store conn.new).is_open) }
    ensures neither { HasCleanDisk (state S.Store conn.new) → IsTrue (state S.Store conn.new).is_open
        → OnErr result
        (((state S.Store conn.new).now ≡ (state S.Store conn.old).committed)
        × ((state S.Store conn.new).committed ≡ (state S.Store conn.old).committed)) }
    ensures crash { Survives (state S.Store conn.old) (state S.Store conn.new)
        (MayWriteChange change.now next stamp (state S.Store conn.old).now) }
    ensures ended { conn.new.in_transaction ≡ false }
{
    let mut tx = conn.transaction();
    write_change(alloc, &mut tx, change, next, stamp)?;
    tx.commit()
}

/// Writes a change with its stamp. Unless the fault is 502, the store is open and fully committed: with its
/// old content, or with the change.
pub(crate) fn record<S: Alter>(
    alloc: Global,
    conn: &mut Connection<S>,
    change: &Change,
    next: u64,
    stamp: i64,
) -> Result<(), StoreFault>
    requires alone { conn.old.in_transaction ≡ false }
    requires register { HasCleanDisk (state S.Store conn.old) → HoldsRegister (state S.Store conn.old) }
    ensures open { result ≢ Err store.Closed }
    ensures moment { OnOk result (stamp ≤ℤ last_moment) }
    ensures safe { IsSafeWrite result (WritesChange change.now next stamp)
        (MayWriteChange change.now next stamp (state S.Store conn.old).now) (state S.Store conn.old)
        (state S.Store conn.new) }
    ensures ended { conn.new.in_transaction ≡ false }
{
    if !can_write_change(change, stamp) {
        return Err(StoreFault::Store);
    }
    match commit_change(alloc, conn, change, next, stamp) {
        Ok(()) => Ok(()),
        Err(error) => Err(fault_after(conn, ReadFault::from(error))),
    }
}
