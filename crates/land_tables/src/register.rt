//! Reads the register at a moment from whole tables.
ghost use Rattle.std.specs.Prelude.{◌≡◌, ◌≢◌, Err};
ghost use Rattle.land_keep.specs.Timeline.{register_at};
ghost use Rattle.land_keep.specs.declared.store_fault.StoreFault.TheVariants as store;
ghost use Rattle.land_tables.specs.Calls.{IsSafeRead};
ghost use Rattle.land_tables.specs.TablesState.{HoldsRegister};
ghost use Rattle.land_tables.specs.Standing.{ReadsAt, decoded_timeline};
ghost use Rattle.land_tables_rows.specs.Effects.{ReadsTables};
ghost use Rattle.land_tables_schema.specs.Connections.{HasRegisterTables, LeavesAutocommit};
ghost use Rattle.sqlite.specs.Held.{state};
ghost use Rattle.sqlite.specs.State.{HasCleanDisk};

use crate::failed_reads::fault_after;
use crate::timelines::laws::{
    histories_represent_one_timeline, order_does_not_matter, reading_is_the_register,
};
use land_core::limits::LAST_MOMENT;
use land_core::register::Register;
use land_keep::store_fault::StoreFault;
use land_tables_history::moments::next_at;
use land_tables_history::register;
use land_tables_rows::listing::fault::ReadFault;
use land_tables_rows::listing::history::history;
use land_tables_rows::listing::reading::moments;
use sqlite::{Alter, Connection};
use std::alloc::Global;

/// Reads the register at a moment, with the next number at that moment.
fn read_tables<S: Alter>(
    alloc: Global,
    conn: &mut Connection<S>,
    at: i64,
) -> Result<Register, ReadFault>
    requires { HasRegisterTables S.Store conn.old }
    ensures reads_only { ReadsTables S.Store result (λ db. ReadsAt db at) conn.old conn.new }
    ensures autocommit { LeavesAutocommit conn.old conn.new }
{
    let moments = moments(alloc, conn)?;
    let history = history(alloc, conn)?;
    let next = next_at(moments.as_slice(), at);
    Ok(register::register_at(alloc, &history, at, next)?)
}

/// Reads the rows of all tables that are current at a moment, as a register. The store is open and unchanged
/// unless the fault is 502.
fn read_at<S: Alter>(
    alloc: Global,
    conn: &mut Connection<S>,
    at: i64,
) -> Result<Register, StoreFault>
    requires has_tables { HasRegisterTables S.Store conn.old }
    requires committed { HasCleanDisk (state S.Store conn.old)
        → (state S.Store conn.old).committed ≡ (state S.Store conn.old).now }
    ensures open { result ≢ Err store.Closed }
    ensures safe { IsSafeRead result (ReadsAt (state S.Store conn.old).now.trees at) (state S.Store conn.old)
        (state S.Store conn.new) }
    ensures autocommit { LeavesAutocommit conn.old conn.new }
{
    match read_tables(alloc, conn, at) {
        Ok(register) => Ok(register),
        Err(fault) => Err(fault_after(conn, fault)),
    }
}

/// Returns the timeline's register at a time: empty before the first moment, and the last one after the last
/// moment. The store is open and unchanged unless the fault is 502.
pub(crate) fn register_in<S: Alter>(
    alloc: Global,
    conn: &mut Connection<S>,
    at: i64,
) -> Result<Register, StoreFault>
    requires { HasCleanDisk (state S.Store conn.old) → HoldsRegister (state S.Store conn.old) }
    ensures open { result ≢ Err store.Closed }
    ensures safe { IsSafeRead result
        (λ it. it ≡ register_at (decoded_timeline (state S.Store conn.old).now.trees) at)
        (state S.Store conn.old)
        (state S.Store conn.new) }
    ensures autocommit { LeavesAutocommit conn.old conn.new }
{
    histories_represent_one_timeline();
    order_does_not_matter();
    reading_is_the_register();
    if at < 0 {
        return Ok(Register::empty(alloc));
    }
    read_at(alloc, conn, at.min(LAST_MOMENT))
}
