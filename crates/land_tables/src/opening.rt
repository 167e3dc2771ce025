//! Opens a store as a register file.
ghost use Rattle.std.specs.Prelude.{◌≡◌, ◌≢◌, ◌⊎◌, ◌≤ℤ◌, IfOk};
ghost use Rattle.land_core.specs.Numbers.{last_moment};
ghost use Rattle.land_tables.specs.Adopting.{AreRegisterContents, IsValidation, IsRefusedBy, IsRegisterTo};
ghost use Rattle.land_tables.specs.Adopting.{latest_of};
ghost use Rattle.land_tables.specs.Calls.{CommitsNothing, IsCommittedIfOpen, IsLeftIfOpen, ReadsStore};
ghost use Rattle.land_tables.specs.Registers.{version_1, version_2};
ghost use Rattle.land_tables.specs.TableContents.{PassesTests};
ghost use Rattle.land_tables.specs.declared.fault.AdoptFault.TheVariants as why;
ghost use Rattle.land_tables_schema.specs.Connections.{LeavesAutocommit};
ghost use Rattle.sqlite.specs.Held.{state};
ghost use Rattle.sqlite.specs.State.{HasCleanDisk, IsUnchanged};

use crate::fault::AdoptFault;
use crate::store_versions::{read_store_v1, read_store_v2};
use crate::table_contents::TableContents;
use crate::timelines::laws::{
    histories_represent_one_timeline, order_does_not_matter, the_last_moment_is_the_last_stamp,
    valid_histories_represent_timelines,
};
use crate::timelines::validation_laws::{order_keeps_intervals, sound_timelines_are_valid};
use crate::validation::validate;
use land_tables_history::moment::Moment;
use land_tables_schema::rows::openness::is_open;
use sqlite::{Alter, Connection};
use std::alloc::Global;

/// Reads a store of schema version 2 and validates it. Returns its contents and the moment of its last
/// change.
fn validate_v2<S: Alter>(
    alloc: Global,
    conn: &mut Connection<S>,
) -> Result<(TableContents, Moment), AdoptFault>
    ensures reads_only { ReadsStore S.Store result AreRegisterContents conn.old conn.new }
    ensures passes { IfOk result (λ it. PassesTests it.0) }
    ensures refused { IsRefusedBy S.Store result version_2 conn.old conn.new }
    ensures moment { IfOk result (λ it. it.1.stamp ≤ℤ last_moment) }
    ensures autocommit { LeavesAutocommit conn.old conn.new }
{
    valid_histories_represent_timelines();
    histories_represent_one_timeline();
    order_does_not_matter();
    the_last_moment_is_the_last_stamp();
    sound_timelines_are_valid();
    order_keeps_intervals();
    let found = read_store_v2(alloc, conn)?;
    match validate(alloc, &found) {
        Ok(latest) => Ok((found, latest)),
        Err(fault) => Err(fault),
    }
}

/// Reads a store of schema version 1 and validates it.
fn validate_v1<S: Alter>(alloc: Global, conn: &mut Connection<S>) -> Result<Moment, AdoptFault>
    ensures reads_only { ReadsStore S.Store result (IsRegisterTo version_1) conn.old conn.new }
    ensures refused { IsRefusedBy S.Store result version_1 conn.old conn.new }
    ensures moment { IfOk result (λ latest. latest.stamp ≤ℤ last_moment) }
    ensures autocommit { LeavesAutocommit conn.old conn.new }
{
    valid_histories_represent_timelines();
    histories_represent_one_timeline();
    order_does_not_matter();
    the_last_moment_is_the_last_stamp();
    sound_timelines_are_valid();
    order_keeps_intervals();
    let found = read_store_v1(alloc, conn)?;
    validate(alloc, &found)
}

/// Returns the fault of a failed read: its own if the store is still open, else `Store` (502).
fn fault_after<S: Alter>(conn: &mut Connection<S>, fault: AdoptFault) -> AdoptFault
    ensures fault { (result ≡ fault) ⊎ (result ≡ why.Store) }
    ensures same { HasCleanDisk (state S.Store conn.new) → result ≢ why.Store
        → IsUnchanged (state S.Store conn.old) (state S.Store conn.new) }
    ensures left { IsLeftIfOpen S.Store conn.old conn.new }
    ensures survives { CommitsNothing S.Store conn.old conn.new }
    ensures autocommit { LeavesAutocommit conn.old conn.new }
{
    if is_open(conn) {
        fault
    } else {
        AdoptFault::Store
    }
}

/// Returns the contents of a store of schema version 2, and the moment of the last change to its register. A
/// store that is open is unchanged, and it is open unless the fault is 502.
pub(crate) fn open_v2_store<S: Alter>(
    alloc: Global,
    conn: &mut Connection<S>,
) -> Result<(TableContents, Moment), AdoptFault>
    requires settled { IsCommittedIfOpen S.Store conn.old }
    ensures judgement { IsValidation version_2 (latest_of result) (state S.Store conn.old)
        (state S.Store conn.new) }
    ensures contents { HasCleanDisk (state S.Store conn.new)
        → IfOk result (AreRegisterContents (state S.Store conn.old).now) }
    ensures passes { IfOk result (λ it. PassesTests it.0) }
    ensures moment { IfOk result (λ it. it.1.stamp ≤ℤ last_moment) }
    ensures autocommit { LeavesAutocommit conn.old conn.new }
{
    match validate_v2(alloc, conn) {
        Ok(found) => Ok(found),
        Err(fault) => Err(fault_after(conn, fault)),
    }
}

/// Returns the moment of the last change to the register in a store of schema version 1. A store that is open
/// is unchanged, and it is open unless the fault is 502.
pub(crate) fn open_v1_store<S: Alter>(
    alloc: Global,
    conn: &mut Connection<S>,
) -> Result<Moment, AdoptFault>
    requires settled { IsCommittedIfOpen S.Store conn.old }
    ensures judgement { IsValidation version_1 result (state S.Store conn.old) (state S.Store conn.new) }
    ensures moment { IfOk result (λ latest. latest.stamp ≤ℤ last_moment) }
    ensures autocommit { LeavesAutocommit conn.old conn.new }
{
    match validate_v1(alloc, conn) {
        Ok(latest) => Ok(latest),
        Err(fault) => Err(fault_after(conn, fault)),
    }
}
