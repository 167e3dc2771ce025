//! Migrates a register from schema version 1 to 2.
ghost use Rattle.std.specs.Prelude.{◌≡◌, ◌≢◌, ◌⊎◌, ◌≤ℤ◌, false, IfErr, IfOk, IsTrue, OnErr, OnOk};
ghost use Rattle.land_core.specs.Numbers.{last_moment};
ghost use Rattle.land_tables.specs.Calls.{CommitsNothing, IsCommittedIfOpen, IsLeftIfOpen};
ghost use Rattle.land_tables.specs.Migrating.{IsMigration};
ghost use Rattle.land_tables.specs.declared.fault.AdoptFault.TheVariants as why;
ghost use Rattle.land_tables_schema.specs.Connections.{LeavesAutocommit};
ghost use Rattle.land_tables_schema.specs.Schemas.{IsMigratable};
ghost use Rattle.land_tables_schema.specs.Rows.SchemaMigration.{MayMigrate, Migrates};
ghost use Rattle.sqlite.specs.Held.{state};
ghost use Rattle.sqlite.specs.State.{HasCleanDisk, IsUnchanged, Survives};

use crate::failed_reads::fault_after;
use crate::fault::AdoptFault;
use crate::opening::open_v1_store;
use crate::timelines::laws::{histories_represent_one_timeline, order_does_not_matter};
use land_keep::store_fault::StoreFault;
use land_tables_history::moment::Moment;
use land_tables_rows::listing::fault::ReadFault;
use land_tables_rows::writing::laws::migrated_registers_are_held;
use land_tables_schema::rows::schema_migration::migrate_register;
use land_tables_schema::schema_v1::can_migrate;
use sqlite::{Alter, Connection, Error};
use std::alloc::Global;

/// Returns the fault of a failed migration: `NoMemory` (501) if out of memory and the store is still open,
/// else `Store` (502).
fn migration_fault<S: Alter>(conn: &mut Connection<S>, error: Error) -> AdoptFault
    ensures fault { (result ≡ why.NoMemory) ⊎ (result ≡ why.Store) }
    ensures same { HasCleanDisk (state S.Store conn.new) → result ≢ why.Store
        → IsUnchanged (state S.Store conn.old) (state S.Store conn.new) }
    ensures left { IsLeftIfOpen S.Store conn.old conn.new }
    ensures survives { CommitsNothing S.Store conn.old conn.new }
    ensures autocommit { LeavesAutocommit conn.old conn.new }
{
    match fault_after(conn, ReadFault::from(error)) {
        StoreFault::NoMemory => AdoptFault::NoMemory,
        StoreFault::Store | StoreFault::Closed => AdoptFault::Store,
    }
}

/// Migrates a store with the tables of schema version 1 to version 2, with no mandates, in one transaction
/// whose last store operation is the commit. Returns the given moment of its last change. Errors: `NoMemory`
/// (501); `Store` (502) on a store error, or if its next table would not get the tree of the mandates, in
/// which case nothing is done. A store that is open after an error is unchanged.
fn upgrade_store<S: Alter>(conn: &mut Connection<S>, latest: Moment) -> Result<Moment, AdoptFault>
    requires alone { conn.old.in_transaction ≡ false }
    requires settled { HasCleanDisk (state S.Store conn.old)
        → (state S.Store conn.old).now ≡ (state S.Store conn.old).committed }
    ensures latest { IfOk result (λ it. it ≡ latest) }
    ensures raisable { OnOk result (IsMigratable (state S.Store conn.old).now.schema) }
    ensures done { HasCleanDisk (state S.Store conn.new)
        → OnOk result (Migrates (state S.Store conn.old).now (state S.Store conn.new).now) }
    ensures committed { HasCleanDisk (state S.Store conn.new)
        → OnOk result ((state S.Store conn.new).committed ≡ (state S.Store conn.new).now) }
    ensures open { HasCleanDisk (state S.Store conn.new)
        → OnOk result (IsTrue (state S.Store conn.new).is_open) }
    ensures fault { IfErr result (λ fault. (fault ≡ why.NoMemory) ⊎ (fault ≡ why.Store)) }
    ensures same { HasCleanDisk (state S.Store conn.new)
        → IfErr result (λ fault. fault ≢ why.Store → IsTrue (state S.Store conn.new).is_open) }
    ensures undone { HasCleanDisk (state S.Store conn.new) → IsTrue (state S.Store conn.new).is_open
        → OnErr result
        (((state S.Store conn.new).now ≡ (state S.Store conn.old).committed)
        × ((state S.Store conn.new).committed ≡ (state S.Store conn.old).committed)) }
    ensures crash { Survives (state S.Store conn.old) (state S.Store conn.new)
        (MayMigrate (state S.Store conn.old).now) }
    ensures ended { conn.new.in_transaction ≡ false }
{
    if !can_migrate(conn.schema()) {
        return Err(AdoptFault::Store);
    }
    match migrate_register(conn) {
        Ok(()) => Ok(latest),
        Err(error) => Err(migration_fault(conn, error)),
    }
}

/// Migrates a store with a register of schema version 1 to version 2, with no mandates, and returns the
/// moment of its last change. Errors are those of opening a store of schema version 1, then those of the
/// migration. A store that is open after an error is unchanged.
pub(crate) fn migrate_store<S: Alter>(
    alloc: Global,
    conn: &mut Connection<S>,
) -> Result<Moment, AdoptFault>
    requires alone { conn.old.in_transaction ≡ false }
    requires settled { IsCommittedIfOpen S.Store conn.old }
    ensures migration { IsMigration result (state S.Store conn.old) (state S.Store conn.new) }
    ensures moment { IfOk result (λ latest. latest.stamp ≤ℤ last_moment) }
    ensures ended { conn.new.in_transaction ≡ false }
{
    histories_represent_one_timeline();
    order_does_not_matter();
    migrated_registers_are_held();
    match open_v1_store(alloc, conn) {
        Ok(latest) => upgrade_store(conn, latest),
        Err(fault) => Err(fault),
    }
}
