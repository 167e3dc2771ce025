//! Tables that hold the register's timeline.
ghost use Rattle.std.specs.Prelude.{◌≡◌, ◌≢◌, ◌≤ℤ◌, true, false, Err, IfErr, IfOk, IsTrue, OnErr, OnOk};
ghost use Rattle.land_core.specs.Numbers.{last_moment};
ghost use Rattle.land_keep.specs.Keeping.{CanWrite, Closes};
ghost use Rattle.land_keep.specs.Machine.{written_timeline};
ghost use Rattle.land_keep.specs.Timeline.{IsSoundTimeline, last_register, last_stamp, new_timeline};
ghost use Rattle.land_keep.specs.Timeline.{register_at};
ghost use Rattle.land_keep.specs.declared.store_fault.StoreFault.TheVariants as store;
ghost use Rattle.land_tables.specs.Adopting.{HoldsNoRegister, IsAdopted, IsRefused};
ghost use Rattle.land_tables.specs.Calls.{StaysOpenAndSame};
ghost use Rattle.land_tables.specs.Digests.{KeepsEarlierText};
ghost use Rattle.land_tables.specs.Migrating.{IsMigratedFrom, IsMigrated, CrashLeavesOldOrMigrated};
ghost use Rattle.land_tables.specs.Migrating.{StaysSameAfterCrash};
ghost use Rattle.land_tables.specs.Registers.{IsRegister, version_1, version_2};
ghost use Rattle.land_tables.specs.Standing.{HoldsTimeline};
ghost use Rattle.land_tables.specs.TableContents.{Finds, PassesTests};
ghost use Rattle.land_tables.specs.declared.fault.AdoptFault.TheVariants as why;
ghost use Rattle.land_tables_schema.specs.Schemas.{no_schema};
ghost use Rattle.sqlite.specs.Held.{state};
ghost use Rattle.sqlite.specs.State.{HasCleanDisk, Survives};

use crate::committing::record;
use crate::creating::create_tables;
use crate::fault::AdoptFault;
use crate::migrating::migrate_store;
use crate::opening::open_v2_store;
use crate::register::register_in;
use crate::table_contents::TableContents;
use crate::timelines::laws::{histories_represent_one_timeline, order_does_not_matter};
use crate::timelines::writing_laws::writes_represent_timelines;
use land_core::change::Change;
use land_core::register::Register;
use land_digest::laws::appending_keeps_text;
use land_keep::laws::writing_keeps_soundness;
use land_keep::store_fault::StoreFault;
use land_tables_schema::schema::is_empty;
use sqlite::{Alter, Connection};
use std::alloc::Global;
use std::marker::Model;

/// A connection to tables that hold the register's timeline, on any store. Contracts see its content, the
/// last stamp, the next number, and whether the store has failed.
pub struct Tables<S: Alter> {
    /// The connection.
    pub conn: Connection<S>,
    last: i64,
    next: u64,
    /// Whether the store has failed.
    pub is_closed: bool,
}

impl<S: Alter> Model for Tables<S> {
    ghost use Rattle.land_tables.specs.TablesState.{IsTablesState, TablesState, tables_code};

    ghost Value = { TablesState S };

    ghost coded = { tables_code S.code };

    ghost view = { λ t. record { conn = t.conn; last = t.last; next = t.next; is_closed = t.is_closed } };

    ghost invariant = { λ t. IsTablesState S.Store
        (record { conn = t.conn; last = t.last; next = t.next; is_closed = t.is_closed }) };
}

impl<S: Alter + Drop> Drop for Tables<S> {
    fn drop(self) {
        let Tables {
            conn: _,
            last: _,
            next: _,
            is_closed: _,
        } = self;
    }
}

impl<S: Alter> Tables<S> {
    ghost use Rattle.land_tables.specs.TablesState.{IsCreated, IsHonest, IsWorking, IsOldOrCommitted};
    ghost use Rattle.land_tables.specs.TablesState.{CrashLeavesOneOf};
    ghost use Rattle.land_tables.specs.TablesState.{CrashLeavesOldOrNew};
    ghost use Rattle.land_tables.specs.TablesState.{CrashKeeps, StaysUntouchedByCrash, held_timeline};

    /// Creates the tables of a new register in an empty store, in one transaction. Errors: `Store` (502) if
    /// the store has tables or a transaction is active, in which case nothing is done, or on a store error;
    /// `NoMemory` (501). A store that is open after an error is unchanged.
    pub fn create(conn: Connection<S>) -> Result<Tables<S>, (Connection<S>, StoreFault)>
        ensures begun { conn.in_transaction ≡ true → result ≡ Err (conn, store.Store) }
        ensures taken { (state S.Store conn).now.schema ≢ no_schema → result ≡ Err (conn, store.Store) }
        ensures created { IfOk result (IsCreated S.Store) }
        ensures kept { IfErr result (λ e. IsOldOrCommitted (state S.Store conn) (state S.Store e.0)) }
        ensures crash_after { IfOk result
            (λ t. Survives (state S.Store conn) (state S.Store t.conn)
            (λ db. HoldsTimeline db new_timeline)) }
        ensures crash { IfErr result
            (λ e. Survives (state S.Store conn) (state S.Store e.0) (λ db. HoldsTimeline db new_timeline)) }
        ensures rests { IfOk result (CrashKeeps S.Store) }
        ensures either { IfErr result (λ e. CrashLeavesOldOrNew (state S.Store conn) (state S.Store e.0)) }
        ensures untouched { IfErr result
            (λ e. HasCleanDisk (state S.Store e.0) → e.1 ≢ store.Store
            → StaysUntouchedByCrash (state S.Store conn) (state S.Store e.0)) }
    {
        let mut conn = conn;
        if !conn.is_autocommit() || !is_empty(conn.schema()) {
            return Err((conn, StoreFault::Store));
        }
        match create_tables(&mut conn) {
            Ok(()) => Ok(Tables {
                conn,
                last: 0,
                next: 2,
                is_closed: false,
            }),
            Err(fault) => Err((conn, fault)),
        }
    }

    /// Opens a store as a register file, which it must hold, and leaves it unchanged. Errors, of which the
    /// first that applies is returned: `Store` (502) if a transaction is active; `NotOurs` (520) if a table
    /// or a column is missing, a value is not a valid value of its field, or there is not exactly one edition
    /// (in schema version 2 this includes mandates); `Version` (523) if the tables have another schema
    /// version; `Interval` (521) if two lifespans of one key overlap, an end is not after its beginning, or a
    /// beginning or an end is not a stamp; `Unsound` (522) if the register at some stamp is not sound, there
    /// is no stamp, or the next number decreases. At any of these `NoMemory` (501) and `Store` (502) may be
    /// returned. The store is open unless the fault is 502.
    pub fn adopt(
        alloc: Global,
        conn: Connection<S>,
    ) -> Result<Tables<S>, (Connection<S>, AdoptFault)>
        ensures begun { conn.in_transaction ≡ true → result ≡ Err (conn, why.Store) }
        ensures adopted { IfOk result (IsAdopted S.Store conn) }
        ensures refused { IfErr result
            (λ e. HasCleanDisk (state S.Store e.0) → IsRefused version_2 e.1 (state S.Store conn).now) }
        ensures none { IfErr result
            (λ e. HasCleanDisk (state S.Store e.0) → HoldsNoRegister version_2 e.1 (state S.Store conn).now) }
        ensures same { IfErr result
            (λ e. HasCleanDisk (state S.Store e.0) → e.1 ≢ why.Store
            → StaysOpenAndSame (state S.Store conn) (state S.Store e.0)) }
        ensures crash_after { IfOk result
            (λ t. Survives (state S.Store conn) (state S.Store t.conn) (λ _. ⊥)) }
        ensures crash { IfErr result (λ e. Survives (state S.Store conn) (state S.Store e.0) (λ _. ⊥)) }
    {
        match Tables::adopt_with_contents(alloc, conn) {
            Ok((tables, _contents)) => Ok(tables),
            Err(refusal) => Err(refusal),
        }
    }

    /// Opens a store as a register file as `adopt` does, with the same errors. Also returns the contents of
    /// its tables.
    pub fn adopt_with_contents(
        alloc: Global,
        conn: Connection<S>,
    ) -> Result<(Tables<S>, TableContents), (Connection<S>, AdoptFault)>
        ensures begun { conn.in_transaction ≡ true → result ≡ Err (conn, why.Store) }
        ensures adopted { IfOk result (λ it. IsAdopted S.Store conn it.0) }
        ensures finds { IfOk result
            (λ it. IsHonest S.Store it.0 → Finds (state S.Store it.0.conn).now.trees it.1) }
        ensures passes { IfOk result (λ it. PassesTests it.1) }
        ensures refused { IfErr result
            (λ e. HasCleanDisk (state S.Store e.0) → IsRefused version_2 e.1 (state S.Store conn).now) }
        ensures none { IfErr result
            (λ e. HasCleanDisk (state S.Store e.0) → HoldsNoRegister version_2 e.1 (state S.Store conn).now) }
        ensures same { IfErr result
            (λ e. HasCleanDisk (state S.Store e.0) → e.1 ≢ why.Store
            → StaysOpenAndSame (state S.Store conn) (state S.Store e.0)) }
        ensures crash_after { IfOk result
            (λ it. Survives (state S.Store conn) (state S.Store it.0.conn) (λ _. ⊥)) }
        ensures crash { IfErr result (λ e. Survives (state S.Store conn) (state S.Store e.0) (λ _. ⊥)) }
    {
        let mut conn = conn;
        if !conn.is_autocommit() {
            return Err((conn, AdoptFault::Store));
        }
        match open_v2_store(alloc, &mut conn) {
            Ok((contents, latest)) => Ok((
                Tables {
                    conn,
                    last: latest.stamp,
                    next: latest.next,
                    is_closed: false,
                },
                contents,
            )),
            Err(fault) => Err((conn, fault)),
        }
    }

    /// Migrates a register from schema version 1, which has no mandates, to version 2, in one transaction,
    /// and opens it. Errors are those of `adopt` for a store of version 1, which has exactly the tables of
    /// that version, else 520; another version is 523. Also returns 502 if the next table would not get the
    /// tree of the mandates, as if the store has indexes of its own. A store that is open after an error is
    /// unchanged, and it is open unless the fault is 502.
    pub fn migrate(
        alloc: Global,
        conn: Connection<S>,
    ) -> Result<Tables<S>, (Connection<S>, AdoptFault)>
        ensures begun { conn.in_transaction ≡ true → result ≡ Err (conn, why.Store) }
        ensures migrated { IfOk result (IsMigrated S.Store conn) }
        ensures refused { IfErr result
            (λ e. HasCleanDisk (state S.Store e.0) → IsRefused version_1 e.1 (state S.Store conn).now) }
        ensures none { IfErr result
            (λ e. HasCleanDisk (state S.Store e.0) → HoldsNoRegister version_1 e.1 (state S.Store conn).now) }
        ensures same { IfErr result
            (λ e. HasCleanDisk (state S.Store e.0) → e.1 ≢ why.Store
            → StaysSameAfterCrash (state S.Store conn) (state S.Store e.0)) }
        ensures kept { conn.in_transaction ≡ false
            → IfErr result
            (λ e. HasCleanDisk (state S.Store e.0) → IsTrue (state S.Store e.0).is_open
            → StaysSameAfterCrash (state S.Store conn) (state S.Store e.0)) }
        ensures crash_after { IfOk result
            (λ t. Survives (state S.Store conn) (state S.Store t.conn)
            (IsMigratedFrom (state S.Store conn).now)) }
        ensures crash { IfErr result
            (λ e. Survives (state S.Store conn) (state S.Store e.0)
            (IsMigratedFrom (state S.Store conn).now)) }
        ensures rests { IfOk result (CrashKeeps S.Store) }
        ensures either { IfErr result
            (λ e. CrashLeavesOldOrMigrated (state S.Store conn) (state S.Store e.0)) }
    {
        let mut conn = conn;
        if conn.is_autocommit() {
            match migrate_store(alloc, &mut conn) {
                Ok(moment) => Ok(Tables {
                    conn,
                    last: moment.stamp,
                    next: moment.next,
                    is_closed: false,
                }),
                Err(fault) => Err((conn, fault)),
            }
        } else {
            Err((conn, AdoptFault::Store))
        }
    }

    /// Returns the stamp of the last accepted change, Unix time in milliseconds; 0 in a new register.
    pub fn last(&self) -> i64
        ensures value { result ≡ self.now.last }
        ensures last { IsWorking S.Store self.now → result ≡ last_stamp (held_timeline S.Store self.now) }
        ensures moment { result ≤ℤ last_moment }
        ensures sound { IsWorking S.Store self.now → IsSoundTimeline (held_timeline S.Store self.now) }
    {
        self.last
    }

    /// Returns the number that the next new object takes.
    pub fn next(&self) -> u64
        ensures value { result ≡ self.now.next }
        ensures next { IsWorking S.Store self.now
            → result ≡ (last_register (held_timeline S.Store self.now)).next }
    {
        self.next
    }

    /// Checks if the store has failed.
    pub fn is_closed(&self) -> bool
        ensures { result ≡ self.now.is_closed }
    {
        self.is_closed
    }

    /// Proves that between calls, while none has failed, a crash leaves exactly the timeline in the tables.
    /// Does nothing at run time.
    pub fn rests(&self)
        ensures { CrashKeeps S.Store self.now }
    {
        let _conn = &self.conn;
    }

    /// Proves that between calls, while none has failed, the tables hold a register that `adopt` accepts, of
    /// schema version 2 and with valid intervals. Does nothing at run time.
    pub fn holds_register(&self)
        ensures { IsWorking S.Store self.now → IsRegister version_2 (state S.Store self.now.conn).now }
    {
        let _conn = &self.conn;
    }

    /// Reads the register at a time, Unix time in milliseconds: before the first stamp it is empty, after the
    /// last it is the current one. Errors: `NoMemory` (501); `Store` (502) on a store error, after which
    /// every call returns `Closed` (503). The tables are unchanged.
    pub fn read_at(&mut self, alloc: Global, at: i64) -> Result<Register, StoreFault>
        ensures value { IsHonest S.Store self.new
            → IfOk result (λ it. it ≡ register_at (held_timeline S.Store self.old) at) }
        ensures same { IsWorking S.Store self.new
            → held_timeline S.Store self.new ≡ held_timeline S.Store self.old }
        ensures was { IsHonest S.Store self.new → IsHonest S.Store self.old }
        ensures last { self.new.last ≡ self.old.last }
        ensures next { self.new.next ≡ self.old.next }
        ensures closes { Closes self.old.is_closed self.new.is_closed result }
        ensures crash { Survives (state S.Store self.old.conn) (state S.Store self.new.conn) (λ _. ⊥) }
    {
        if self.is_closed {
            return Err(StoreFault::Closed);
        }
        match register_in(alloc, &mut self.conn, at) {
            Ok(register) => Ok(register),
            Err(fault) => {
                self.is_closed = fault == StoreFault::Store;
                Err(fault)
            }
        }
    }

    /// Reads the current register. Errors are those of `read_at`. The tables are unchanged.
    pub fn last_register(&mut self, alloc: Global) -> Result<Register, StoreFault>
        ensures value { IsHonest S.Store self.new
            → IfOk result (λ it. it ≡ last_register (held_timeline S.Store self.old)) }
        ensures last { self.new.last ≡ self.old.last }
        ensures same { IsWorking S.Store self.new
            → held_timeline S.Store self.new ≡ held_timeline S.Store self.old }
        ensures was { IsHonest S.Store self.new → IsHonest S.Store self.old }
        ensures closes { Closes self.old.is_closed self.new.is_closed result }
    {
        let last = self.last();
        self.read_at(alloc, last)
    }

    /// Writes a change of the current register that an act makes, with its stamp, in one transaction whose
    /// last store operation is the commit. Errors: `NoMemory` (501); `Store` (502) on a store error, or if
    /// the change cannot be written (a string longer than its field, an invalid number), after which every
    /// call returns `Closed` (503). After an error an open store is unchanged.
    pub fn write(&mut self, alloc: Global, change: &Change, stamp: i64) -> Result<(), StoreFault>
        requires { IsWorking S.Store self.old → CanWrite (held_timeline S.Store self.old) change.now stamp }
        ensures ok { IsWorking S.Store self.new
            → OnOk result
            (held_timeline S.Store self.new
            ≡ written_timeline (held_timeline S.Store self.old) change.now stamp) }
        ensures text { IsWorking S.Store self.new
            → OnOk result (KeepsEarlierText stamp (state S.Store self.old.conn).now.trees
            (state S.Store self.new.conn).now.trees) }
        ensures err { IsWorking S.Store self.new
            → OnErr result (held_timeline S.Store self.new ≡ held_timeline S.Store self.old) }
        ensures was { IsHonest S.Store self.new → IsHonest S.Store self.old }
        ensures closes { Closes self.old.is_closed self.new.is_closed result }
        ensures survives { self.old.is_closed ≡ false
            → Survives (state S.Store self.old.conn) (state S.Store self.new.conn)
            (λ db. HoldsTimeline db (written_timeline (held_timeline S.Store self.old) change.now stamp)) }
        ensures crash { CrashLeavesOneOf S.Store self.old self.new (held_timeline S.Store self.old)
            (written_timeline (held_timeline S.Store self.old) change.now stamp) }
        ensures rests { CrashKeeps S.Store self.new }
    {
        if self.is_closed {
            return Err(StoreFault::Closed);
        }
        histories_represent_one_timeline();
        order_does_not_matter();
        writes_represent_timelines();
        writing_keeps_soundness();
        appending_keeps_text();
        match record(alloc, &mut self.conn, change, self.next, stamp) {
            Ok(()) => {
                self.last = stamp;
                self.next = change.next;
                Ok(())
            }
            Err(fault) => {
                self.is_closed = fault == StoreFault::Store;
                Err(fault)
            }
        }
    }

    /// Returns the connection, unchanged.
    pub fn into_connection(self) -> Connection<S>
        ensures { result ≡ self.conn }
    {
        let Tables {
            conn,
            last: _,
            next: _,
            is_closed: _,
        } = self;
        conn
    }
}
