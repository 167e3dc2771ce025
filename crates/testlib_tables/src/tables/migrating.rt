//! Stores of schema version 1, which has no mandates: those that are migrated, and those that are left
//! unchanged.
use crate::cases::run_scenario::tables_after_scenario;
use crate::cases::stores::{expect_fault, run, run_on};
use land_tables::tables::Tables;
use sqlite::{Connection, MemStore};
use std::alloc::Global;
use testlib_scenario::looks::{Look, expect_rows_after_steps, look_at};
use testlib_scenario::stop::Stop;

/// SQL statements that turn a store of schema version 2 without mandates into one of version 1.
pub const DOWNGRADE: &str = "DROP TABLE mandate; UPDATE edition SET version = 1";

/// SQL statements on the tables of schema version 1, others that undo them, and the fault that `migrate`
/// returns in between.
struct Change(&'static str, &'static str, u16);

const CHANGES: &[Change] = &[
    Change("BEGIN", "ROLLBACK", 502),
    // other tables, or values that do not decode
    Change("CREATE TABLE other (x INTEGER)", "DROP TABLE other", 520),
    Change(
        "CREATE TABLE mandate (principal INTEGER NOT NULL, agent INTEGER NOT NULL, since INTEGER NOT NULL, \
        until INTEGER NOT NULL, PRIMARY KEY (principal, agent, since), CHECK (since < until)) STRICT",
        "DROP TABLE mandate",
        520,
    ),
    Change(
        "CREATE UNIQUE INDEX more ON party (name, since)",
        "DROP INDEX more",
        520,
    ),
    Change(
        "UPDATE edition SET id = 2",
        "UPDATE edition SET id = 1",
        520,
    ),
    Change(
        "UPDATE edition SET version = 2; UPDATE party SET name = '' WHERE number = 2",
        "UPDATE edition SET version = 1; UPDATE party SET name = 'Anna' WHERE number = 2",
        520,
    ),
    // another version, with its mandates or without
    Change(
        "UPDATE edition SET version = 2",
        "UPDATE edition SET version = 1",
        523,
    ),
    Change(
        "CREATE TABLE mandate (principal INTEGER NOT NULL, agent INTEGER NOT NULL, since INTEGER NOT NULL, \
        until INTEGER NOT NULL, PRIMARY KEY (principal, agent, since), CHECK (since < until)) STRICT; UPDATE edition SET version = 2",
        "DROP TABLE mandate; UPDATE edition SET version = 1",
        523,
    ),
    Change(
        "UPDATE edition SET version = 7; UPDATE unit SET since = 1 WHERE number = 9",
        "UPDATE edition SET version = 1; UPDATE unit SET since = 1009 WHERE number = 9",
        523,
    ),
    // intervals, and then registers that are not sound
    Change(
        "UPDATE unit SET since = 1 WHERE number = 9; UPDATE rrr SET unit = 999 WHERE number = 13",
        "UPDATE unit SET since = 1009 WHERE number = 9; UPDATE rrr SET unit = 9 WHERE number = 13",
        521,
    ),
    Change(
        "UPDATE rrr SET unit = 999 WHERE number = 13",
        "UPDATE rrr SET unit = 9 WHERE number = 13",
        522,
    ),
    // an additional index would get the tree of the mandates
    Change("CREATE INDEX more ON party (name)", "DROP INDEX more", 502),
    Change(
        "CREATE UNIQUE INDEX more ON party (number, since)",
        "DROP INDEX more",
        502,
    ),
];

/// Rows of schema version 1 and of version 2 that differ.
pub const BEFORE: &[Look] = &[Look("SELECT id, version FROM edition", "1|1|\n")];

pub const AFTER: &[Look] = &[Look("SELECT * FROM mandate", "")];

/// Migrates a store. Returns the number of the fault, 0 if it is migrated and has the register of the
/// scenario, and the store.
fn migrate_fault(alloc: Global, conn: Connection<MemStore>) -> (u16, Connection<MemStore>) {
    match Tables::migrate(alloc, conn) {
        Ok(tables) => {
            let has_scenario_end = tables.last() == 1017
                && tables.next() == 30
                && !tables.is_closed();
            (
                if has_scenario_end { 0 } else { 1 },
                tables.into_connection(),
            )
        }
        Err((conn, fault)) => (fault.number(), conn),
    }
}

/// Migrates the store in the option, and puts it back.
fn migrate_in_place(alloc: Global, left: &mut Option<Connection<MemStore>>) -> Result<u16, Stop> {
    match left.take() {
        Some(conn) => {
            let (fault, back) = migrate_fault(alloc, conn);
            *left = Some(back);
            Ok(fault)
        }
        None => Err(Stop::Call),
    }
}

/// Changes the store in the option, migrates it, and undoes the change. Returns the fault of migrating.
fn fault_between(
    alloc: Global,
    left: &mut Option<Connection<MemStore>>,
    change: &Change,
) -> Result<u16, Stop> {
    run_on(left, change.0)?;
    let fault = migrate_in_place(alloc, left)?;
    run_on(left, change.1)?;
    Ok(fault)
}

/// Fails if some change does not have its fault.
fn are_refused(alloc: Global, left: &mut Option<Connection<MemStore>>) -> Result<(), Stop> {
    for (place, change) in CHANGES.iter().enumerate() {
        expect_fault(
            fault_between(alloc, left, change)?,
            change.2,
            "change",
            place,
        )?;
    }
    Ok(())
}

/// Fails if the store in the option is not of schema version 1.
fn check_version_1(alloc: Global, left: &mut Option<Connection<MemStore>>) -> Result<(), Stop> {
    match left.as_mut() {
        Some(conn) => look_at(alloc, conn, BEFORE),
        None => Err(Stop::Call),
    }
}

/// Fails if it is not of schema version 2, with the rows of the scenario and no mandates.
fn check_version_2(alloc: Global, left: &mut Option<Connection<MemStore>>) -> Result<(), Stop> {
    match left.as_mut() {
        Some(conn) => {
            look_at(alloc, conn, AFTER)?;
            expect_rows_after_steps(alloc, conn)
        }
        None => Err(Stop::Call),
    }
}

/// The store in the option is migrated, and not a second time.
fn is_migrated(alloc: Global, left: &mut Option<Connection<MemStore>>) -> Result<(), Stop> {
    expect_fault(migrate_in_place(alloc, left)?, 0, "migrated", 0)?;
    check_version_2(alloc, left)?;
    expect_fault(migrate_in_place(alloc, left)?, 523, "migrated again", 0)?;
    check_version_2(alloc, left)
}

/// Returns a store of schema version 1 after the scenario.
fn version_1_store(alloc: Global) -> Result<Option<Connection<MemStore>>, Stop> {
    let mut conn = tables_after_scenario(alloc)?.into_connection();
    run(&mut conn, DOWNGRADE)?;
    Ok(Some(conn))
}

/// Each change is refused, and the store is unchanged.
fn check_refusals_change_nothing(
    alloc: Global,
    left: &mut Option<Connection<MemStore>>,
) -> Result<(), Stop> {
    check_version_1(alloc, left)?;
    are_refused(alloc, left)?;
    check_version_1(alloc, left)
}

/// Stores that are refused are unchanged, and one that is migrated has its old rows; it is not migrated
/// again.
pub fn a_v1_register_is_migrated_once(alloc: Global) -> Result<(), Stop> {
    let mut left = version_1_store(alloc)?;
    check_refusals_change_nothing(alloc, &mut left)?;
    is_migrated(alloc, &mut left)
}

/// A store that has lost indexes of schema version 1 is migrated like one that has them.
pub fn a_register_without_its_indexes_is_migrated(alloc: Global) -> Result<(), Stop> {
    let mut left = version_1_store(alloc)?;
    run_on(
        &mut left,
        "DROP INDEX rrr_party; DROP INDEX names_unit; DROP INDEX role_role",
    )?;
    is_migrated(alloc, &mut left)
}
