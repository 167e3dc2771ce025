//! A migration on files of which one stops: after none of its calls, after one, after two, until a run is not
//! stopped. If the store fails, the fault is 502. Reopened, the files hold the register in schema version 1
//! or 2; in version 2, if the migration succeeded.
use crate::every_stop::changes::{MAX_CALLS, Which, fuses_for};
use crate::every_stop::disks::{Disks, ENDLESS, Image, have_stopped, lose_power};
use crate::every_stop::opening::{Room, files_of, open_or_stop, options};
use crate::every_stop::registers::version_1_files;
use land_tables::fault::AdoptFault;
use land_tables::tables::Tables;
use sqlite::{Alter, Connection, Error, ErrorCode};
use std::alloc::Global;
use testlib_scenario::looks::{expect_rows_after_steps, look_at};
use testlib_scenario::stop::{Stop, expect};
use testlib_tables::tables::migrating::{AFTER, BEFORE};

/// The outcome of a migration.
#[derive(Clone, Copy)]
enum Ending {
    /// The store was not opened.
    Unopened,
    /// The migration failed.
    Failed,
    /// The register was migrated.
    Migrated,
    /// Out of memory.
    AllocFailed,
    /// Any other outcome.
    Other,
}

/// Returns the outcome if the store cannot be opened.
fn ending_of_open_error(error: Error) -> Ending {
    match error {
        Error::SqliteFailure(ErrorCode::SystemIoFailure) => Ending::Unopened,
        Error::SqliteFailure(ErrorCode::OutOfMemory) => Ending::AllocFailed,
        _ => Ending::Other,
    }
}

/// Returns the outcome if the store is not migrated.
fn ending_of_migrate_fault(fault: AdoptFault) -> Ending {
    match fault {
        AdoptFault::Store => Ending::Failed,
        AdoptFault::NoMemory => Ending::AllocFailed,
        _ => Ending::Other,
    }
}

/// Returns the outcome of migrated tables, which must hold the register of the scenario.
fn has_scenario_end<S: Alter>(tables: &Tables<S>) -> Ending {
    if tables.last() == 1017 && tables.next() == 30 {
        Ending::Migrated
    } else {
        Ending::Other
    }
}

fn migrate_store<S: Alter>(alloc: Global, conn: Connection<S>) -> (Ending, Connection<S>) {
    match Tables::migrate(alloc, conn) {
        Ok(tables) => (has_scenario_end(&tables), tables.into_connection()),
        Err((conn, fault)) => (ending_of_migrate_fault(fault), conn),
    }
}

/// Opens files and migrates the register in them. Returns the outcome and the files.
fn migrate_files(alloc: Global, files: Disks, room: Room) -> (Ending, Disks) {
    if !files.may_be_used() {
        return (Ending::Other, files);
    }
    match Connection::open_files(alloc, files, options(room)) {
        Ok(conn) => {
            let (ending, conn) = migrate_store(alloc, conn);
            (ending, files_of(conn))
        }
        Err((error, left)) => (ending_of_open_error(error), left.into_files()),
    }
}

/// Returns the schema version of the tables in a store that holds the register of the scenario; 0 if neither.
fn version_of<S: Alter + Drop>(alloc: Global, conn: Connection<S>) -> Result<u64, Stop> {
    match Tables::adopt(alloc, conn) {
        Ok(tables) => {
            let mut conn = tables.into_connection();
            look_at(alloc, &mut conn, AFTER)?;
            expect_rows_after_steps(alloc, &mut conn)?;
            Ok(2)
        }
        Err((_, AdoptFault::NoMemory)) => Err(Stop::Memory),
        Err((conn, AdoptFault::Version)) => check_version_1_store(alloc, conn),
        Err(_) => Ok(0),
    }
}

/// Migrates tables of schema version 1, which must then have the rows of the scenario.
fn check_version_1_store<S: Alter + Drop>(alloc: Global, conn: Connection<S>) -> Result<u64, Stop> {
    let mut conn = conn;
    look_at(alloc, &mut conn, BEFORE)?;
    match Tables::migrate(alloc, conn) {
        Ok(tables) => {
            let mut conn = tables.into_connection();
            expect_rows_after_steps(alloc, &mut conn)?;
            Ok(1)
        }
        Err((_, AdoptFault::NoMemory)) => Err(Stop::Memory),
        Err(_) => Ok(0),
    }
}

/// Returns the schema version in the files now.
fn version_in(alloc: Global, files: &Disks) -> Result<u64, Stop> {
    let image = Image::of(alloc, files)?;
    version_of(
        alloc,
        open_or_stop(alloc, image.disks(alloc, ENDLESS)?, Room::Ample)?,
    )
}

/// Checks if that version is allowed, by the outcome of the migration.
fn is_allowed_after(ending: Ending, version: u64) -> bool {
    match ending {
        Ending::Unopened => version == 1,
        Ending::Failed => version == 1 || version == 2,
        Ending::Migrated => version == 2,
        Ending::AllocFailed | Ending::Other => false,
    }
}

fn is_migrated(ending: Ending) -> bool {
    match ending {
        Ending::Migrated => true,
        _ => false,
    }
}

fn is_failed(ending: Ending) -> bool {
    match ending {
        Ending::Failed => true,
        _ => false,
    }
}

/// Checks the content of the files after the death of the process, and then after a power failure.
fn look_at_files(
    alloc: Global,
    ending: Ending,
    files: &mut Disks,
    calls: usize,
) -> Result<(), Stop> {
    let register_with_retries = version_in(alloc, files)?;
    expect(
        is_allowed_after(ending, register_with_retries),
        "what was written",
        calls,
    )?;
    lose_power(files);
    let synced = version_in(alloc, files)?;
    expect(is_allowed_after(ending, synced), "what was synced", calls)
}

/// A register of schema version 1, and how it is migrated.
#[derive(Clone, Copy)]
struct StopCase<'a> {
    files: &'a Image,
    room: Room,
    which: Which,
}

/// Migrates on files of which one stops after a number of calls. Returns the outcome, and whether the file
/// stopped.
fn run(alloc: Global, trial: StopCase<'_>, calls: u64) -> Result<(Ending, bool), Stop> {
    let files = trial.files.disks(alloc, fuses_for(trial.which, calls))?;
    let (ending, left) = migrate_files(alloc, files, trial.room);
    let mut files = left;
    if let Ending::AllocFailed = ending {
        return Err(Stop::Memory);
    }
    let is_stopped = have_stopped(&mut files);
    look_at_files(alloc, ending, &mut files, calls as usize)?;
    Ok((ending, is_stopped))
}

/// Stops the file after each number of calls, until a run is not stopped, in which the register is migrated.
/// Returns the number of runs in which the store failed.
fn count_failed(alloc: Global, trial: StopCase<'_>) -> Result<u64, Stop> {
    let mut failed = 0u64;
    for calls in 0..MAX_CALLS {
        let (ending, is_stopped) = run(alloc, trial, calls)?;
        if !is_stopped {
            expect(is_migrated(ending), "a run with no stop", calls as usize)?;
            return Ok(failed);
        }
        if is_failed(ending) {
            failed = failed.saturating_add(1);
        }
    }
    Err(Stop::Mismatch("a run with no stop", 0))
}

/// Stops the log, and then the database file. The store fails at least if the log stops.
fn each_file_stops(alloc: Global, files: &Image, room: Room) -> Result<(), Stop> {
    let mut trial = StopCase {
        files,
        room,
        which: Which::Log,
    };
    expect(count_failed(alloc, trial)? > 0, "failed", 0)?;
    trial.which = Which::Database;
    count_failed(alloc, trial)?;
    Ok(())
}

/// The migration of the scenario's register, in a store that is opened as the program opens it.
pub fn a_migration(alloc: Global) -> Result<(), Stop> {
    each_file_stops(alloc, &version_1_files(alloc)?, Room::Ample)
}

/// The same, in a store with a small cache.
pub fn a_migration_in_little_room(alloc: Global) -> Result<(), Stop> {
    each_file_stops(alloc, &version_1_files(alloc)?, Room::Tight)
}
