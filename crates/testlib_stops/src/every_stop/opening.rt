//! Registers in files whose disks may stop.
use crate::every_stop::asking::{Ending, ask};
use crate::every_stop::disks::Disks;
use land_select::sql_keeper::SqlKeeper;
use land_tables::fault::AdoptFault;
use land_tables::table_keeper::TableKeeper;
use land_tables::tables::Tables;
use sqlite::{Alter, Connection, Error, ErrorCode, FileStore, Options};
use sqlite_disk::{Fuse, Memory};
use std::alloc::Global;
use testlib_scenario::doubles::Sink;
use testlib_scenario::stop::Stop;
use testlib_scenario::talk::Transcript;

/// A store in such files.
pub type Store = FileStore<Fuse<Memory>>;

/// How the keeper reads tables.
#[derive(Clone, Copy)]
pub enum Way {
    Tables,
    Joins,
}

/// How a store is opened.
#[derive(Clone, Copy)]
pub enum Room {
    /// As the program opens a file.
    Ample,
    /// With few pages in memory, so that both files are read repeatedly, and with a log that is copied into
    /// the database file before each change.
    Tight,
}

/// Returns the options for opening a store.
pub fn options(room: Room) -> Options {
    let ample = Options::new(1);
    match room {
        Room::Ample => ample,
        Room::Tight => Options {
            cache_pages: 8,
            spill_pages: 4,
            checkpoint_frames: 1,
            seed: 1,
        },
    }
}

/// A change and a read, and how they are requested.
#[derive(Clone, Copy)]
pub struct Asked<'a> {
    pub way: Way,
    pub room: Room,
    pub talk: &'a Transcript,
}

fn by_tables<S: Alter>(
    alloc: Global,
    tables: Tables<S>,
    talk: &Transcript,
    told: &mut Sink,
) -> (Ending, Tables<S>) {
    let mut keeper = TableKeeper::new(tables);
    let ending = ask(alloc, &mut keeper, talk, told);
    (ending, keeper.into_tables())
}

fn by_joins<S: Alter>(
    alloc: Global,
    tables: Tables<S>,
    talk: &Transcript,
    told: &mut Sink,
) -> (Ending, Tables<S>) {
    let mut keeper = SqlKeeper::new(tables);
    let ending = ask(alloc, &mut keeper, talk, told);
    (ending, keeper.into_tables())
}

/// Sends the requests to a keeper of the tables.
fn ask_over<S: Alter>(
    alloc: Global,
    tables: Tables<S>,
    asked: Asked<'_>,
    told: &mut Sink,
) -> (Ending, Tables<S>) {
    match asked.way {
        Way::Tables => by_tables(alloc, tables, asked.talk, told),
        Way::Joins => by_joins(alloc, tables, asked.talk, told),
    }
}

/// Returns the files of a store. Uncommitted data is lost.
pub fn files_of(conn: Connection<Store>) -> Disks {
    conn.into_store().close()
}

/// Returns the outcome if the store cannot be opened.
fn ending_of_open_error(error: Error) -> Ending {
    match error {
        Error::SqliteFailure(ErrorCode::SystemIoFailure) => Ending::Unasked,
        Error::SqliteFailure(ErrorCode::OutOfMemory) => Ending::AllocFailed,
        _ => Ending::Other,
    }
}

/// Returns the outcome if the store is refused.
fn ending_of_adopt_fault(fault: AdoptFault) -> Ending {
    match fault {
        AdoptFault::Store => Ending::Unasked,
        AdoptFault::NoMemory => Ending::AllocFailed,
        _ => Ending::Other,
    }
}

fn ask_store<S: Alter>(
    alloc: Global,
    conn: Connection<S>,
    asked: Asked<'_>,
    told: &mut Sink,
) -> (Ending, Connection<S>) {
    match Tables::adopt(alloc, conn) {
        Ok(tables) => {
            let (ending, tables) = ask_over(alloc, tables, asked, told);
            (ending, tables.into_connection())
        }
        Err((conn, fault)) => (ending_of_adopt_fault(fault), conn),
    }
}

/// Opens files and the register in them, and sends the requests. Returns the outcome and the files.
pub fn ask_files(
    alloc: Global,
    files: Disks,
    asked: Asked<'_>,
    told: &mut Sink,
) -> (Ending, Disks) {
    if !files.may_be_used() {
        return (Ending::Other, files);
    }
    match Connection::open_files(alloc, files, options(asked.room)) {
        Ok(conn) => {
            let (ending, conn) = ask_store(alloc, conn, asked, told);
            (ending, files_of(conn))
        }
        Err((error, left)) => (ending_of_open_error(error), left.into_files()),
    }
}

/// Opens a store in files that do not stop.
pub fn open_or_stop(alloc: Global, files: Disks, room: Room) -> Result<Connection<Store>, Stop> {
    if !files.may_be_used() {
        return Err(Stop::Call);
    }
    match Connection::open_files(alloc, files, options(room)) {
        Ok(conn) => Ok(conn),
        Err((error, _)) => Err(Stop::from(error)),
    }
}
