//! Registers before a change, in files, and the rows before it and after it.
use crate::every_stop::disks::{Disks, ENDLESS, Image};
use crate::every_stop::opening::{Room, Store, files_of, open_or_stop};
use crate::every_stop::rows::rows_at;
use land_core::limits::LAST_MOMENT;
use land_tables::table_keeper::TableKeeper;
use land_tables::tables::Tables;
use sqlite::{Alter, Connection, Error, MemStore};
use std::alloc::{AllocError, Global};
use testlib_scenario::looks::{expect_rows_after_more, expect_rows_after_steps};
use testlib_scenario::run_scenario::{play, play_more};
use testlib_scenario::scenario::{MORE, STEPS};
use testlib_scenario::stop::Stop;
use testlib_scenario::talk::{ExpectedReply, OFFICE, Row, Transcript};
use testlib_tables::cases::run_scenario::{adopt_or_stop, create_or_stop, tables_after_scenario};
use testlib_tables::tables::migrating::DOWNGRADE;

/// A change: the number of steps before it, the stamp of the last of them, and its own stamp.
pub struct Change {
    steps: usize,
    before: i64,
    after: i64,
}

pub const REGISTRATION: Change = Change {
    steps: 9,
    before: 1008,
    after: 1009,
};

/// The approval of a transfer.
pub const TRANSFER: Change = Change {
    steps: 13,
    before: 1012,
    after: 1013,
};

/// The approval of a subdivision.
pub const SUBDIVISION: Change = Change {
    steps: 17,
    before: 1016,
    after: 1017,
};

/// The approval of a merger.
pub const MERGER: Change = Change {
    steps: 19,
    before: 1018,
    after: 1019,
};

/// The sequel of the scenario.
const PLAYED: Change = Change {
    steps: 18,
    before: 1017,
    after: 1018,
};

/// The read after each change: the list of parties.
const LOOK: Row = Row(
    "GET /parties",
    OFFICE,
    b"",
    ExpectedReply::Shown(r#"{"numbers":[1,2,3,4,5,6,7]}"#),
);

/// Files that hold the register before a change, the rows before and after it, and requests for the change
/// and for a read after it.
#[derive(Drop)]
pub struct Story {
    pub files: Image,
    pub before: String,
    pub after: String,
    pub talk: Transcript,
}

/// Returns a step of the scenario, or of its sequel.
fn step(place: usize) -> Option<&'static Row> {
    match place.checked_sub(STEPS.len()) {
        None => STEPS.get(place),
        Some(later) => MORE.get(later),
    }
}

/// Returns the steps before a change, as requests.
fn steps_before(alloc: Global, change: &Change) -> Result<Transcript, AllocError> {
    let mut talk = Transcript::new(alloc)?;
    for place in 0..change.steps {
        if let Some(step) = step(place) {
            talk.ask("a step", place, step)?;
        }
    }
    Ok(talk)
}

/// Returns a change and a read, as requests.
fn asked(alloc: Global, change: &Change) -> Result<Transcript, AllocError> {
    let mut talk = Transcript::new(alloc)?;
    if let Some(step) = step(change.steps) {
        talk.ask("a change", change.steps, step)?;
    }
    talk.ask("a look", 0, &LOOK)?;
    Ok(talk)
}

/// Opens a store in new files that do not stop.
fn new_store(alloc: Global) -> Result<Connection<Store>, Stop> {
    let files = Image::empty(alloc).disks(alloc, ENDLESS)?;
    open_or_stop(alloc, files, Room::Tight)
}

/// Plays steps on tables, and returns their store.
fn play_over<S: Alter>(
    alloc: Global,
    tables: Tables<S>,
    steps: &Transcript,
) -> (Result<(), Stop>, Connection<S>) {
    let mut keeper = TableKeeper::new(tables);
    let done = play(alloc, &mut keeper, &[], steps);
    (done, keeper.into_tables().into_connection())
}

/// Returns files in which the steps before a change were played. The log holds the last step, which is not
/// yet in the database file.
fn files_after_steps(alloc: Global, change: &Change) -> Result<Disks, Stop> {
    let steps = steps_before(alloc, change)?;
    let (done, conn) = play_over(alloc, create_or_stop(new_store(alloc)?)?, &steps);
    let files = files_of(conn);
    done?;
    Ok(files)
}

fn image_before(alloc: Global, change: &Change) -> Result<Image, Stop> {
    let files = files_after_steps(alloc, change)?;
    Ok(Image::of(alloc, &files)?)
}

/// Returns files of schema version 1 in which the scenario was played. The log holds the conversion to that
/// version.
pub fn version_1_files(alloc: Global) -> Result<Image, Stop> {
    let files = files_after_steps(alloc, &PLAYED)?;
    let (done, conn) = downgrade(open_or_stop(alloc, files, Room::Ample)?);
    let files = files_of(conn);
    done?;
    Ok(Image::of(alloc, &files)?)
}

/// Converts a store to schema version 1, and returns it.
fn downgrade<S: Alter>(conn: Connection<S>) -> (Result<(), Error>, Connection<S>) {
    let mut conn = conn;
    let done = conn.execute_batch(DOWNGRADE);
    (done, conn)
}

/// Returns a store in memory after the scenario, and checks its rows.
fn known_steps(alloc: Global) -> Result<Connection<MemStore>, Stop> {
    let mut conn = tables_after_scenario(alloc)?.into_connection();
    expect_rows_after_steps(alloc, &mut conn)?;
    Ok(conn)
}

/// Returns a store in memory after the scenario's sequel, and checks its rows.
fn known_rows(alloc: Global) -> Result<Connection<MemStore>, Stop> {
    let mut keeper = TableKeeper::new(adopt_or_stop(alloc, known_steps(alloc)?)?);
    play_more(alloc, &mut keeper)?;
    let mut conn = keeper.into_tables().into_connection();
    expect_rows_after_more(alloc, &mut conn)?;
    Ok(conn)
}

fn known_at(alloc: Global, at: i64) -> Result<String, Stop> {
    let mut conn = known_rows(alloc)?;
    rows_at(alloc, &mut conn, at)
}

/// Returns a change, and the register before it.
pub fn story_of(alloc: Global, change: &Change) -> Result<Story, Stop> {
    Ok(Story {
        files: image_before(alloc, change)?,
        before: known_at(alloc, change.before)?,
        after: known_at(alloc, change.after)?,
        talk: asked(alloc, change)?,
    })
}

/// Reads all rows of the register in files, which are opened.
pub fn rows_in(alloc: Global, image: &Image) -> Result<String, Stop> {
    let conn = open_or_stop(alloc, image.disks(alloc, ENDLESS)?, Room::Ample)?;
    adopted_rows(alloc, conn)
}

/// Reads all rows of the register in a store, which is opened.
fn adopted_rows<S: Alter + Drop>(alloc: Global, conn: Connection<S>) -> Result<String, Stop> {
    let mut conn = adopt_or_stop(alloc, conn)?.into_connection();
    rows_at(alloc, &mut conn, LAST_MOMENT)
}
