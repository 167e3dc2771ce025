//! Changes on two files of which one stops: after none of its calls, after one, after two, until a run is not
//! stopped.
use crate::every_stop::asking::Ending;
use crate::every_stop::disks::{Disks, Fuses, Image, have_stopped, lose_power};
use crate::every_stop::opening::{Asked, Room, Way, ask_files};
use crate::every_stop::registers::{
    Change, MERGER, REGISTRATION, SUBDIVISION, Story, TRANSFER, rows_in, story_of,
};
use std::alloc::Global;
use testlib_scenario::doubles::Sink;
use testlib_scenario::run_scenario::open_sink;
use testlib_scenario::stop::{Stop, expect};

/// A run is not stopped if a file may make this many calls.
pub(crate) const MAX_CALLS: u64 = 100000;

/// The file that stops.
#[derive(Clone, Copy)]
pub(crate) enum Which {
    Log,
    Database,
}

/// Returns fuses that stop one file after a number of calls, and never the other one.
pub(crate) fn fuses_for(which: Which, calls: u64) -> Fuses {
    match which {
        Which::Log => Fuses {
            log: calls,
            db: u64::MAX,
        },
        Which::Database => Fuses {
            log: u64::MAX,
            db: calls,
        },
    }
}

/// Whether files hold the register from before a change, or from after it.
#[derive(Clone, Copy)]
struct HeldRegister {
    is_before: bool,
    is_after: bool,
}

fn held_by_image(alloc: Global, image: &Image, story: &Story) -> Result<HeldRegister, Stop> {
    let rows = rows_in(alloc, image)?;
    Ok(HeldRegister {
        is_before: rows.as_str() == story.before.as_str(),
        is_after: rows.as_str() == story.after.as_str(),
    })
}

/// Returns which register the files hold now.
fn held_by_files(alloc: Global, files: &Disks, story: &Story) -> Result<HeldRegister, Stop> {
    let image = Image::of(alloc, files)?;
    held_by_image(alloc, &image, story)
}

/// Checks if that register is allowed, by the outcome of the change.
fn is_allowed_after(ending: Ending, held: HeldRegister) -> bool {
    match ending {
        Ending::Unasked => held.is_before,
        Ending::Failed => held.is_before || held.is_after,
        Ending::Done | Ending::ExpectedReply => held.is_after,
        Ending::AllocFailed | Ending::Other => false,
    }
}

fn is_answered(ending: Ending) -> bool {
    match ending {
        Ending::ExpectedReply => true,
        _ => false,
    }
}

fn is_failed(ending: Ending) -> bool {
    match ending {
        Ending::Failed => true,
        _ => false,
    }
}

/// A change, and the files on which it is requested.
#[derive(Clone, Copy)]
struct StopCase<'a> {
    story: &'a Story,
    asked: Asked<'a>,
    which: Which,
}

/// Checks the content of the files after the death of the process, and then after a power failure.
fn look_at_files(
    alloc: Global,
    story: &Story,
    ending: Ending,
    files: &mut Disks,
    calls: usize,
) -> Result<(), Stop> {
    let register_with_retries = held_by_files(alloc, files, story)?;
    expect(
        is_allowed_after(ending, register_with_retries),
        "what was written",
        calls,
    )?;
    lose_power(files);
    let synced = held_by_files(alloc, files, story)?;
    expect(is_allowed_after(ending, synced), "what was synced", calls)
}

/// Requests the change on files of which one stops after a number of calls. Returns the outcome, and whether
/// the file stopped.
fn run(
    alloc: Global,
    trial: StopCase<'_>,
    calls: u64,
    told: &mut Sink,
) -> Result<(Ending, bool), Stop> {
    let files = trial
        .story
        .files
        .disks(alloc, fuses_for(trial.which, calls))?;
    let (ending, left) = ask_files(alloc, files, trial.asked, told);
    let mut files = left;
    if let Ending::AllocFailed = ending {
        return Err(Stop::Memory);
    }
    let is_stopped = have_stopped(&mut files);
    look_at_files(alloc, trial.story, ending, &mut files, calls as usize)?;
    Ok((ending, is_stopped))
}

/// Stops the file after each number of calls, until a run is not stopped, in which all requests get their
/// replies. Returns the number of runs in which the store failed at the change.
fn count_failed(alloc: Global, trial: StopCase<'_>, told: &mut Sink) -> Result<u64, Stop> {
    let mut failed = 0u64;
    for calls in 0..MAX_CALLS {
        let (ending, is_stopped) = run(alloc, trial, calls, told)?;
        if !is_stopped {
            expect(is_answered(ending), "a run with no stop", calls as usize)?;
            return Ok(failed);
        }
        if is_failed(ending) {
            failed = failed.saturating_add(1);
        }
    }
    Err(Stop::Mismatch("a run with no stop", 0))
}

/// Stops the log, and then the database file. The store fails at the change at least if the log stops.
fn each_file_stops(alloc: Global, story: &Story, asked: Asked<'_>) -> Result<(), Stop> {
    let mut told = open_sink(alloc, 4096)?;
    let mut trial = StopCase {
        story,
        asked,
        which: Which::Log,
    };
    expect(count_failed(alloc, trial, &mut told)? > 0, "failed", 0)?;
    trial.which = Which::Database;
    count_failed(alloc, trial, &mut told)?;
    Ok(())
}

/// Stops files in a store that is opened as the program opens it, and in one with a small cache.
fn stops(alloc: Global, change: &Change, way: Way) -> Result<(), Stop> {
    let story = story_of(alloc, change)?;
    let mut asked = Asked {
        way,
        room: Room::Ample,
        talk: &story.talk,
    };
    each_file_stops(alloc, &story, asked)?;
    asked.room = Room::Tight;
    each_file_stops(alloc, &story, asked)
}

/// A registration, with whole tables.
pub fn a_registration_over_tables(alloc: Global) -> Result<(), Stop> {
    stops(alloc, &REGISTRATION, Way::Tables)
}

/// The same, with queries.
pub fn a_registration_over_joins(alloc: Global) -> Result<(), Stop> {
    stops(alloc, &REGISTRATION, Way::Joins)
}

/// The approval of a transfer, with whole tables.
pub fn a_transfer_over_tables(alloc: Global) -> Result<(), Stop> {
    stops(alloc, &TRANSFER, Way::Tables)
}

/// The same, with queries.
pub fn a_transfer_over_joins(alloc: Global) -> Result<(), Stop> {
    stops(alloc, &TRANSFER, Way::Joins)
}

/// The approval of a subdivision, with whole tables.
pub fn a_subdivision_over_tables(alloc: Global) -> Result<(), Stop> {
    stops(alloc, &SUBDIVISION, Way::Tables)
}

/// The same, with queries.
pub fn a_subdivision_over_joins(alloc: Global) -> Result<(), Stop> {
    stops(alloc, &SUBDIVISION, Way::Joins)
}

/// The approval of a merger, with whole tables.
pub fn a_merger_over_tables(alloc: Global) -> Result<(), Stop> {
    stops(alloc, &MERGER, Way::Tables)
}

/// The same, with queries.
pub fn a_merger_over_joins(alloc: Global) -> Result<(), Stop> {
    stops(alloc, &MERGER, Way::Joins)
}
