//! A request in which an allocation may fail.
use crate::growths::marks::{mark, mark_end};
use crate::serving::serve_stream;
use land_desk::serve::{DeskFault, Served};
use land_keep::keeper::Keeper;
use std::alloc::{AllocError, Global};
use testlib_scenario::doubles::Sink;
use testlib_scenario::run_scenario::{open_sink, play};
use testlib_scenario::scenario::{MORE, STEPS};
use testlib_scenario::stop::{Stop, expect};
use testlib_scenario::talk::{Row, Transcript};

/// The reply of error 501. The connection stays open.
const NO_ROOM: &[u8] =
    b"HTTP/1.1 503 Service Unavailable\r\nContent-Type: application/json\r\nContent-Length: 13\r\n\r\n{\"store\":501}";

/// Returns a step of the scenario, or a later one.
fn step(place: usize) -> Option<&'static Row> {
    match place.checked_sub(STEPS.len()) {
        None => STEPS.get(place),
        Some(later) => MORE.get(later),
    }
}

/// Returns a range of steps, as requests.
fn some_steps(alloc: Global, first: usize, end: usize) -> Result<Transcript, AllocError> {
    let mut talk = Transcript::new(alloc)?;
    for place in first..end {
        if let Some(step) = step(place) {
            talk.ask("a step", place, step)?;
        }
    }
    Ok(talk)
}

/// Plays a range of steps.
fn play_steps<K: Keeper>(
    alloc: Global,
    keeper: &mut K,
    first: usize,
    end: usize,
) -> Result<(), Stop> {
    let talk = some_steps(alloc, first, end)?;
    play(alloc, keeper, &[], &talk)
}

/// Checks if the service answered only one request, after which it may be out of memory for more input.
fn ended(served: &Result<Served, DeskFault>) -> bool {
    *served == Ok(Served { replies: 1 }) || *served == Err(DeskFault::NoMemory)
}

/// Checks if the request got its own reply. Returns an error for any reply but that and 501.
fn got_its_own(
    talk: &Transcript,
    served: &Result<Served, DeskFault>,
    taken: &[u8],
) -> Result<bool, Stop> {
    if taken == talk.output.as_bytes() && ended(served) {
        return Ok(true);
    }
    let has_expected_reply = taken == NO_ROOM && ended(served);
    let is_cut = taken.is_empty() && *served == Err(DeskFault::NoMemory);
    expect(
        has_expected_reply || is_cut,
        "its own reply, or none for want of memory",
        0,
    )?;
    Ok(false)
}

/// Sends a step between two printed lines, and checks if it got its own reply.
fn asked<K: Keeper>(
    rt: &impl Print,
    alloc: Global,
    keeper: &mut K,
    place: usize,
) -> Result<bool, Stop> {
    let talk = some_steps(alloc, place, place.saturating_add(1))?;
    let mut told = open_sink(alloc, talk.output.len())?;
    mark(rt, "a request")?;
    let served = serve_stream(alloc, keeper, &talk.input, &mut told);
    mark_end(rt)?;
    got_its_own(&talk, &served, &told.taken)
}

/// Sends a step after those before it. If it did not get its own reply, the latest stamp is unchanged, and
/// the step is sent again. Then the next step gets its own reply, with the numbers and the stamp that follow.
pub fn is_asked<K: Keeper>(
    rt: &impl Print,
    alloc: Global,
    keeper: &mut K,
    place: usize,
) -> Result<(), Stop> {
    let next = place.saturating_add(1);
    play_steps(alloc, keeper, 0, place)?;
    let last = keeper.last();
    if asked(rt, alloc, keeper, place)? {
        return play_steps(alloc, keeper, next, next.saturating_add(1));
    }
    expect(keeper.last() == last, "the last stamp", place)?;
    play_steps(alloc, keeper, place, next.saturating_add(1))
}
