//! Rows: requests that are run in order on a new register, each with its full reply.
use crate::asked::{RowAsk, ask};
use crate::stop::Stop;
use crate::told::is_told;
use land_core::ask::Request;
use land_core::caller::Caller;
use land_keep::clock::Clock;
use land_keep::machine::{are_well_formed, run};
use land_keep::plain_keeper::PlainKeeper;
use land_keep::reply::Reply;
use std::alloc::{AllocError, Global};

/// A reading of the clock, the caller, the request, and the reply in one line.
pub struct Row(pub i64, pub Caller, pub RowAsk, pub &'static str);

/// A clock that returns the rows' readings in order, and then 0.
#[derive(Drop)]
struct RowClock<'a> {
    rows: &'a [&'a Row],
    next: usize,
}

impl Clock for RowClock<'_> {
    ghost reads = { λ _ _ _. Unit {0} };

    fn read(&mut self) -> i64 {
        let place = self.next;
        self.next = place.saturating_add(1);
        match self.rows.get(place) {
            Some(row) => row.0,
            None => 0,
        }
    }
}

fn add_all<'a>(all: &mut Vec<&'a Row>, rows: &'a [Row]) -> Result<(), AllocError> {
    for row in rows {
        all.push(row)?;
    }
    Ok(())
}

/// Returns the rows of these parts, in order.
fn rows_of<'a>(alloc: Global, parts: &[&'a [Row]]) -> Result<Vec<&'a Row>, AllocError> {
    let mut all = Vec::new(alloc);
    for part in parts {
        add_all(&mut all, part)?;
    }
    Ok(all)
}

/// Returns the rows of the base and then these, in order.
fn all_of<'a>(
    alloc: Global,
    base: &[&'a [Row]],
    rows: &'a [Row],
) -> Result<Vec<&'a Row>, AllocError> {
    let mut all = rows_of(alloc, base)?;
    add_all(&mut all, rows)?;
    Ok(all)
}

pub fn request(alloc: Global, caller: Caller, it: &RowAsk) -> Result<Request, Stop> {
    Ok(Request {
        caller,
        ask: ask(alloc, it)?,
    })
}

fn requests(alloc: Global, rows: &[&Row]) -> Result<Vec<Request>, Stop> {
    let mut requests = Vec::new(alloc);
    for row in rows {
        requests.push(request(alloc, row.1, &row.2)?)?;
    }
    Ok(requests)
}

/// Returns the replies of a keeper to requests. The rows determine the readings of the clock.
fn replies_of_keeper(
    alloc: Global,
    keeper: &mut PlainKeeper,
    rows: &[&Row],
    requests: &[Request],
) -> Result<Vec<Reply>, Stop> {
    if !are_well_formed(requests) {
        return Err(Stop::Unmade("a request that is well formed"));
    }
    let mut clock = RowClock { rows, next: 0 };
    Ok(run(alloc, keeper, &mut clock, requests)?)
}

/// Returns the replies to requests on a new register. The rows determine the readings of the clock.
pub fn answered(alloc: Global, rows: &[&Row], requests: &[Request]) -> Result<Vec<Reply>, Stop> {
    let mut keeper = PlainKeeper::new(alloc)?;
    replies_of_keeper(alloc, &mut keeper, rows, requests)
}

/// Returns the index of the first row with a different reply, if any.
fn wrong_row(alloc: Global, rows: &[&Row], replies: &[Reply]) -> Result<Option<usize>, AllocError> {
    if rows.len() != replies.len() {
        return Ok(Some(replies.len()));
    }
    for (place, reply) in replies.iter().enumerate() {
        if !is_told(alloc, reply, rows[place].3)? {
            return Ok(Some(place));
        }
    }
    Ok(None)
}

fn wrong_reply(alloc: Global, rows: &[&Row], requests: &[Request]) -> Result<Option<usize>, Stop> {
    let replies = answered(alloc, rows, requests)?;
    Ok(wrong_row(alloc, rows, replies.as_slice())?)
}

fn first_wrong_row(alloc: Global, rows: &[&Row]) -> Result<Option<usize>, Stop> {
    let requests = requests(alloc, rows)?;
    wrong_reply(alloc, rows, requests.as_slice())
}

fn first_wrong_row_of_all(
    alloc: Global,
    base: &[&[Row]],
    rows: &[Row],
) -> Result<Option<usize>, Stop> {
    let rows = all_of(alloc, base, rows)?;
    first_wrong_row(alloc, rows.as_slice())
}

/// Runs rows on a keeper, and checks the replies in full.
fn play_over(alloc: Global, keeper: &mut PlainKeeper, rows: &[&Row]) -> Result<(), Stop> {
    let requests = requests(alloc, rows)?;
    let replies = replies_of_keeper(alloc, keeper, rows, requests.as_slice())?;
    match wrong_row(alloc, rows, replies.as_slice())? {
        Some(place) => Err(Stop::Mismatch("row", place)),
        None => Ok(()),
    }
}

/// Runs the rows of these parts on a keeper, and checks the replies in full.
fn play_parts(alloc: Global, keeper: &mut PlainKeeper, parts: &[&[Row]]) -> Result<(), Stop> {
    let rows = rows_of(alloc, parts)?;
    play_over(alloc, keeper, rows.as_slice())
}

/// Runs rows on a new keeper in order, checks the replies in full, and returns the keeper.
pub fn keeper_after(alloc: Global, parts: &[&[Row]]) -> Result<PlainKeeper, Stop> {
    let mut keeper = PlainKeeper::new(alloc)?;
    play_parts(alloc, &mut keeper, parts)?;
    Ok(keeper)
}

/// Runs the rows of the base and then these, in order, on a new register, and checks the replies in full. The
/// index in an error counts from the first row of the base.
pub fn play_rows(alloc: Global, base: &[&[Row]], rows: &[Row]) -> Result<(), Stop> {
    match first_wrong_row_of_all(alloc, base, rows)? {
        Some(place) => Err(Stop::Mismatch("row", place)),
        None => Ok(()),
    }
}
