//! A store that fails while several connections are open.
use crate::conclusion::conclude;
use crate::one_run::{OneRun, Outcome, Talk, scripts, serve_scripts};
use crate::requests::{BEN, CARLA, DORA, EMIL, LIST};
use land_keep::keeper::Keeper;
use land_pool::pool::PoolFault;
use land_tables::table_keeper::TableKeeper;
use land_tables::tables::Tables;
use sqlite::{Connection, Error, ErrorCode, FileStore, Files, Options};
use sqlite_disk::{Fuse, Memory};
use std::alloc::Global;
use std::test::Fail;
use testlib_scenario::first::ENROL_ANNA_REQUEST;
use testlib_scenario::stop::{Stop, expect};

/// A store in two files in memory, of which the log stops after a number of calls.
type Store = FileStore<Fuse<Memory>>;

/// A run is not stopped if the log may make this many calls.
const MAX_CALLS: u64 = 10_000;

const TALKS: &[Talk] = &[
    Talk {
        requests: &[ENROL_ANNA_REQUEST, LIST, BEN],
        last: b"",
    },
    Talk {
        requests: &[LIST],
        last: b"",
    },
    Talk {
        requests: &[CARLA, DORA, EMIL, LIST],
        last: b"",
    },
];

/// The reply of a keeper whose store fails. The connection closes.
const FAILED: &[u8] =
    b"HTTP/1.1 503 Service Unavailable\r\nContent-Type: application/json\r\nContent-Length: 13\r\nConnection: close\r\n\r\n{\"store\":502}";

const NOTHING: &[u8] = b"";

/// Creates a register in a store whose log stops after a number of calls, or returns `None` if that is too
/// early.
fn new_tables(alloc: Global, calls: u64) -> Result<Option<Tables<Store>>, Stop> {
    let files = Files {
        log: Fuse::new(Memory::new(alloc), calls),
        db: Fuse::new(Memory::new(alloc), u64::MAX),
    };
    if !files.may_be_used() {
        return Err(Stop::Call);
    }
    let conn = match Connection::open_files(alloc, files, Options::new(1)) {
        Ok(conn) => conn,
        Err((Error::SqliteFailure(ErrorCode::OutOfMemory), _)) => return Err(Stop::Memory),
        Err(_) => return Ok(None),
    };
    match Tables::create(conn) {
        Ok(tables) => Ok(Some(tables)),
        Err((_, fault)) => match Stop::from(fault) {
            Stop::Memory => Err(Stop::Memory),
            _ => Ok(None),
        },
    }
}

/// Checks a run in which the store failed at the last request that was served: this request has 502 as its
/// reply, and its connection is complete. Each request before it has its own reply, and no other byte was
/// written.
fn expect_failed(alloc: Global, outcome: &Outcome) -> Result<(), Stop> {
    let Some((last, before)) = outcome.served.split_last() else {
        return Err(Stop::Mismatch("no request was served", 0));
    };
    let mut run = OneRun::new(alloc, TALKS, &outcome.outputs)?;
    for number in before {
        run.expect_item(alloc, *number)?;
    }
    for number in 0..TALKS.len() {
        let rest = if number == *last { FAILED } else { NOTHING };
        run.expect_rest(number, rest)?;
    }
    for ending in &outcome.endings {
        expect(ending.complete, "a complete connection", ending.number)?;
    }
    let ended = outcome
        .endings
        .iter()
        .filter(|ending| ending.number == *last)
        .count();
    expect(ended == 1, "the connection of the last request", *last)
}

/// Serves the connections with a store whose log stops after this number of calls. Returns whether it failed,
/// or `None` if the store was not created.
fn serve_failing(alloc: Global, calls: u64) -> Result<Option<bool>, Stop> {
    let Some(tables) = new_tables(alloc, calls)? else {
        return Ok(None);
    };
    let mut keeper = TableKeeper::new(tables);
    let scripts = scripts(alloc, TALKS, &[], &[])?;
    let outcome = serve_scripts(alloc, scripts, &[], TALKS.len(), &mut keeper)?;
    if !keeper.is_closed() {
        expect(outcome.result == Ok(()), "the result", calls as usize)?;
        return Ok(Some(false));
    }
    expect(
        outcome.result == Err(PoolFault::Closed),
        "the result",
        calls as usize,
    )?;
    expect_failed(alloc, &outcome)?;
    Ok(Some(true))
}

/// Stops the log after each number of calls, until a run does not fail.
fn each_call(alloc: Global) -> Result<(), Stop> {
    let mut failed = 0usize;
    for calls in 0..MAX_CALLS {
        match serve_failing(alloc, calls)? {
            None => {}
            Some(true) => failed = failed.saturating_add(1),
            // Each of the five changes writes to the log.
            Some(false) => return expect(failed >= 5, "runs that failed", failed),
        }
    }
    Err(Stop::Mismatch("a run that does not fail", 0))
}

#[test]
fn a_failed_store_ends_the_service(rt: HostRuntime) -> Result<(), Fail> {
    conclude(&rt, each_call(rt.alloc()))
}
