//! Runs the scenario on a keeper.
use crate::doubles::{ChunkReader, ClockReadings, Sink};
use crate::scenario::{MORE, STEPS};
use crate::stop::Stop;
use crate::talk::{Row, Transcript, common};
use land_desk::serve::{DeskFault, Served, serve};
use land_keep::keeper::Keeper;
use land_keep::plain_keeper::PlainKeeper;
use std::alloc::{AllocError, Global};

/// The head of the response for 501, after its first 9 bytes.
const HEAD_OF_501: &[u8] =
    b"503 Service Unavailable\r\nContent-Type: application/json\r\nContent-Length: 13\r\n\r\n";

/// The same, if the connection closes after it.
const CLOSING_HEAD_OF_501: &[u8] =
    b"503 Service Unavailable\r\nContent-Type: application/json\r\nContent-Length: 13\r\nConnection: close\r\n\r\n";

/// Checks for such a head with its body, or without it as for a HEAD request.
fn is_501_response(rest: &[u8], head: &[u8]) -> bool {
    match rest.strip_prefix(head) {
        Some(text) => {
            text.is_empty()
                || text.starts_with(b"{\"store\":501}")
                || text.starts_with(b"HTTP/1.1 ")
        }
        None => false,
    }
}

/// Checks whether serving ran out of memory, or the first unexpected reply is 501.
pub fn ran_out_of_memory(served: &Result<Served, DeskFault>, taken: &[u8], wanted: &[u8]) -> bool {
    if *served == Err(DeskFault::NoMemory) {
        return true;
    }
    let same = common(taken, wanted);
    if taken.len() < same {
        return false;
    }
    let rest = &taken[same..];
    is_501_response(rest, HEAD_OF_501) || is_501_response(rest, CLOSING_HEAD_OF_501)
}

/// Creates a writer that accepts everything, three bytes at a time, with capacity for one more reply than
/// expected.
pub fn open_sink(alloc: Global, wanted: usize) -> Result<Sink, AllocError> {
    Ok(Sink {
        taken: Vec::with_capacity(alloc, wanted.saturating_add(2048))?,
        piece: 3,
        writes: usize::MAX,
        fails: false,
        is_ended: false,
    })
}

/// Serves a stream on a keeper.
fn served<K: Keeper>(
    alloc: Global,
    keeper: &mut K,
    clock: &mut ClockReadings,
    input: &[u8],
    sink: &mut Sink,
) -> Result<Served, DeskFault> {
    let mut reader = ChunkReader {
        left: input,
        piece: 4096,
        reads: u64::MAX,
    };
    serve(alloc, &mut reader, sink, keeper, clock)
}

/// Runs requests on a keeper and checks each reply. The clock reads these moments in order, and then always
/// 1000.
pub fn play<K: Keeper>(
    alloc: Global,
    keeper: &mut K,
    clock: &'static [i64],
    talk: &Transcript,
) -> Result<(), Stop> {
    let mut clock = ClockReadings { left: clock };
    let mut sink = open_sink(alloc, talk.output.len())?;
    let served = served(alloc, keeper, &mut clock, &talk.input, &mut sink);
    if ran_out_of_memory(&served, &sink.taken, talk.output.as_bytes()) {
        return Err(Stop::Memory);
    }
    match talk.first_mismatch(&served, &sink.taken) {
        Some((name, place)) => Err(Stop::Mismatch(name, place)),
        None => Ok(()),
    }
}

/// Runs rows on a keeper. The clock always reads 1000.
fn play_rows<K: Keeper>(
    alloc: Global,
    keeper: &mut K,
    name: &'static str,
    rows: &[Row],
) -> Result<(), Stop> {
    let mut talk = Transcript::new(alloc)?;
    talk.ask_all(name, rows)?;
    play(alloc, keeper, &[], &talk)
}

/// Runs `STEPS` on a keeper.
pub fn play_steps<K: Keeper>(alloc: Global, keeper: &mut K) -> Result<(), Stop> {
    play_rows(alloc, keeper, "the scenario", STEPS)
}

/// Runs `MORE` on a keeper, after `STEPS`.
pub fn play_more<K: Keeper>(alloc: Global, keeper: &mut K) -> Result<(), Stop> {
    play_rows(alloc, keeper, "after the scenario", MORE)
}

/// Runs the first step of the scenario.
pub fn play_first<K: Keeper>(alloc: Global, keeper: &mut K) -> Result<(), Stop> {
    let mut talk = Transcript::new(alloc)?;
    if let Some(step) = STEPS.first() {
        talk.ask("the scenario", 0, step)?;
    }
    play(alloc, keeper, &[], &talk)
}

/// Returns a plain keeper after `STEPS`.
pub fn plain(alloc: Global) -> Result<PlainKeeper, Stop> {
    let mut keeper = PlainKeeper::new(alloc)?;
    play_steps(alloc, &mut keeper)?;
    Ok(keeper)
}

/// Returns a plain keeper after `STEPS` and `MORE`.
pub fn plain_more(alloc: Global) -> Result<PlainKeeper, Stop> {
    let mut keeper = plain(alloc)?;
    play_more(alloc, &mut keeper)?;
    Ok(keeper)
}
