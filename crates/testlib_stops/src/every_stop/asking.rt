//! Replies to a change, and to a read after it, on a store that may stop.
use land_desk::serve::{DeskFault, Served, serve};
use land_keep::keeper::Keeper;
use std::alloc::Global;
use testlib_scenario::doubles::{ChunkReader, ClockReadings, Sink};
use testlib_scenario::talk::Transcript;

/// The reply of a keeper whose store fails. The connection closes.
const FAILED: &[u8] =
    b"HTTP/1.1 503 Service Unavailable\r\nContent-Type: application/json\r\nContent-Length: 13\r\nConnection: close\r\n\r\n{\"store\":502}";

/// The reply of a closed keeper. The connection closes.
const CLOSED: &[u8] =
    b"HTTP/1.1 503 Service Unavailable\r\nContent-Type: application/json\r\nContent-Length: 13\r\nConnection: close\r\n\r\n{\"store\":503}";

/// The end of an out-of-memory reply.
const NO_ROOM: &[u8] = b"{\"store\":501}";

/// The outcome of a change and of a read after it.
#[derive(Clone, Copy)]
pub enum Ending {
    /// The store was not opened, or refused, so that nothing was requested.
    Unasked,
    /// The change got 502, which closes the connection, and the next request 503.
    Failed,
    /// The change was done, the read got 502, which closes the connection, and the next request 503.
    Done,
    /// The change was done, and the read got its reply.
    ExpectedReply,
    /// Out of memory.
    AllocFailed,
    /// Any other outcome.
    Other,
}

/// Serves a stream from a keeper. Earlier replies are removed from the sink.
fn serve_stream<K: Keeper>(
    alloc: Global,
    keeper: &mut K,
    talk: &Transcript,
    told: &mut Sink,
) -> Result<Served, DeskFault> {
    told.taken.clear();
    let mut reader = ChunkReader {
        left: &talk.input,
        piece: 4096,
        reads: u64::MAX,
    };
    let mut clock = ClockReadings { left: &[] };
    serve(alloc, &mut reader, told, keeper, &mut clock)
}

/// Checks if the given number of requests were answered.
fn has_replies(serve_stream: &Result<Served, DeskFault>, replies: u64) -> bool {
    *serve_stream == Ok(Served { replies })
}

/// Checks if the change got its own reply, followed by the reply of a failed store.
fn is_done_then_failed(talk: &Transcript, written: &[u8]) -> bool {
    let Some(mark) = talk.marks.first() else {
        return false;
    };
    if talk.output.len() < mark.told {
        return false;
    }
    match written.strip_prefix(&talk.output.as_bytes()[..mark.told]) {
        Some(rest) => rest == FAILED,
        None => false,
    }
}

/// Determines the outcome from the replies.
fn ending_of(
    talk: &Transcript,
    serve_stream: &Result<Served, DeskFault>,
    written: &[u8],
) -> Ending {
    if written == talk.output.as_bytes() && has_replies(serve_stream, 2) {
        return Ending::ExpectedReply;
    }
    if written == FAILED && has_replies(serve_stream, 1) {
        return Ending::Failed;
    }
    if is_done_then_failed(talk, written) && has_replies(serve_stream, 2) {
        return Ending::Done;
    }
    if written.ends_with(NO_ROOM) || *serve_stream == Err(DeskFault::NoMemory) {
        return Ending::AllocFailed;
    }
    Ending::Other
}

/// Checks if a keeper is closed, and the next request gets 503, after which the connection closes.
fn is_closed<K: Keeper>(alloc: Global, keeper: &mut K, talk: &Transcript, told: &mut Sink) -> bool {
    let outcome = serve_stream(alloc, keeper, talk, told);
    keeper.is_closed() && told.taken.as_slice() == CLOSED && has_replies(&outcome, 1)
}

/// Sends a change and a read as one stream, and again if the store fails.
pub fn ask<K: Keeper>(alloc: Global, keeper: &mut K, talk: &Transcript, told: &mut Sink) -> Ending {
    let outcome = serve_stream(alloc, keeper, talk, told);
    let ending = ending_of(talk, &outcome, &told.taken);
    let is_well = match ending {
        Ending::Failed | Ending::Done => is_closed(alloc, keeper, talk, told),
        Ending::ExpectedReply => !keeper.is_closed(),
        _ => true,
    };
    if is_well { ending } else { Ending::Other }
}
