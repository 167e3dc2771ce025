//! Readers and writers that fail at each byte of a small stream.
use crate::desk::long_requests::joined;
use crate::desk::office::{Office, common, is_out_of_memory, open_sink};
use land_desk::serve::{DeskFault, Served};
use land_keep::keeper::Keeper;
use land_keep::plain_keeper::PlainKeeper;
use land_streams::put::put;
use land_streams::send::send;
use std::alloc::Global;
use testlib_scenario::doubles::{ChunkReader, Sink};
use testlib_scenario::stop::{Stop, expect};
use testlib_scenario::talk::ExpectedReply::{Fault, Shown};
use testlib_scenario::talk::{ENROL, OFFICE, Row, Transcript};

/// Two parties are enrolled, with a request between them that changes nothing.
const ROWS: &[Row] = &[
    Row(
        "POST /acts/enrol",
        OFFICE,
        ENROL,
        Shown(r#"{"made":[2],"number":2,"stamp":1000}"#),
    ),
    Row("GET /", "", b"", Fault(136)),
    Row(
        "POST /acts/enrol",
        OFFICE,
        ENROL,
        Shown(r#"{"made":[3],"number":3,"stamp":1001}"#),
    ),
];

/// Returns the stamp of the last change after this number of rows.
fn last_after(rows: usize) -> i64 {
    match rows {
        0 => 0,
        1 | 2 => 1000,
        _ => 1001,
    }
}

/// The result of serving, and the stamp of the last change.
#[derive(Clone, Copy)]
struct ServeOutcome {
    served: Result<Served, DeskFault>,
    last: i64,
}

/// Serves the rows one byte at a time, with a limited number of reads.
fn serve_rows(
    alloc: Global,
    talk: &Transcript,
    reads: u64,
    sink: &mut Sink,
) -> Result<ServeOutcome, Stop> {
    let mut keeper = PlainKeeper::new(alloc)?;
    let mut office = Office::of(&mut keeper);
    let reader = ChunkReader {
        left: talk.input.as_slice(),
        piece: 1,
        reads,
    };
    let served = office.serve(alloc, reader, sink);
    if is_out_of_memory(&served, &sink.taken, talk.output.as_bytes()) {
        return Err(Stop::Memory);
    }
    Ok(ServeOutcome {
        served,
        last: office.keeper.last(),
    })
}

/// Returns the number of rows whose input is within this number of bytes.
fn rows_within(talk: &Transcript, bytes: usize) -> usize {
    talk.marks.iter().filter(|mark| mark.asked <= bytes).count()
}

/// Returns the end of the output of these rows.
fn end_of(talk: &Transcript, rows: usize) -> usize {
    match talk.marks.iter().take(rows).last() {
        Some(mark) => mark.told,
        None => 0,
    }
}

/// Checks that a reader that fails after this number of bytes has only the whole requests answered and
/// executed.
fn is_unread(alloc: Global, talk: &Transcript, bytes: usize) -> Result<bool, Stop> {
    let mut sink = open_sink(alloc, talk.output.len())?;
    let left = serve_rows(alloc, talk, bytes as u64, &mut sink)?;
    let rows = rows_within(talk, bytes);
    let answered = end_of(talk, rows);
    Ok(
        left.served == Err(DeskFault::Read)
            && left.last == last_after(rows)
            && sink.taken.len() == answered
            && common(&sink.taken, talk.output.as_bytes()) == answered,
    )
}

/// Checks readers that fail after each byte of the stream, including the last one.
pub fn readers_fail_at_each_byte(alloc: Global) -> Result<(), Stop> {
    let mut talk = Transcript::new(alloc)?;
    talk.ask_all("rows", ROWS)?;
    for bytes in 0..=talk.input.len() {
        expect(is_unread(alloc, &talk, bytes)?, "read", bytes)?;
    }
    Ok(())
}

/// Checks that a writer that accepts this number of bytes, one at a time, has exactly those, and that each
/// change whose reply was begun is durable.
fn is_unwritten(alloc: Global, talk: &Transcript, bytes: usize, fails: bool) -> Result<bool, Stop> {
    let mut sink = open_sink(alloc, talk.output.len())?;
    sink.piece = 1;
    sink.writes = bytes;
    sink.fails = fails;
    let left = serve_rows(alloc, talk, u64::MAX, &mut sink)?;
    let whole = talk
        .marks
        .iter()
        .filter(|mark| mark.told <= sink.taken.len())
        .count();
    // An unsent reply of 501 looks the same to the writer.
    if left.last < last_after(whole.saturating_add(1)) {
        return Err(Stop::Memory);
    }
    Ok(
        left.served == Err(DeskFault::Write)
            && left.last == last_after(whole.saturating_add(1))
            && sink.taken.len() == bytes
            && common(&sink.taken, talk.output.as_bytes()) == bytes,
    )
}

/// Checks writers that fail, or accept nothing, after each byte of the output except the last.
pub fn writers_fail_at_each_byte(alloc: Global) -> Result<(), Stop> {
    let mut talk = Transcript::new(alloc)?;
    talk.ask_all("rows", ROWS)?;
    for bytes in 0..talk.output.len() {
        for fails in [false, true] {
            expect(is_unwritten(alloc, &talk, bytes, fails)?, "write", bytes)?;
        }
    }
    Ok(())
}

/// The number of times that a writer accepts three bytes of eight, and the result.
struct Sending {
    writes: usize,
    sent: Result<(), usize>,
    taken: &'static [u8],
}

const SENDINGS: &[Sending] = &[
    Sending {
        writes: 0,
        sent: Err(0),
        taken: b"",
    },
    Sending {
        writes: 2,
        sent: Err(6),
        taken: b"abcdef",
    },
    Sending {
        writes: 3,
        sent: Ok(()),
        taken: b"abcdefgh",
    },
];

fn is_sent(alloc: Global, row: &Sending, fails: bool) -> Result<bool, Stop> {
    let mut sink = Sink {
        taken: Vec::with_capacity(alloc, 8)?,
        piece: 3,
        writes: row.writes,
        fails,
        is_ended: false,
    };
    Ok(
        send(&mut sink, b"abcdefgh") == row.sent
            && sink.taken.as_slice() == row.taken
            && send(&mut sink, b"") == Ok(()),
    )
}

/// Checks that bytes are sent, or only a prefix of them if a writer fails or accepts none.
pub fn bytes_are_sent(alloc: Global) -> Result<(), Stop> {
    for (place, row) in SENDINGS.iter().enumerate() {
        for fails in [false, true] {
            expect(is_sent(alloc, row, fails)?, "sending", place)?;
        }
    }
    Ok(())
}

/// Lengths above 64 KiB and above one mebibyte.
const LONG_LENGTHS: &[usize] = &[65_537, 1_048_577];

fn is_long_piece_sent(alloc: Global, length: usize) -> Result<bool, Stop> {
    let bytes = joined(alloc, b"", b"x", length, b"")?;
    let mut sink = Sink {
        taken: Vec::with_capacity(alloc, length.saturating_mul(2))?,
        piece: 4096,
        writes: usize::MAX,
        fails: false,
        is_ended: false,
    };
    let is_sent = send(&mut sink, &bytes) == Ok(());
    let written = put(&mut sink, 5, &bytes);
    let total = (length as u64).saturating_add(5);
    Ok(
        is_sent
            && written == Ok(total)
            && sink.taken.len() == length.saturating_mul(2)
            && sink.taken.starts_with(&bytes)
            && sink.taken.ends_with(&bytes),
    )
}

/// Checks that a long text is written completely.
pub fn long_pieces_are_sent(alloc: Global) -> Result<(), Stop> {
    for length in LONG_LENGTHS {
        expect(is_long_piece_sent(alloc, *length)?, "length", *length)?;
    }
    Ok(())
}
