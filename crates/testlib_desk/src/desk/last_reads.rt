//! Requests after which the connection closes: the reader is not called again.
use crate::desk::office::{Office, is_out_of_memory, open_sink};
use land_desk::serve::Served;
use land_keep::plain_keeper::PlainKeeper;
use std::alloc::Global;
use testlib_scenario::doubles::ChunkReader;
use testlib_scenario::stop::{Stop, expect};
use testlib_scenario::talk::{ExpectedReply, Transcript};

/// Input in one chunk, and its fault, after which the connection closes.
struct Last(&'static [u8], u16);

/// Requests that close the connection, and bytes that are not a head.
const LAST: &[Last] = &[
    Last(b"GET / HTTP/1.0\r\n\r\n", 136),
    Last(b"GET / HTTP/1.1\r\nConnection: close\r\n\r\n", 136),
    Last(b"GET /a\x01", 140),
];

/// Checks that the item is served, and that the reader is called only once for it.
fn is_served_by_one_read(alloc: Global, row: &Last) -> Result<bool, Stop> {
    let mut talk = Transcript::new(alloc)?;
    talk.tell(ExpectedReply::Fault(row.1), true)?;
    let mut sink = open_sink(alloc, talk.output.len())?;
    let mut keeper = PlainKeeper::new(alloc)?;
    let mut office = Office::of(&mut keeper);
    let mut reader = ChunkReader {
        left: row.0,
        piece: 4096,
        reads: u64::MAX,
    };
    let served = office.serve_from(alloc, &mut reader, &mut sink);
    if is_out_of_memory(&served, &sink.taken, talk.output.as_bytes()) {
        return Err(Stop::Memory);
    }
    Ok(
        served == Ok(Served { replies: 1 })
            && sink.taken.as_slice() == talk.output.as_bytes()
            && reader.reads == u64::MAX - 1,
    )
}

/// Checks that a reader is not called after the last reply.
pub fn a_reader_is_not_called_after_the_last_reply(alloc: Global) -> Result<(), Stop> {
    for (place, row) in LAST.iter().enumerate() {
        expect(is_served_by_one_read(alloc, row)?, "last", place)?;
    }
    Ok(())
}
