//! Reads the head at the front of a stream that arrives in chunks.
ghost use Rattle.std.specs.Prelude.{◌≡◌, ◌≤◌, ◌+◌, ℕ, List, length, vec_len, vec_capacity, IfOk, IfSome};
ghost use Rattle.std.specs.Io.KnownBytes.{IsAtEnd, prepend_known};
ghost use Rattle.httparse.specs.Grammar.{RequestHead};
ghost use Rattle.land_wire.specs.Framing.Reads.{FailsOnlyIfCalled, IsOutOfMemoryOnlyIfFull, LosesNoByte};
ghost use Rattle.land_wire.specs.Framing.Reads.{ReadsChunks, StaysWithin};
ghost use Rattle.land_wire.specs.Framing.Stream.{HasHead, IsHeadFaultOf, IsHeadIn, LastReadWasNeeded};
ghost use Rattle.land_wire.specs.Framing.Stream.{IsHeadParse};
ghost use Rattle.land_wire.specs.Framing.Stream.{field_room, max_head_length};

use crate::framing::frame_fault::FrameFault;
use crate::framing::target::ends_in_target;
use httparse::spans::{HeaderSpan, RequestSpans, parse_request};
use httparse::{Error, Status};
use land_streams::buffer::read_more;
use land_streams::counted_reader::CountedReader;
use land_streams::stream_fault::StreamFault;
use std::io::Read;

/// The maximum length of a head in bytes, with the empty lines before it.
pub const HEAD_LIMIT: usize = 8192;

/// The maximum number of fields in a head of `HEAD_LIMIT` bytes: each field has at least three bytes.
pub const FIELD_ROOM: usize = 2731;

/// The result of parsing a window.
#[derive(Clone, Copy, Debug, PartialEq, Eq)]
pub enum HeadParse {
    /// The window begins with a whole head.
    Whole(RequestSpans),
    /// The head is incomplete.
    More,
    /// The window is not a prefix of a head.
    Never,
}

/// The head at the front of a stream, or its fault.
#[derive(Clone, Copy, Debug, PartialEq, Eq)]
pub enum HeadResult {
    /// A whole head.
    Whole(RequestSpans),
    /// The fault `Head`, `HeadLong` or `Cut`.
    Fault(FrameFault),
}

/// Reads the head at the front of `buffer` followed by the rest of `reader`; the spans refer to the buffer.
///
/// Once a head or its fault is in the buffer, the reader is not called. Errors: those of `read_more`; the
/// bytes read so far remain in the buffer.
pub fn read_head<R: Read>(
    reader: &mut CountedReader<'_, R>,
    buffer: &mut Vec<u8>,
    headers: &mut [HeaderSpan],
) -> Result<HeadResult, StreamFault>
    requires { field_room ≤ length headers.old }
    ensures room { length headers.new ≡ length headers.old }
    ensures bound { ReadsChunks (length buffer.old.items) reader.old.left
        (length buffer.new.items) reader.new.left }
    ensures fewer { reader.new.left ≤ reader.old.left }
    ensures stream { LosesNoByte buffer.old.items (R.remaining reader.old.reader.now)
        buffer.new.items (R.remaining reader.new.reader.now) }
    ensures end { IfOk result (λ f. f ≡ HeadResult.Fault FrameFault.Cut
        → IsAtEnd (R.remaining reader.new.reader.now)) }
    ensures unread { (h : RequestHead) (rest : List ℕ) → HasHead buffer.old.items h rest
        → (reader.new ≡ reader.old) × (buffer.new.items ≡ buffer.old.items) }
    ensures ahead { length buffer.old.items ≤ 1024 → IfOk result (λ f. LastReadWasNeeded buffer.new.items) }
    ensures limit { StaysWithin (max_head_length + 1023) buffer.old.items buffer.new.items }
    ensures same_reference { reader.new.reader.ghost_name ≡ reader.old.reader.ghost_name }
    ensures whole { IfOk result (λ f. IsHeadIn buffer.new.items headers.new f) }
    ensures fault { IfOk result (λ f. IfSome
        (prepend_known buffer.new.items (R.remaining reader.new.reader.now))
        (λ stream. IsHeadFaultOf stream f)) }

    // Returns `NoMemory` only if the buffer had no capacity for a chunk, and `Read` only if the reader was
    // called, or its budget was spent.
    ensures memory { IsOutOfMemoryOnlyIfFull result (vec_len buffer.new) (vec_capacity buffer.new) }
    ensures failed { FailsOnlyIfCalled result reader.old.left reader.new.left
        (vec_len buffer.new) (vec_capacity buffer.new) }
{
    loop {
        let end = buffer.len().min(HEAD_LIMIT);
        match parse_head(&buffer[..end], headers) {
            HeadParse::Whole(spans) => return Ok(HeadResult::Whole(spans)),
            HeadParse::Never => return Ok(HeadResult::Fault(FrameFault::Head)),
            HeadParse::More => {}
        }
        if buffer.len() >= HEAD_LIMIT {
            return Ok(HeadResult::Fault(FrameFault::HeadLong));
        }
        match read_more(reader, buffer) {
            Err(fault) => return Err(fault),
            Ok(0) => return Ok(HeadResult::Fault(FrameFault::Cut)),
            Ok(_) => {}
        }
    }
}

/// Parses a window. `httparse` rejects a target that is not valid UTF-8 before the target's end was read, so
/// a window that ends inside a target counts as incomplete.
pub fn parse_head(window: &[u8], headers: &mut [HeaderSpan]) -> HeadParse
    requires small { length window.now ≤ max_head_length }
    requires room { field_room ≤ length headers.old }
    ensures { IsHeadParse window.now headers.new result }
{
    match parse_request(window, headers) {
        Ok(Status::Complete(spans)) => HeadParse::Whole(spans),
        Ok(Status::Partial) => HeadParse::More,
        Err(Error::TooManyHeaders) => unreachable!(),
        Err(_) if ends_in_target(window) => HeadParse::More,
        Err(_) => HeadParse::Never,
    }
}
