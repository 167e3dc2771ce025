//! Reads the next item of a stream.
ghost use Rattle.std.specs.Prelude.{◌≡◌, ◌≤◌, ℕ, List, length, vec_len, vec_capacity, IfOk, IfSome};
ghost use Rattle.std.specs.Io.KnownBytes.{prepend_known};
ghost use Rattle.httparse.specs.Grammar.{RequestHead};
ghost use Rattle.land_wire.specs.Framing.Items.{next_of_fault, request, IsItem, IsNextIn, IsNextOf};
ghost use Rattle.land_wire.specs.Framing.Items.{ReadsUpTo};
ghost use Rattle.land_wire.specs.Framing.Reads.{FailsOnlyIfCalled, IsOutOfMemoryOnlyIfFull, LosesNoByte};
ghost use Rattle.land_wire.specs.Framing.Reads.{ReadsChunks, StaysWithin, input_limit};
ghost use Rattle.land_wire.specs.Framing.Stream.{field_room};

use crate::framing::frame_fault::FrameFault;
use crate::framing::framing::body_length_of;
use crate::framing::head::{HeadResult, read_head};
use httparse::spans::{HeaderSpan, RequestSpans};
use land_streams::buffer::read_to;
use land_streams::counted_reader::CountedReader;
use land_streams::stream_fault::StreamFault;
use std::io::Read;

/// The next item of a stream.
#[derive(Clone, Copy, Debug, PartialEq, Eq)]
pub enum NextItem {
    /// The end of the input.
    End,
    /// A framing fault, after which the rest is ignored.
    Fault(FrameFault),
    /// A whole request: the spans of its head, and the length of the body after it.
    Request(RequestSpans, usize),
}

/// Reads the first item of `buffer` followed by the rest of `reader`; the spans of a request refer to the
/// buffer.
///
/// Once a whole request or a fault is in the buffer, the reader is not called. Errors: those of the reader,
/// or out of memory; the bytes read so far remain in the buffer.
pub fn read_item<R: Read>(
    reader: &mut CountedReader<'_, R>,
    buffer: &mut Vec<u8>,
    headers: &mut [HeaderSpan],
) -> Result<NextItem, StreamFault>
    requires { field_room ≤ length headers.old }
    ensures room { length headers.new ≡ length headers.old }
    ensures bound { ReadsChunks (length buffer.old.items) reader.old.left
        (length buffer.new.items) reader.new.left }
    ensures fewer { reader.new.left ≤ reader.old.left }
    ensures stream { LosesNoByte buffer.old.items (R.remaining reader.old.reader.now)
        buffer.new.items (R.remaining reader.new.reader.now) }
    ensures unread { (h : RequestHead) (body rest : List ℕ)
        → IsItem buffer.old.items (request h body) rest → reader.new ≡ reader.old }
    ensures ahead { length buffer.old.items ≤ 1024 → IfOk result (λ f. ReadsUpTo buffer.new.items f) }
    ensures limit { StaysWithin input_limit buffer.old.items buffer.new.items }
    ensures same_reference { reader.new.reader.ghost_name ≡ reader.old.reader.ghost_name }
    ensures front { IfOk result (λ f. IsNextIn buffer.new.items headers.new f) }
    ensures item { IfOk result (λ f. IfSome
        (prepend_known buffer.new.items (R.remaining reader.new.reader.now))
        (λ stream. IsNextOf stream f)) }

    // Returns `NoMemory` only if the buffer had no capacity for a chunk, and `Read` only if the reader was
    // called, or its budget was spent.
    ensures memory { IsOutOfMemoryOnlyIfFull result (vec_len buffer.new) (vec_capacity buffer.new) }
    ensures failed { FailsOnlyIfCalled result reader.old.left reader.new.left
        (vec_len buffer.new) (vec_capacity buffer.new) }
{
    let spans = match read_head(reader, buffer, headers) {
        Err(fault) => return Err(fault),
        Ok(HeadResult::Fault(fault)) => return Ok(next_of_fault(fault, buffer.is_empty())),
        Ok(HeadResult::Whole(spans)) => spans,
    };
    let length = match body_length_of(&spans, buffer, headers) {
        Err(fault) => return Ok(NextItem::Fault(fault)),
        Ok(length) => length,
    };
    match read_to(reader, buffer, spans.len + length) {
        Err(fault) => Err(fault),
        Ok(false) => Ok(NextItem::Fault(FrameFault::Cut)),
        Ok(true) => Ok(NextItem::Request(spans, length)),
    }
}

/// Returns the item of a fault before the end of a head: the end, if the input is empty.
fn next_of_fault(fault: FrameFault, empty: bool) -> NextItem
    ensures { result ≡ next_of_fault fault empty }
{
    match fault {
        FrameFault::Cut if empty => NextItem::End,
        _ => NextItem::Fault(fault),
    }
}
