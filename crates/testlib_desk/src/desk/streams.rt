//! Streams and their items, worked out by hand.
ghost use Rattle.land_wire.specs.Framing.Items.{IsRequestIn};

use crate::desk::long_requests::joined;
use crate::desk::office::is_reply_as_expected;
use httparse::spans::{EMPTY_HEADER_SPAN, HeaderSpan, RequestSpans};
use land_streams::buffer::consume_front;
use land_streams::counted_reader::CountedReader;
use land_streams::stream_fault::StreamFault;
use land_wire::framing::connection::{is_head, wants_close};
use land_wire::framing::head::FIELD_ROOM;
use land_wire::framing::item::{NextItem, read_item};
use land_wire::framing::listing::item_count;
use std::alloc::{AllocError, Global};
use std::io::Read;
use testlib_scenario::doubles::ChunkReader;
use testlib_scenario::stop::{Stop, expect};
use testlib_scenario::talk::ExpectedReply;

/// A whole request, by its bytes.
struct Request {
    method: &'static [u8],
    target: &'static [u8],
    body: &'static [u8],
    is_head: bool,
    is_last: bool,
}

/// The first item of a stream.
enum Item {
    /// The end of the input.
    End,
    /// A framing fault, by its number.
    Fault(u16),
    /// A whole request.
    Request(Request),
}

/// A stream, and its items, the last of which may be a fault.
struct Stream {
    bytes: &'static [u8],
    items: &'static [Item],
}

const GET: Item = Item::Request(Request {
    method: b"GET",
    target: b"/",
    body: b"",
    is_head: false,
    is_last: false,
});

const LAST_GET: Item = Item::Request(Request {
    method: b"GET",
    target: b"/",
    body: b"",
    is_head: false,
    is_last: true,
});

const POST: Item = Item::Request(Request {
    method: b"POST",
    target: b"/",
    body: b"",
    is_head: false,
    is_last: false,
});

const POST_X: Item = Item::Request(Request {
    method: b"POST",
    target: b"/",
    body: b"x",
    is_head: false,
    is_last: false,
});

const STREAMS: &[Stream] = &[
    Stream {
        bytes: b"",
        items: &[Item::End],
    },
    Stream {
        bytes: b"GET /parties HTTP/1.1\r\n\r\n",
        items: &[
            Item::Request(Request {
                method: b"GET",
                target: b"/parties",
                body: b"",
                is_head: false,
                is_last: false,
            }),
            Item::End,
        ],
    },
    Stream {
        bytes: b"\r\n\nGET / HTTP/1.1\n\n",
        items: &[GET, Item::End],
    },
    Stream {
        bytes: b"POST /a HTTP/1.1\r\nContent-Length: 5\r\n\r\nhelloGET /b HTTP/1.1\r\n\r\n",
        items: &[
            Item::Request(Request {
                method: b"POST",
                target: b"/a",
                body: b"hello",
                is_head: false,
                is_last: false,
            }),
            Item::Request(Request {
                method: b"GET",
                target: b"/b",
                body: b"",
                is_head: false,
                is_last: false,
            }),
            Item::End,
        ],
    },
    Stream {
        bytes: b"GET /a HTTP/1.1\r\nCONTENT-length:\t003 \r\n\r\nabcGET /b HTTP/1.1\r\n\r\n",
        items: &[
            Item::Request(Request {
                method: b"GET",
                target: b"/a",
                body: b"abc",
                is_head: false,
                is_last: false,
            }),
            Item::Request(Request {
                method: b"GET",
                target: b"/b",
                body: b"",
                is_head: false,
                is_last: false,
            }),
            Item::End,
        ],
    },
    Stream {
        bytes: b"HEAD /a HTTP/1.1\r\n\r\nhead /b HTTP/1.1\r\n\r\nHEADS / HTTP/1.1\r\n\r\n",
        items: &[
            Item::Request(Request {
                method: b"HEAD",
                target: b"/a",
                body: b"",
                is_head: true,
                is_last: false,
            }),
            Item::Request(Request {
                method: b"head",
                target: b"/b",
                body: b"",
                is_head: false,
                is_last: false,
            }),
            Item::Request(Request {
                method: b"HEADS",
                target: b"/",
                body: b"",
                is_head: false,
                is_last: false,
            }),
            Item::End,
        ],
    },
    Stream {
        bytes: b"GET /a HTTP/1.0\r\n\r\nGET /b HTTP/1.1\r\n\r\n",
        items: &[Item::Request(Request {
            method: b"GET",
            target: b"/a",
            body: b"",
            is_head: false,
            is_last: true,
        })],
    },
    Stream {
        bytes: b"G",
        items: &[Item::Fault(144)],
    },
    Stream {
        bytes: b"GET /a HTTP/1.1\r\nHost: a\r\n",
        items: &[Item::Fault(144)],
    },
    Stream {
        bytes: b"GET / HTTP/1.1\r\n\r\n\r\n",
        items: &[GET, Item::Fault(144)],
    },
    Stream {
        bytes: b"GET / HTTP/1.1\r\n\r\n GET",
        items: &[GET, Item::Fault(140)],
    },
    Stream {
        bytes: b"GET /a\x01",
        items: &[Item::Fault(140)],
    },
    Stream {
        bytes: b"GET /a HTTP/1.2\r\n",
        items: &[Item::Fault(140)],
    },
    Stream {
        bytes: b"GET /a HTTP/1.1\r\n: a\r\n",
        items: &[Item::Fault(140)],
    },
    Stream {
        bytes: b"GET /\xff",
        items: &[Item::Fault(144)],
    },
    Stream {
        bytes: b"GET /\xff HTTP/1.1\r\n\r\n",
        items: &[Item::Fault(140)],
    },
    Stream {
        bytes: b"GET /\xc3\xbc HTTP/1.1\r\n\r\n",
        items: &[
            Item::Request(Request {
                method: b"GET",
                target: b"/\xc3\xbc",
                body: b"",
                is_head: false,
                is_last: false,
            }),
            Item::End,
        ],
    },
    Stream {
        bytes: b"POST / HTTP/1.1\r\nContent-Length: 5\r\n\r\nhell",
        items: &[Item::Fault(144)],
    },
    Stream {
        bytes: b"POST / HTTP/1.1\r\nTransfer-Encoding: chunked\r\n\r\n",
        items: &[Item::Fault(143)],
    },
    Stream {
        bytes: b"POST / HTTP/1.1\r\nContent-Length: 1048577\r\n\r\n",
        items: &[Item::Fault(142)],
    },
    Stream {
        bytes: b"GET /parties HTTP/2.0\r\n",
        items: &[Item::Fault(140)],
    },
    Stream {
        bytes: b"GET / HTTP/1.1\r\nContent-Length: 0\r\nContent-Length: 0\r\n\r\n",
        items: &[Item::Fault(140)],
    },
    Stream {
        bytes: b"GET / HTTP/1.1\r\nContent-Length: +1\r\n\r\nx",
        items: &[Item::Fault(140)],
    },
    Stream {
        bytes: b"POST / HTTP/1.1\r\nContent-Length: x\r\nTransfer-Encoding:\r\n\r\n",
        items: &[Item::Fault(143)],
    },
    Stream {
        bytes: b"\r\n",
        items: &[Item::Fault(144)],
    },
    Stream {
        bytes: b"GET /parties\x01",
        items: &[Item::Fault(140)],
    },
    Stream {
        bytes: b"GET /parties HTTP/1.1\r\nContent-Length: 5\r\n\r\nhell",
        items: &[Item::Fault(144)],
    },
    // A truncated request.
    Stream {
        bytes: b"P",
        items: &[Item::Fault(144)],
    },
    Stream {
        bytes: b"POST /acts/enrol HTTP/1.1\r\n",
        items: &[Item::Fault(144)],
    },
    Stream {
        bytes: b"POST /acts/enrol HTTP/1.1\r\nRegister-Party: 1\r\nRegister-Role: stateAdministrator\r\nContent-Length: 38\r\n",
        items: &[Item::Fault(144)],
    },
    Stream {
        bytes: b"POST /acts/enrol HTTP/1.1\r\nRegister-Party: 1\r\nRegister-Role: stateAdministrator\r\nContent-Length: 38\r\n\r\n",
        items: &[Item::Fault(144)],
    },
    Stream {
        bytes: b"POST /acts/enrol HTTP/1.1\r\nRegister-Party: 1\r\nRegister-Role: stateAdministrator\r\nContent-Length: 38\r\n\r\n{",
        items: &[Item::Fault(144)],
    },
    // Bytes after the last request of a connection are not an item.
    Stream {
        bytes: b"GET",
        items: &[Item::Fault(144)],
    },
    Stream {
        bytes: b"GET / HTTP/1.0\r\n\r\n\r\n",
        items: &[LAST_GET],
    },
    // Lengths are one to eighteen digits.
    Stream {
        bytes: b"POST / HTTP/1.1\r\nContent-Length: 1\r\n\r\nx",
        items: &[POST_X, Item::End],
    },
    Stream {
        bytes: b"POST / HTTP/1.1\r\nContent-Length: 0\r\n\r\nx",
        items: &[POST, Item::Fault(144)],
    },
    Stream {
        bytes: b"POST / HTTP/1.1\r\ncontent-length:000000000000000001\r\n\r\nx",
        items: &[POST_X, Item::End],
    },
    Stream {
        bytes: b"POST / HTTP/1.1\r\nContent-Length: 0000000000000000001\r\n\r\nx",
        items: &[Item::Fault(140)],
    },
    Stream {
        bytes: b"POST / HTTP/1.1\r\nContent-Length: 999999999999999999\r\n\r\nx",
        items: &[Item::Fault(142)],
    },
    Stream {
        bytes: b"POST / HTTP/1.1\r\nContent-Length: 1048577\r\n\r\nx",
        items: &[Item::Fault(142)],
    },
    Stream {
        bytes: b"POST / HTTP/1.1\r\nContent-Length: 1048576\r\n\r\nx",
        items: &[Item::Fault(144)],
    },
    Stream {
        bytes: b"POST / HTTP/1.1\r\nContent-Length:\r\n\r\nx",
        items: &[Item::Fault(140)],
    },
    Stream {
        bytes: b"POST / HTTP/1.1\r\nContent-Length: \t\r\n\r\nx",
        items: &[Item::Fault(140)],
    },
    Stream {
        bytes: b"POST / HTTP/1.1\r\nContent-Length: +1\r\n\r\nx",
        items: &[Item::Fault(140)],
    },
    Stream {
        bytes: b"POST / HTTP/1.1\r\nContent-Length: -1\r\n\r\nx",
        items: &[Item::Fault(140)],
    },
    Stream {
        bytes: b"POST / HTTP/1.1\r\nContent-Length: 1a\r\n\r\nx",
        items: &[Item::Fault(140)],
    },
    Stream {
        bytes: b"POST / HTTP/1.1\r\nContent-Length: 1 1\r\n\r\nx",
        items: &[Item::Fault(140)],
    },
    Stream {
        bytes: b"POST / HTTP/1.1\r\nContent-Length: 1,1\r\n\r\nx",
        items: &[Item::Fault(140)],
    },
    Stream {
        bytes: b"POST / HTTP/1.1\r\nContent-Length: 1\r\ncontent-length: 1\r\n\r\nx",
        items: &[Item::Fault(140)],
    },
    Stream {
        bytes: b"POST / HTTP/1.1\r\nContent-Length: 1048577\r\nContent-Length: 1048577\r\n\r\nx",
        items: &[Item::Fault(140)],
    },
    Stream {
        bytes: b"POST / HTTP/1.1\r\nX-Content-Length: 1\r\n\r\nx",
        items: &[POST, Item::Fault(144)],
    },
    Stream {
        bytes: b"POST / HTTP/1.1\r\nTransfer-Encoding: identity\r\nContent-Length: a\r\n\r\nx",
        items: &[Item::Fault(143)],
    },
    Stream {
        bytes: b"POST / HTTP/1.1\r\nContent-Length: 1\r\ntransfer-ENCODING:\r\n\r\nx",
        items: &[Item::Fault(143)],
    },
    Stream {
        bytes: b"POST / HTTP/1.1\r\nContent-Length: 1\r\nContent-Length: 1\r\nTransfer-Encoding: x\r\n\r\nx",
        items: &[Item::Fault(143)],
    },
    Stream {
        bytes: b"POST / HTTP/1.1\r\nTransfer: chunked\r\n\r\nx",
        items: &[POST, Item::Fault(144)],
    },
    // Connections close if a word requests it.
    Stream {
        bytes: b"GET / HTTP/1.1\r\nConnection: close\r\n\r\n",
        items: &[LAST_GET],
    },
    Stream {
        bytes: b"GET / HTTP/1.1\r\nconnection:CLOSE\r\n\r\n",
        items: &[LAST_GET],
    },
    Stream {
        bytes: b"GET / HTTP/1.1\r\nConnection: keep-alive, \t Close \r\n\r\n",
        items: &[LAST_GET],
    },
    Stream {
        bytes: b"GET / HTTP/1.1\r\nConnection: close,upgrade\r\n\r\n",
        items: &[LAST_GET],
    },
    Stream {
        bytes: b"GET / HTTP/1.1\r\nConnection: ,close\r\n\r\n",
        items: &[LAST_GET],
    },
    Stream {
        bytes: b"GET / HTTP/1.1\r\nConnection: keep-alive\r\nX: y\r\nConnection: close\r\n\r\n",
        items: &[LAST_GET],
    },
    Stream {
        bytes: b"GET / HTTP/1.1\r\nConnection: keep-alive\r\n\r\n",
        items: &[GET, Item::End],
    },
    Stream {
        bytes: b"GET / HTTP/1.1\r\nConnection:\r\n\r\n",
        items: &[GET, Item::End],
    },
    Stream {
        bytes: b"GET / HTTP/1.1\r\nConnection: closed\r\n\r\n",
        items: &[GET, Item::End],
    },
    Stream {
        bytes: b"GET / HTTP/1.1\r\nConnection: clos\r\n\r\n",
        items: &[GET, Item::End],
    },
    Stream {
        bytes: b"GET / HTTP/1.1\r\nConnection: clo se\r\n\r\n",
        items: &[GET, Item::End],
    },
    Stream {
        bytes: b"GET / HTTP/1.1\r\nConnection: close;now\r\n\r\n",
        items: &[GET, Item::End],
    },
    Stream {
        bytes: b"GET / HTTP/1.1\r\nConnections: close\r\n\r\n",
        items: &[GET, Item::End],
    },
    Stream {
        bytes: b"GET / HTTP/1.1\r\nClose: connection\r\n\r\n",
        items: &[GET, Item::End],
    },
];

/// A stream with a part that is repeated in its middle, and its items.
struct LongStream {
    front: &'static [u8],
    filler: &'static [u8],
    times: usize,
    back: &'static [u8],
    items: &'static [Item],
}

const LONG: &[LongStream] = &[
    // A head has at most 64 fields.
    LongStream {
        front: b"GET / HTTP/1.1\r\n",
        filler: b"a:b\r\n",
        times: 64,
        back: b"\r\n",
        items: &[GET, Item::End],
    },
    LongStream {
        front: b"GET / HTTP/1.1\r\n",
        filler: b"a:b\r\n",
        times: 65,
        back: b"\r\n",
        items: &[Item::Fault(140)],
    },
    // Only a whole head has too many fields.
    LongStream {
        front: b"GET / HTTP/1.1\r\n",
        filler: b"a:b\r\n",
        times: 65,
        back: b"",
        items: &[Item::Fault(144)],
    },
    // Too many fields come before a transfer encoding.
    LongStream {
        front: b"GET / HTTP/1.1\r\n",
        filler: b"a:b\r\n",
        times: 64,
        back: b"Transfer-Encoding: x\r\n\r\n",
        items: &[Item::Fault(140)],
    },
    // A head has at most 8192 bytes.
    LongStream {
        front: b"GET / HTTP/1.1\r\nA: ",
        filler: b"x",
        times: 8192 - 23,
        back: b"\r\n\r\n",
        items: &[GET, Item::End],
    },
    LongStream {
        front: b"GET / HTTP/1.1\r\nA: ",
        filler: b"x",
        times: 8193 - 23,
        back: b"\r\n\r\n",
        items: &[Item::Fault(141)],
    },
    // An empty line before the request counts.
    LongStream {
        front: b"\nGET / HTTP/1.1\r\nA: ",
        filler: b"x",
        times: 8192 - 24,
        back: b"\r\n\r\n",
        items: &[GET, Item::End],
    },
    LongStream {
        front: b"\nGET / HTTP/1.1\r\nA: ",
        filler: b"x",
        times: 8193 - 24,
        back: b"\r\n\r\n",
        items: &[Item::Fault(141)],
    },
    // The stream ends inside a head, below 8192 bytes and at 8192 bytes.
    LongStream {
        front: b"GET / HTTP/1.1\r\nA: ",
        filler: b"x",
        times: 8191 - 19,
        back: b"",
        items: &[Item::Fault(144)],
    },
    LongStream {
        front: b"GET / HTTP/1.1\r\nA: ",
        filler: b"x",
        times: 8192 - 19,
        back: b"",
        items: &[Item::Fault(141)],
    },
    // The same inside a target, also if it cannot be valid UTF-8.
    LongStream {
        front: b"GET /",
        filler: b"x",
        times: 8191 - 5,
        back: b"",
        items: &[Item::Fault(144)],
    },
    LongStream {
        front: b"GET /",
        filler: b"x",
        times: 8192 - 5,
        back: b"",
        items: &[Item::Fault(141)],
    },
    LongStream {
        front: b"GET /\xff",
        filler: b"x",
        times: 8191 - 6,
        back: b"",
        items: &[Item::Fault(144)],
    },
    LongStream {
        front: b"GET /\xff",
        filler: b"x",
        times: 8192 - 6,
        back: b"",
        items: &[Item::Fault(141)],
    },
];

/// A reader with its buffer.
#[derive(Drop)]
struct Reading {
    headers: Vec<HeaderSpan>,
    buffer: Vec<u8>,
}

impl Reading {
    fn new(alloc: Global) -> Result<Reading, AllocError> {
        Ok(Reading {
            headers: vec![in alloc; EMPTY_HEADER_SPAN; FIELD_ROOM]?,
            buffer: Vec::new(alloc),
        })
    }

    /// Reads the first item, and discards nothing.
    fn front<R: Read>(
        &mut self,
        reader: &mut CountedReader<'_, R>,
    ) -> Result<NextItem, StreamFault> {
        if self.headers.len() < FIELD_ROOM {
            return Err(StreamFault::NoMemory);
        }
        read_item(reader, &mut self.buffer, &mut self.headers)
    }

    /// Checks the first item, and discards it if it is a request.
    fn is_next<R: Read>(
        &mut self,
        reader: &mut CountedReader<'_, R>,
        item: &Item,
    ) -> Result<bool, Stop> {
        if self.headers.len() < FIELD_ROOM {
            return Err(Stop::Call);
        }
        match read_item(reader, &mut self.buffer, &mut self.headers) {
            Err(StreamFault::NoMemory) => Err(Stop::Memory),
            Err(StreamFault::Read) => Ok(false),
            Ok(NextItem::End) => Ok(matches!(item, Item::End)),
            Ok(NextItem::Fault(fault)) => Ok(is_fault(item, fault.number())),
            Ok(NextItem::Request(spans, length)) => {
                let is = is_request(item, &self.buffer, &self.headers, &spans, length);
                consume_front(&mut self.buffer, spans.len + length);
                Ok(is)
            }
        }
    }
}

/// Returns a reader of a stream in chunks of this size, which does not fail.
fn whole(left: &[u8], piece: usize) -> ChunkReader<'_> {
    let reads = u64::MAX;
    ChunkReader { left, piece, reads }
}

fn is_fault(item: &Item, number: u16) -> bool {
    match item {
        Item::Fault(wanted) => *wanted == number,
        _ => false,
    }
}

/// Checks that the request at these spans is this one.
fn is_request(
    item: &Item,
    buffer: &[u8],
    headers: &[HeaderSpan],
    spans: &RequestSpans,
    length: usize,
) -> bool
    requires { IsRequestIn buffer.now headers.now spans.now length }
{
    match item {
        Item::Request(wanted) => {
            spans.method.of(buffer) == wanted.method
                && spans.path.of(buffer) == wanted.target
                && &buffer[spans.len..spans.len + length] == wanted.body
                && is_head(spans, buffer, headers) == wanted.is_head
                && wants_close(spans, buffer, headers) == wanted.is_last
        }
        _ => false,
    }
}

/// Checks that the stream has these items, in chunks of this size.
fn has_items(alloc: Global, bytes: &[u8], piece: usize, items: &[Item]) -> Result<bool, Stop> {
    let mut pieces = whole(bytes, piece);
    let mut reader = CountedReader::new(&mut pieces);
    let mut stream = Reading::new(alloc)?;
    for item in items {
        if !stream.is_next(&mut reader, item)? {
            return Ok(false);
        }
    }
    Ok(true)
}

/// Checks that the stream has these items, in chunks of any size.
fn has_items_in_pieces(alloc: Global, bytes: &[u8], items: &[Item]) -> Result<bool, Stop> {
    Ok(
        has_items(alloc, bytes, 1, items)?
            && has_items(alloc, bytes, 7, items)?
            && has_items(alloc, bytes, 4096, items)?,
    )
}

fn has_long_items(alloc: Global, row: &LongStream) -> Result<bool, Stop> {
    let bytes = joined(alloc, row.front, row.filler, row.times, row.back)?;
    has_items_in_pieces(alloc, &bytes, row.items)
}

/// Checks the limits of heads.
pub fn heads_have_limits(alloc: Global) -> Result<(), Stop> {
    for (place, row) in LONG.iter().enumerate() {
        expect(has_long_items(alloc, row)?, "row", place)?;
    }
    Ok(())
}

/// Returns the number of items before the end.
fn count_of(items: &[Item]) -> usize {
    items
        .iter()
        .filter(|item| !matches!(item, Item::End))
        .count()
}

/// Checks that the stream has this number of items.
fn are_counted(alloc: Global, row: &Stream) -> Result<bool, Stop> {
    let mut headers = vec![in alloc; EMPTY_HEADER_SPAN; FIELD_ROOM]?;
    Ok(item_count(row.bytes, &mut headers) == count_of(row.items))
}

/// Checks that a stream whose first item is a fault gets this fault as its reply, and that the connection
/// closes.
fn is_refused(alloc: Global, row: &Stream) -> Result<bool, Stop> {
    match row.items {
        [item] => is_item_reported(alloc, row.bytes, item),
        _ => Ok(true),
    }
}

fn is_item_reported(alloc: Global, bytes: &[u8], item: &Item) -> Result<bool, Stop> {
    match item {
        Item::Fault(number) => is_reply_as_expected(
            alloc,
            bytes,
            ExpectedReply::Fault(*number),
            true,
        ),
        _ => Ok(true),
    }
}

/// Checks that a stream has its items and their number, and gets its fault as the reply if it begins with
/// one.
fn is_served(alloc: Global, row: &Stream) -> Result<bool, Stop> {
    if !has_items_in_pieces(alloc, row.bytes, row.items)? {
        return Ok(false);
    }
    if !are_counted(alloc, row)? {
        return Ok(false);
    }
    is_refused(alloc, row)
}

/// Checks that streams have their items, and get the fault that they begin with as the reply.
pub fn streams_have_their_items(alloc: Global) -> Result<(), Stop> {
    for (place, row) in STREAMS.iter().enumerate() {
        expect(is_served(alloc, row)?, "row", place)?;
    }
    Ok(())
}

/// Checks that a stream ends with a failed read after this number of chunks of ten bytes, and that the bytes
/// read remain in the buffer.
fn is_unread(alloc: Global, budget: u64) -> Result<bool, Stop> {
    let left = b"POST / HTTP/1.1\r\nContent-Length: 5\r\n\r\nhello".as_slice();
    let mut pieces = whole(left, 10);
    let mut reader = CountedReader::with_budget(&mut pieces, budget);
    let mut stream = Reading::new(alloc)?;
    match stream.front(&mut reader) {
        Err(StreamFault::NoMemory) => Err(Stop::Memory),
        Err(StreamFault::Read) => Ok(
            left.starts_with(stream.buffer.as_slice())
                && u64::try_from(stream.buffer.len()) == Ok(budget.saturating_mul(10)),
        ),
        Ok(_) => Ok(false),
    }
}

/// Checks that a reader that fails after this number of chunks of ten bytes yields a failed read.
fn is_failed(alloc: Global, reads: u64) -> Result<bool, Stop> {
    let left = b"POST / HTTP/1.1\r\nContent-Length: 5\r\n\r\nhello".as_slice();
    let mut pieces = ChunkReader {
        left,
        piece: 10,
        reads,
    };
    let mut reader = CountedReader::new(&mut pieces);
    let mut stream = Reading::new(alloc)?;
    match stream.front(&mut reader) {
        Err(StreamFault::NoMemory) => Err(Stop::Memory),
        Err(StreamFault::Read) => Ok(true),
        Ok(_) => Ok(false),
    }
}

/// Checks readers that fail at the first read, inside the head, and inside the body.
pub fn readers_fail(alloc: Global) -> Result<(), Stop> {
    for (place, reads) in [0, 1, 4].iter().enumerate() {
        expect(is_unread(alloc, *reads)?, "unread", place)?;
        expect(is_failed(alloc, *reads)?, "failed", place)?;
    }
    Ok(())
}

/// Two requests in one chunk.
const TWO: &[u8] = b"GET / HTTP/1.1\r\n\r\nGET / HTTP/1.1\r\n\r\n";

/// Checks that one read finds both requests of a chunk, and only a second read finds the end.
fn is_read_once(alloc: Global) -> Result<bool, Stop> {
    let mut pieces = whole(TWO, 4096);
    let mut reader = CountedReader::with_budget(&mut pieces, 1);
    let mut stream = Reading::new(alloc)?;
    Ok(
        stream.is_next(&mut reader, &GET)?
            && stream.is_next(&mut reader, &GET)?
            && !stream.is_next(&mut reader, &Item::End)?,
    )
}

/// Checks that bytes read ahead are not read again.
pub fn read_ahead_is_not_read_again(alloc: Global) -> Result<(), Stop> {
    expect(is_read_once(alloc)?, "reads", 0)
}
