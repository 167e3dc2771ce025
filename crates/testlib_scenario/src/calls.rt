//! Test connections, each with its expected output.
ghost use Rattle.std.specs.Prelude.{◌≡◌, List, Some, length, map, take};
ghost use Rattle.land_desk.specs.Service.{IsServedCount, Connection};

use crate::doubles::{ChunkReader, ClockReadings, Sink};
use crate::run_scenario::open_sink;
use crate::stop::{Stop, expect};
use crate::talk::common;
use land_desk::service::connections::Connections;
use land_desk::service::serving::{ServiceFault, serve_connections};
use land_keep::plain_keeper::PlainKeeper;
use std::alloc::{AllocError, Global};
use std::io;
use std::slice::IterMut;

/// A request that enrols Anna and closes the connection.
pub const ENROL: &[u8] =
    b"POST /acts/enrol HTTP/1.1\r\nRegister-Party: 1\r\nRegister-Role: stateAdministrator\r\nContent-Length: 38\r\nConnection: close\r\n\r\n{\"kind\":\"naturalPerson\",\"name\":\"Anna\"}";

/// The response to `ENROL` in a new register.
pub const ENROLLED: &[u8] =
    b"HTTP/1.1 200 OK\r\nContent-Type: application/json\r\nContent-Length: 36\r\nConnection: close\r\n\r\n{\"made\":[2],\"number\":2,\"stamp\":1000}";

/// The response to a second `ENROL`.
const ENROLLED_NEXT: &[u8] =
    b"HTTP/1.1 200 OK\r\nContent-Type: application/json\r\nContent-Length: 36\r\nConnection: close\r\n\r\n{\"made\":[3],\"number\":3,\"stamp\":1001}";

/// The response to a truncated request: 144.
pub const CUT: &[u8] =
    b"HTTP/1.1 400 Bad Request\r\nContent-Type: application/json\r\nContent-Length: 13\r\nConnection: close\r\n\r\n{\"fault\":144}";

/// A connection: its input, the number of reads and of writes after which it fails, its expected output, and
/// whether it is closed by the server or dropped.
pub struct Call {
    pub brings: &'static [u8],
    pub reads: u64,
    pub writes: usize,
    pub told: &'static [u8],
    pub is_ended: bool,
}

/// A whole request, one truncated in its head, one dropped in its body, one dropped in its reply, and a whole
/// one.
pub const CALLS: &[Call] = &[
    Call {
        brings: ENROL,
        reads: u64::MAX,
        writes: usize::MAX,
        told: ENROLLED,
        is_ended: true,
    },
    Call {
        brings: b"POST /acts/enrol HT",
        reads: u64::MAX,
        writes: usize::MAX,
        told: CUT,
        is_ended: true,
    },
    Call {
        brings: ENROL,
        reads: 3,
        writes: usize::MAX,
        told: b"",
        is_ended: false,
    },
    Call {
        brings: b"GET / HTTP/1.1\r\n\r\n",
        reads: u64::MAX,
        writes: 3,
        told: b"HTTP/1.1 ",
        is_ended: false,
    },
    Call {
        brings: ENROL,
        reads: u64::MAX,
        writes: usize::MAX,
        told: ENROLLED_NEXT,
        is_ended: true,
    },
];

/// A source of test connections, each with its own writer.
#[derive(Drop)]
pub struct Calls<'a> {
    pub calls: &'static [Call],
    pub sinks: IterMut<'a, Sink>,
}

impl<'a> Connections for Calls<'a> {
    type Reader = ChunkReader<'static>;

    type Writer = &'a mut Sink;

    ghost coming = { λ it. Some (map (λ call. Some call.brings.now) it.calls.now) };

    fn accept_connection(&mut self) -> io::Result<(ChunkReader<'static>, &'a mut Sink)> {
        let Some((call, calls)) = self.calls.split_first() else {
            return Err(io::Error::from(io::ErrorKind::ConnectionAborted));
        };
        let Some(sink) = self.sinks.next() else {
            return Err(io::Error::from(io::ErrorKind::ConnectionAborted));
        };
        self.calls = calls;
        let reader = ChunkReader {
            left: call.brings,
            piece: 50,
            reads: call.reads,
        };
        Ok((reader, sink))
    }

    fn close_connection(_reader: &mut ChunkReader<'static>, writer: &mut &'a mut Sink) {
        writer.is_ended = true;
    }
}

/// Serves this number of connections with known inputs on a new register. As many are served as requested,
/// unless the service ends early. Their inputs are those of the first connections, in order.
pub fn serve_calls(
    alloc: Global,
    calls: &mut Calls<'_>,
    connections: u32,
    keeper: &mut PlainKeeper,
    clock: &mut ClockReadings,
) -> Result<(), ServiceFault>
    ensures { (xs : List Connection) × IsServedCount (length xs) connections result
        × (map (λ x. x.bytes) xs ≡ take (length xs)
        (map (λ call. Some call.brings.now) calls.old.calls.now)) }
{
    serve_connections(alloc, calls, connections, keeper, clock)
}

/// Creates a writer for each of these connections.
pub fn sinks(alloc: Global, calls: &[Call]) -> Result<Vec<Sink>, AllocError> {
    let mut sinks = Vec::new(alloc);
    for call in calls {
        let mut sink = open_sink(alloc, call.told.len())?;
        sink.writes = call.writes;
        sinks.push(sink)?;
    }
    Ok(sinks)
}

/// Checks the output of a connection. If a reply is 501 or is missing, the test stops with out of memory.
pub fn expect_output(place: usize, taken: &[u8], wanted: &[u8]) -> Result<(), Stop> {
    let same = common(taken, wanted);
    if same == taken.len() && same < wanted.len() {
        return Err(Stop::Memory);
    }
    if 9 <= same && same < taken.len() && taken[same - 9..].starts_with(b"HTTP/1.1 5") {
        return Err(Stop::Memory);
    }
    expect(taken == wanted, "connections", place)
}

/// Checks the output of each connection, and that those which were served are closed.
pub fn expect_all_outputs(calls: &[Call], sinks: &[Sink]) -> Result<(), Stop> {
    for (place, (call, sink)) in calls.iter().zip(sinks.iter()).enumerate() {
        expect_output(place, &sink.taken, call.told)?;
        expect(sink.is_ended == call.is_ended, "the end", place)?;
    }
    Ok(())
}
