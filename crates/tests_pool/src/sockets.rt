//! Sockets of this process, and a port that serves them at once.
use crate::conclusion::conclude;
use crate::one_run::STORE_FAULT;
use land_desk::serve::serve;
use land_keep::plain_keeper::PlainKeeper;
use land_pool::connection_source::ConnectionSource;
use land_pool::pool::{PoolFault, serve_at_once};
use land_port::port::Port;
use std::alloc::{AllocError, Global};
use std::cell::Cell;
use std::io::{ErrorKind, Read, Write};
use std::net::{Shutdown, SocketAddr, TcpStream};
use std::rc::Rc;
use std::rt::HostRuntime;
use std::test::Fail;
use std::time::{Duration, Instant};
use std::{io, time};
use testlib_scenario::calls::{CUT, ENROL, ENROLLED, expect_output};
use testlib_scenario::doubles::{ChunkReader, ClockReadings, Sink};
use testlib_scenario::first::ENROL_ANNA_REQUEST;
use testlib_scenario::run_scenario::open_sink;
use testlib_scenario::stop::{Stop, expect};

/// A clock that advances by a number of seconds at each reading. If the client `trickles`, it sends a byte
/// before.
#[derive(Drop)]
struct TickingClock {
    step: u64,
    seconds: Rc<Cell<u64>>,
    client: Rc<Cell<Option<TcpStream>>>,
    trickles: bool,
}

impl TickingClock {
    /// Returns a clock at 0 without a client.
    fn new(alloc: Global, step: u64, trickles: bool) -> Result<TickingClock, AllocError> {
        Ok(TickingClock {
            step,
            seconds: Rc::new(alloc, Cell::new(0))?,
            client: Rc::new(alloc, Cell::new(None))?,
            trickles,
        })
    }

    /// Has the client send a byte, if the connection is still open.
    fn trickle(&self) {
        let mut client = self.client.replace(None);
        if let Some(stream) = &mut client {
            match stream.write(b"a") {
                Ok(_) | Err(_) => {}
            }
        }
        self.client.set(client);
    }
}

impl time::Clock for TickingClock {
    fn monotonic(&self) -> io::Result<Duration> {
        let seconds = self.seconds.get().saturating_add(self.step);
        self.seconds.set(seconds);
        if self.trickles {
            self.trickle();
        }
        Ok(Duration::from_secs(seconds))
    }

    fn since_1970(&self) -> io::Result<Duration> {
        self.monotonic()
    }
}

/// A fault, which later input does not change.
const FAULTY: &[u8] = b"HELLO\r\n\r\n";

const FAULT: &[u8] =
    b"HTTP/1.1 400 Bad Request\r\nContent-Type: application/json\r\nContent-Length: 13\r\nConnection: close\r\n\r\n{\"fault\":140}";

/// The first bytes of a request.
const BEGUN: &[u8] = b"POST /acts/enrol HTTP/1.1\r\nX: ";

/// Lists the parties.
const LIST: &[u8] =
    b"GET /parties HTTP/1.1\r\nRegister-Party: 1\r\nRegister-Role: stateAdministrator\r\n\r\n";

/// Serves a number of connections of a port with a new register, and then drains the port.
fn serve_port<M: time::Clock + Drop>(
    alloc: Global,
    port: &mut Port<M>,
    connections: u32,
    at_once: usize,
) -> Result<(), Stop> {
    let mut keeper = PlainKeeper::new(alloc)?;
    let mut clock = ClockReadings { left: &[] };
    let ending = serve_at_once(alloc, port, connections, at_once, &mut keeper, &mut clock);
    if ending == Err(PoolFault::NoMemory) {
        return Err(Stop::Memory);
    }
    expect(ending == Ok(()), "the ending", 0)?;
    port.drain();
    Ok(())
}

/// Adds an element.
fn add<T: Drop>(all: &mut Vec<T>, element: T) -> Result<(), AllocError> {
    all.push(element)?;
    Ok(())
}

/// Connects a client that sends these bytes.
fn connect(rt: &HostRuntime, address: SocketAddr, input: &[u8]) -> Result<TcpStream, Stop> {
    let mut client = TcpStream::connect(rt, address)?;
    client.write_all(input)?;
    Ok(client)
}

/// Connects a client that sends these bytes and then shuts down its writing side.
fn connect_and_end(rt: &HostRuntime, address: SocketAddr, input: &[u8]) -> Result<TcpStream, Stop> {
    let client = connect(rt, address, input)?;
    client.shutdown(Shutdown::Write)?;
    Ok(client)
}

/// Returns the output that a client gets until the connection ends, or `None` if it is reset.
fn output_of(alloc: Global, client: &TcpStream) -> Result<Option<Vec<u8>>, Stop> {
    let mut reader: &TcpStream = client;
    let mut output = Vec::with_capacity(alloc, 65_536)?;
    match reader.read_to_end(&mut output) {
        Ok(_) => Ok(Some(output)),
        Err(error) if error.kind() == ErrorKind::OutOfMemory => Err(Stop::Memory),
        Err(_) => Ok(None),
    }
}

/// Checks the output that a client gets. If memory runs out, the server may close the connection with input
/// unread, which resets it.
fn expect_reply(
    alloc: Global,
    place: usize,
    client: &TcpStream,
    wanted: &[u8],
) -> Result<(), Stop> {
    match output_of(alloc, client)? {
        Some(output) => expect_output(place, &output, wanted),
        None => Err(Stop::Memory),
    }
}

/// Serves this request a number of times, one after another, and returns the replies.
fn replies_in_order(alloc: Global, request: &[u8], times: usize) -> Result<Vec<Sink>, Stop> {
    let mut keeper = PlainKeeper::new(alloc)?;
    let mut clock = ClockReadings { left: &[] };
    let mut replies = Vec::new(alloc);
    for _time in 0..times {
        let mut sink = open_sink(alloc, 1024)?;
        let mut reader = ChunkReader {
            left: request,
            piece: 4096,
            reads: u64::MAX,
        };
        match serve(alloc, &mut reader, &mut sink, &mut keeper, &mut clock) {
            Ok(_) => add(&mut replies, sink)?,
            Err(_) => return Err(Stop::Memory),
        }
    }
    Ok(replies)
}

/// Checks that 100 clients, served 30 at once, get the replies of one run, in the order in which they came.
fn a_hundred_clients(rt: &HostRuntime) -> Result<(), Stop> {
    let alloc = rt.alloc();
    let mut port = Port::listen(rt, rt, alloc, 0)?;
    let address = port.local_addr()?;
    let mut clients = Vec::new(alloc);
    for _client in 0..100u8 {
        add(&mut clients, connect_and_end(rt, address, ENROL)?)?;
    }
    serve_port(alloc, &mut port, 100, 30)?;
    let replies = replies_in_order(alloc, ENROL, 100)?;
    for (place, (client, reply)) in clients.iter().zip(replies.iter()).enumerate() {
        expect_reply(alloc, place, client, &reply.taken)?;
    }
    Ok(())
}

#[test]
fn a_hundred_clients_get_their_replies(rt: HostRuntime) -> Result<(), Fail> {
    conclude(&rt, a_hundred_clients(&rt))
}

/// The most replies by which one of two clients with the same input may be ahead of the other.
const MAX_LEAD: usize = 4;

/// Takes a reply from the front of an output, if it is there.
fn take_reply(output: &mut &[u8], reply: &[u8]) -> bool {
    if !output.starts_with(reply) {
        return false;
    }
    *output = output.get(reply.len()..).unwrap_or(&[]);
    true
}

/// Checks that the replies of one run went to two clients in turns.
fn expect_turns(replies: &[Sink], first: &[u8], second: &[u8]) -> Result<(), Stop> {
    let mut outputs = (first, second);
    let mut counts: (usize, usize) = (0, 0);
    for (place, reply) in replies.iter().enumerate() {
        if take_reply(&mut outputs.0, &reply.taken) {
            counts.0 = counts.0.saturating_add(1);
        } else if take_reply(&mut outputs.1, &reply.taken) {
            counts.1 = counts.1.saturating_add(1);
        } else if outputs.0.starts_with(STORE_FAULT) || outputs.1.starts_with(STORE_FAULT) {
            return Err(Stop::Memory);
        } else {
            return Err(Stop::Mismatch("a reply", place));
        }
        let lead = counts.0.max(counts.1) - counts.0.min(counts.1);
        let is_fair = lead <= MAX_LEAD || outputs.0.is_empty() || outputs.1.is_empty();
        expect(is_fair, "the lead", place)?;
    }
    Ok(())
}

/// Checks that two clients which send 50 requests each are served in turns, so that neither has to wait for
/// the other.
fn two_floods(rt: &HostRuntime) -> Result<(), Stop> {
    let alloc = rt.alloc();
    let mut port = Port::listen(rt, rt, alloc, 0)?;
    let address = port.local_addr()?;
    let mut input = Vec::new(alloc);
    for _request in 0..50u8 {
        input.extend_from_slice(ENROL_ANNA_REQUEST)?;
    }
    let first = connect_and_end(rt, address, &input)?;
    let second = connect_and_end(rt, address, &input)?;
    serve_port(alloc, &mut port, 2, 2)?;
    let replies = replies_in_order(alloc, ENROL_ANNA_REQUEST, 100)?;
    match (output_of(alloc, &first)?, output_of(alloc, &second)?) {
        (Some(one), Some(other)) => expect_turns(&replies, &one, &other),
        _ => Err(Stop::Memory),
    }
}

#[test]
fn two_floods_are_served_in_turns(rt: HostRuntime) -> Result<(), Fail> {
    conclude(&rt, two_floods(&rt))
}

/// Checks that the last reply arrives though more bytes were sent than are read before it. `ends`: whether
/// the client shuts down its writing side; else it is closed after a second.
fn last_reply(rt: &HostRuntime, ends: bool) -> Result<(), Stop> {
    let alloc = rt.alloc();
    let mut port = Port::listen(rt, rt, alloc, 0)?;
    let mut input = Vec::from_elem(alloc, b' ', 100_000)?;
    input[..FAULTY.len()].copy_from_slice(FAULTY);
    let client = connect(rt, port.local_addr()?, &input)?;
    if ends {
        client.shutdown(Shutdown::Write)?;
    }
    serve_port(alloc, &mut port, 1, 1)?;
    drop(port);
    expect_reply(alloc, 0, &client, FAULT)
}

#[test]
fn the_last_reply_arrives_before_unread_bytes(rt: HostRuntime) -> Result<(), Fail> {
    conclude(&rt, last_reply(&rt, true))
}

#[test]
fn the_last_reply_arrives_though_the_client_stays(rt: HostRuntime) -> Result<(), Fail> {
    conclude(&rt, last_reply(&rt, false))
}

/// Checks that the service ends after two connections, of which the first sends only the start of a request,
/// and that a third one gets no reply.
fn two_of_three(rt: &HostRuntime) -> Result<(), Stop> {
    let alloc = rt.alloc();
    let mut port = Port::listen(rt, rt, alloc, 0)?;
    let address = port.local_addr()?;
    let truncated = connect_and_end(rt, address, BEGUN)?;
    let served = connect_and_end(rt, address, ENROL)?;
    let pending = connect_and_end(rt, address, ENROL)?;
    serve_port(alloc, &mut port, 2, 1)?;
    drop(port);
    expect_reply(alloc, 0, &truncated, CUT)?;
    expect_reply(alloc, 1, &served, ENROLLED)?;
    match output_of(alloc, &pending)? {
        Some(output) => expect(output.is_empty(), "a pending connection", 2),
        None => Ok(()),
    }
}

#[test]
fn the_service_ends_after_its_connections(rt: HostRuntime) -> Result<(), Fail> {
    conclude(&rt, two_of_three(&rt))
}

/// Checks that clients which close their connection before the replies are sent end only their own.
fn closed_early(rt: &HostRuntime) -> Result<(), Stop> {
    let alloc = rt.alloc();
    let mut port = Port::listen(rt, rt, alloc, 0)?;
    let address = port.local_addr()?;
    let mut input = Vec::new(alloc);
    for _request in 0..50u8 {
        input.extend_from_slice(LIST)?;
    }
    for _client in 0..5u8 {
        drop(connect(rt, address, &input)?);
    }
    let served = connect_and_end(rt, address, ENROL)?;
    serve_port(alloc, &mut port, 6, 6)?;
    drop(port);
    expect_reply(alloc, 0, &served, ENROLLED)
}

#[test]
fn a_reset_connection_ends_only_itself(rt: HostRuntime) -> Result<(), Fail> {
    conclude(&rt, closed_early(&rt))
}

/// Checks that an idle port waits for a second, has no connection ready and none pending.
fn idle_port(rt: &HostRuntime) -> Result<(), Stop> {
    let mut port = Port::listen(rt, rt, rt.alloc(), 0)?;
    for place in 0..3usize {
        let started = Instant::now(rt)?;
        port.wait()?;
        let waited = started.elapsed(rt)?;
        // The first wait returns at once, since a connection may be pending.
        expect(
            place == 0 || waited >= Duration::from_millis(900),
            "the wait",
            place,
        )?;
        expect(port.next_ready().is_none(), "ready", place)?;
        match port.accept(0) {
            Ok(_) => return Err(Stop::Mismatch("pending", place)),
            Err(error) if error.kind() == ErrorKind::WouldBlock => {}
            Err(error) => return Err(Stop::from(error)),
        }
    }
    Ok(())
}

#[test]
fn an_idle_port_waits(rt: HostRuntime) -> Result<(), Fail> {
    conclude(&rt, idle_port(&rt))
}

/// Checks that a port in use is an error.
fn port_in_use(rt: &HostRuntime) -> Result<(), Stop> {
    let port = Port::listen(rt, rt, rt.alloc(), 0)?;
    let number = port.local_addr()?.port();
    match Port::listen(rt, rt, rt.alloc(), number) {
        Ok(_) => Err(Stop::Mismatch("a port in use", 0)),
        Err(error) if error.kind() == ErrorKind::OutOfMemory => Err(Stop::Memory),
        Err(error) => expect(error.kind() == ErrorKind::AddrInUse, "the error", 0),
    }
}

#[test]
fn a_port_in_use_is_an_error(rt: HostRuntime) -> Result<(), Fail> {
    conclude(&rt, port_in_use(&rt))
}

/// Checks that a connection which sends the start of a request is closed without a reply, between these times
/// in seconds. If it `trickles`, it sends another byte at each reading of the clock.
fn overdue(rt: &HostRuntime, step: u64, trickles: bool, least: u64, most: u64) -> Result<(), Stop> {
    let alloc = rt.alloc();
    let clock = TickingClock::new(alloc, step, trickles)?;
    let clock_seconds = clock.seconds.clone()?;
    let clock_client = clock.client.clone()?;
    let mut port = Port::listen(clock, rt, alloc, 0)?;
    let client = connect(rt, port.local_addr()?, BEGUN)?;
    clock_client.set(Some(client));
    serve_port(alloc, &mut port, 1, 1)?;
    drop(port);
    let seconds = clock_seconds.get();
    // The connection is closed earlier only if memory runs out.
    if seconds < least {
        return Err(Stop::Memory);
    }
    expect(seconds <= most, "seconds", seconds as usize)?;
    let Some(client) = clock_client.replace(None) else {
        return Err(Stop::Call);
    };
    match output_of(alloc, &client)? {
        Some(output) => expect(output.is_empty(), "no reply", 0),
        None => Ok(()),
    }
}

#[test]
fn an_idle_connection_is_closed_after_30_seconds(rt: HostRuntime) -> Result<(), Fail> {
    conclude(&rt, overdue(&rt, 5, false, 40, 60))
}

#[test]
fn a_slow_request_is_closed_after_60_seconds(rt: HostRuntime) -> Result<(), Fail> {
    conclude(&rt, overdue(&rt, 1, true, 60, 70))
}
