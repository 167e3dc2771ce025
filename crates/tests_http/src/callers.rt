//! TCP clients on this host, with clocks of the test.
use crate::conclusion::conclude;
use crate::connections::serve_new_register;
use land_desk::service::callers::Callers;
use land_desk::service::timer::RequestTimer;
use std::alloc::{AllocError, Global};
use std::cell::Cell;
use std::io::{Read, Write};
use std::net::{Shutdown, TcpListener, TcpStream};
use std::rt::HostRuntime;
use std::test::Fail;
use std::time::Duration;
use std::{io, time};
use testlib_scenario::calls::{ENROL, ENROLLED, expect_output};
use testlib_scenario::stop::{Stop, expect};

/// A clock that advances by a number of seconds at each reading.
#[derive(Drop)]
struct TickingClock {
    step: u64,
    seconds: Cell<u64>,
}

impl time::Clock for TickingClock {
    fn monotonic(&self) -> io::Result<Duration> {
        let seconds = self.seconds.get().saturating_add(self.step);
        self.seconds.set(seconds);
        Ok(Duration::from_secs(seconds))
    }

    fn since_1970(&self) -> io::Result<Duration> {
        self.monotonic()
    }
}

/// The input of a client: requests, each with padding, and its reply, or `None` if the connection is dropped.
struct AcceptCase {
    step: u64,
    requests: usize,
    request: &'static [u8],
    padding: usize,
    told: Option<&'static [u8]>,
}

/// Lists the parties. The head has less than 1024 bytes, so that with the body it is read in four chunks.
const LIST: &[u8] =
    b"GET /parties HTTP/1.1\r\nRegister-Party: 1\r\nRegister-Role: stateAdministrator\r\nContent-Length: 3000\r\n\r\n";

const LISTED: &[u8] =
    b"HTTP/1.1 200 OK\r\nContent-Type: application/json\r\nContent-Length: 15\r\n\r\n{\"numbers\":[1]}";

const LISTED_TWICE: &[u8] =
    b"HTTP/1.1 200 OK\r\nContent-Type: application/json\r\nContent-Length: 15\r\n\r\n{\"numbers\":[1]}HTTP/1.1 200 OK\r\nContent-Type: application/json\r\nContent-Length: 15\r\n\r\n{\"numbers\":[1]}";

/// A fault, which later input does not change.
const FAULTY: &[u8] = b"HELLO\r\n\r\n";

const FAULT: &[u8] =
    b"HTTP/1.1 400 Bad Request\r\nContent-Type: application/json\r\nContent-Length: 13\r\nConnection: close\r\n\r\n{\"fault\":140}";

const ACCEPT_CASES: &[AcceptCase] = &[
    AcceptCase {
        step: 0,
        requests: 1,
        request: ENROL,
        padding: 0,
        told: Some(ENROLLED),
    },
    // The fourth chunk is read 57 seconds after the first one.
    AcceptCase {
        step: 19,
        requests: 1,
        request: LIST,
        padding: 3000,
        told: Some(LISTED),
    },
    // After a minute it is not read.
    AcceptCase {
        step: 20,
        requests: 1,
        request: LIST,
        padding: 3000,
        told: None,
    },
    // Each request has a minute of its own.
    AcceptCase {
        step: 19,
        requests: 2,
        request: LIST,
        padding: 3000,
        told: Some(LISTED_TWICE),
    },
    // The last reply is sent, though more input arrived than is read before it.
    AcceptCase {
        step: 0,
        requests: 1,
        request: FAULTY,
        padding: 20_000,
        told: Some(FAULT),
    },
];

/// Returns the input of a client.
fn input_of_case(alloc: Global, row: &AcceptCase) -> Result<Vec<u8>, AllocError> {
    let mut bytes = Vec::new(alloc);
    for _request in 0..row.requests {
        bytes.extend_from_slice(row.request)?;
        for _byte in 0..row.padding {
            bytes.push(b' ')?;
        }
    }
    Ok(bytes)
}

/// Returns the output that a client gets. If memory runs out, the server may close the connection with the
/// request unread, which resets it.
fn reply_to(caller: &mut TcpStream, alloc: Global) -> Result<Vec<u8>, Stop> {
    let mut told = Vec::new(alloc);
    match caller.read_to_end(&mut told) {
        Ok(_) => Ok(told),
        Err(_) => Err(Stop::Memory),
    }
}

/// Sends the input of a client of this process, shuts down its writing side, and serves it.
fn call(rt: &HostRuntime, listener: TcpListener, row: &AcceptCase) -> Result<TcpStream, Stop> {
    let mut caller = TcpStream::connect(rt, listener.local_addr()?)?;
    caller.write_all(&input_of_case(rt.alloc(), row)?)?;
    caller.shutdown(Shutdown::Write)?;
    let watch = RequestTimer::new(TickingClock {
        step: row.step,
        seconds: Cell::new(0),
    });
    let mut callers = Callers::new(listener, &watch);
    let ending = serve_new_register(rt.alloc(), &mut callers, 1)?;
    expect(ending == Ok(()), "the ending", 0)?;
    Ok(caller)
}

/// Checks that a client on this host gets its reply.
fn expect_call(rt: &HostRuntime, place: usize, row: &AcceptCase) -> Result<(), Stop> {
    let listener = TcpListener::bind(rt, "127.0.0.1:0")?;
    let mut caller = call(rt, listener, row)?;
    let told = reply_to(&mut caller, rt.alloc());
    match row.told {
        Some(wanted) => expect_output(place, &told?, wanted),
        None => expect(told.is_err(), "the end", place),
    }
}

/// Checks all clients.
fn loopback(rt: &HostRuntime) -> Result<(), Stop> {
    for (place, row) in ACCEPT_CASES.iter().enumerate() {
        expect_call(rt, place, row)?;
    }
    Ok(())
}

#[test]
fn loopback_one_process(rt: HostRuntime) -> Result<(), Fail> {
    conclude(&rt, loopback(&rt))
}
