//! Connections that a command serves, one after another or several at the same time.
ghost use Rattle.std.specs.Prelude.{None, unwrap_or};
ghost use Rattle.std.specs.Option.{option_map};

use land_commands::host::Host;
use land_commands::program_fault::ProgramFault;
use land_commands::run::run_command;
use land_commands::words::command::Command;
use land_desk::service::connections::Connections;
use land_keep::store_fault::StoreFault;
use land_pool::connection_source::ConnectionSource;
use land_tables::tables::Tables;
use sqlite::{Connection, MemStore};
use std::alloc::Global;
use std::io;
use std::io::{Read, Write};
use testlib_scenario::calls::{CALLS, Call, Calls, expect_all_outputs, sinks};
use testlib_scenario::doubles::{ClockReadings, Sink};
use testlib_scenario::run_scenario::open_sink;
use testlib_scenario::stop::{Stop, expect};

/// A reader that records whether it has failed.
#[derive(Drop)]
struct WatchedReader<R> {
    reader: R,
    has_failed: bool,
}

impl<R: Read> Read for WatchedReader<R> {
    ghost remaining = { λ it. R.Read.remaining it.reader };

    fn read(&mut self, buf: &mut [u8]) -> io::Result<usize> {
        match self.reader.read(buf) {
            Ok(count) => Ok(count),
            Err(error) => {
                self.has_failed = true;
                Err(error)
            }
        }
    }
}

/// A writer that may hold any bytes at first.
#[derive(Drop)]
struct PlainWriter<W> {
    writer: W,
}

impl<W: Write> Write for PlainWriter<W> {
    fn write(&mut self, buf: &[u8]) -> io::Result<usize> {
        self.writer.write(buf)
    }

    fn flush(&mut self) -> io::Result<()> {
        self.writer.flush()
    }
}

/// The number of keys that are ready in each round.
const KEYS: usize = 8;

/// The connections of a source, several of which are open at the same time. Waiting fails after `waits`
/// rounds.
#[derive(Drop)]
struct ManyVisits<L> {
    visits: L,
    next: usize,
    waits: u64,
}

impl<L: Connections> ConnectionSource for ManyVisits<L> {
    type Reader = WatchedReader<L::Reader>;

    type Writer = PlainWriter<L::Writer>;

    ghost coming = { λ it. L.Connections.coming it.visits };

    fn wait(&mut self) -> io::Result<()> {
        if self.waits == 0 {
            return Err(io::Error::from(io::ErrorKind::TimedOut));
        }
        self.waits -= 1;
        Ok(())
    }

    fn accept(
        &mut self,
        _key: usize,
    ) -> io::Result<(WatchedReader<L::Reader>, PlainWriter<L::Writer>)> {
        match self.visits.accept_connection() {
            Ok((reader, writer)) => {
                let watched = WatchedReader {
                    reader,
                    has_failed: false,
                };
                Ok((watched, PlainWriter { writer }))
            }
            Err(error) => Err(error),
        }
    }

    fn next_ready(&mut self) -> Option<usize> {
        if self.next >= KEYS {
            self.next = 0;
            return None;
        }
        let key = self.next;
        self.next += 1;
        Some(key)
    }

    fn close(
        &mut self,
        _number: u64,
        reader: WatchedReader<L::Reader>,
        writer: PlainWriter<L::Writer>,
        complete: bool,
    ) {
        let mut inner = reader.reader;
        let mut output = writer.writer;
        if complete {
            L::close_connection(&mut inner, &mut output);
        }
    }

    fn has_failed(reader: &WatchedReader<L::Reader>, _writer: &PlainWriter<L::Writer>) -> bool {
        reader.has_failed
    }
}

/// A host with a register in memory under every name, and with connections that are accepted once.
#[derive(Drop)]
struct MemoryHost<L> {
    alloc: Global,
    visits: Option<L>,
}

impl<L: Connections + Drop> Host for MemoryHost<L> {
    type Store = MemStore;

    type Listener = L;

    type Source = ManyVisits<L>;

    ghost holds = { λ _ _. Unit {0} };

    ghost is_closed = { λ _. Unit {0} };

    ghost coming = { λ host _. unwrap_or (option_map L.Connections.coming host.visits) None };

    fn alloc(&self) -> Global {
        self.alloc
    }

    fn open_or_create(&mut self, _file: &str) -> Result<Connection<MemStore>, ProgramFault> {
        Ok(Connection::open_in_memory(self.alloc)?)
    }

    fn open_existing(&mut self, _file: &str) -> Result<Connection<MemStore>, ProgramFault> {
        let conn = Connection::open_in_memory(self.alloc)?;
        match Tables::create(conn) {
            Ok(tables) => Ok(tables.into_connection()),
            Err((_, StoreFault::NoMemory)) => Err(ProgramFault::NoMemory),
            Err(_) => Err(ProgramFault::Open),
        }
    }

    fn close(_left: &mut Option<Connection<MemStore>>) -> Result<(), ProgramFault> {
        Ok(())
    }

    fn listen(&mut self, _port: u16) -> io::Result<L> {
        match self.visits.take() {
            Some(visits) => Ok(visits),
            None => Err(io::Error::from(io::ErrorKind::AddrInUse)),
        }
    }

    fn stop_listening(&mut self, _port: u16, listener: L) {
        self.visits = Some(listener);
    }

    fn listen_at_once(&mut self, _port: u16) -> io::Result<ManyVisits<L>> {
        match self.visits.take() {
            Some(visits) => Ok(ManyVisits {
                visits,
                next: 0,
                waits: 1000,
            }),
            None => Err(io::Error::from(io::ErrorKind::AddrInUse)),
        }
    }

    fn stop_listening_at_once(&mut self, _port: u16, source: ManyVisits<L>) {
        let visits = source.visits;
        self.visits = Some(visits);
    }
}

/// Runs the command that serves these connections, and returns its exit status.
fn status<L: Connections + Drop>(
    alloc: Global,
    visits: L,
    ending: Ending,
    output: &mut Sink,
    errors: &mut Sink,
) -> u8 {
    let command = Command::Serve {
        file: "town.land",
        port: 8080,
        connections: ending.connections,
        at_once: ending.at_once,
    };
    let mut town = MemoryHost {
        alloc,
        visits: Some(visits),
    };
    let mut input: &[u8] = b"";
    let mut clock = ClockReadings { left: &[] };
    run_command(&mut town, command, &mut input, output, errors, &mut clock)
}

/// A command that serves connections, and its result.
#[derive(Clone, Copy)]
struct Ending {
    /// The number of connections to serve.
    connections: u32,
    /// The number of connections that are open at the same time.
    at_once: u16,
    /// The exit status.
    status: u8,
    /// The error output.
    errors: &'static str,
}

/// Returns whether a command has reported that it was out of memory (501).
fn lacked_memory(errors: &Sink) -> bool {
    errors.taken.as_slice() == b"land: fault 501\n".as_slice()
}

/// Checks the result of a command, which has no output. An out-of-memory error stops the test.
fn expect_ending(ending: Ending, status: u8, output: &Sink, errors: &Sink) -> Result<(), Stop> {
    if lacked_memory(errors) {
        return Err(Stop::Memory);
    }
    let is_said = output.taken.is_empty() && errors.taken.as_slice() == ending.errors.as_bytes();
    expect(is_said && status == ending.status, "the ending", 0)
}

/// Runs the command that serves the connections, and checks its result.
fn expect_end<L: Connections + Drop>(alloc: Global, visits: L, ending: Ending) -> Result<(), Stop> {
    let mut output = open_sink(alloc, 0)?;
    let mut errors = open_sink(alloc, 64)?;
    let status = status(alloc, visits, ending, &mut output, &mut errors);
    expect_ending(ending, status, &output, &errors)
}

/// Runs the command that serves these connections, and checks its result and all replies.
fn expect_service(alloc: Global, calls: &'static [Call], ending: Ending) -> Result<(), Stop> {
    let mut sinks = sinks(alloc, calls)?;
    let visits = Calls {
        calls,
        sinks: sinks.iter_mut(),
    };
    expect_end(alloc, visits, ending)?;
    expect_all_outputs(calls, &sinks)
}

/// All connections are served, one after another.
const ALL_SERVED: Ending = Ending {
    connections: 5,
    at_once: 1,
    status: 0,
    errors: "",
};

/// The second connection cannot be accepted.
const NO_SECOND: Ending = Ending {
    connections: 2,
    at_once: 1,
    status: 1,
    errors: "land: input or output failed\n",
};

/// A command serves connections one after another.
pub fn a_command_serves_connections(alloc: Global) -> Result<(), Stop> {
    expect_service(alloc, CALLS, ALL_SERVED)
}

/// A command serves several connections at the same time.
pub fn a_command_serves_connections_at_once(alloc: Global) -> Result<(), Stop> {
    let ending = Ending {
        at_once: 3,
        ..ALL_SERVED
    };
    expect_service(alloc, CALLS, ending)
}

/// A command reports that a connection cannot be accepted.
pub fn a_failed_accept_ends_the_command(alloc: Global) -> Result<(), Stop> {
    expect_service(alloc, &CALLS[..1], NO_SECOND)
}

/// A command that serves several connections at the same time reports that it cannot wait for another one.
pub fn a_failed_wait_ends_the_command(alloc: Global) -> Result<(), Stop> {
    let ending = Ending {
        at_once: 2,
        ..NO_SECOND
    };
    expect_service(alloc, &CALLS[..1], ending)
}
