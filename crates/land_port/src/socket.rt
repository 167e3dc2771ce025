//! Sockets whose reads and writes do not block.
ghost use Rattle.std.specs.Io.{ReadsAtMost, WritesAtMost};

use land_desk::service::timer::read_timeout;
use mio::event::Event;
use mio::net::TcpStream;
use mio::unix::SourceFd;
use mio::{Interest, Registry, Token};
use std::cell::Cell;
use std::io;
use std::io::{ErrorKind, Read, Write};
use std::net::Shutdown;
use std::os::fd::AsRawFd;
use std::rc::Rc;
use std::time::{Duration, Instant};

/// The maximum number of reads with which input is discarded in one turn.
const DISCARDS_PER_TURN: u32 = 16;

/// A socket with its readiness and its timeouts. The reader and the writer of a connection share it with the
/// port.
///
/// Events are edges: after one, reads succeed until one would block, and only then another event follows.
/// Likewise for writes. So a read that would block is not tried again before the next event.
#[derive(Drop)]
pub(crate) struct Socket {
    stream: TcpStream,
    /// The key under which the connection is open.
    key: usize,
    /// The last reading of the clock of the port.
    now: Rc<Cell<Instant>>,
    /// Whether a read may succeed.
    is_readable: Cell<bool>,
    /// Whether a write may succeed.
    is_writable: Cell<bool>,
    /// Whether an event reported that the client shut down its writing side. It still gets its replies.
    is_half_closed: Cell<bool>,
    /// Whether a read returned the end of the input.
    is_at_end: Cell<bool>,
    /// Whether a read or a write failed.
    is_broken: Cell<bool>,
    /// Whether bytes were read or written in this turn.
    has_advanced: Cell<bool>,
    /// Whether a turn is due.
    is_queued: Cell<bool>,
    /// When bytes were last read or written.
    active_at: Cell<Instant>,
    /// When the first bytes of a request were read, if no reply was written since.
    started_at: Cell<Option<Instant>>,
    /// Since when no byte of the replies is accepted, if some are unsent.
    blocked_at: Cell<Option<Instant>>,
}

impl Socket {
    /// Creates the socket of a new connection, whose key is to be set. `now`: the clock of the port.
    pub(crate) fn new(stream: TcpStream, now: Rc<Cell<Instant>>) -> Socket {
        let opened_at = now.get();
        Socket {
            stream,
            key: 0,
            now,
            is_readable: Cell::new(true),
            is_writable: Cell::new(true),
            is_half_closed: Cell::new(false),
            is_at_end: Cell::new(false),
            is_broken: Cell::new(false),
            has_advanced: Cell::new(false),
            is_queued: Cell::new(false),
            active_at: Cell::new(opened_at),
            started_at: Cell::new(None),
            blocked_at: Cell::new(None),
        }
    }

    /// Sets the key under which the connection is open.
    pub(crate) fn set_key(&mut self, key: usize) {
        self.key = key;
    }

    /// Returns the key under which the connection is open.
    pub(crate) fn key(&self) -> usize {
        self.key
    }

    /// Has events of the socket reported under a token: those for reads and for writes.
    pub(crate) fn register(&self, registry: &Registry, token: Token) -> io::Result<()> {
        let descriptor = self.stream.as_raw_fd();
        registry.register(
            &mut SourceFd(&descriptor),
            token,
            Interest::READABLE | Interest::WRITABLE,
        )
    }

    /// Has only events for reads reported, under another token. If bytes are unread, one is reported.
    pub(crate) fn register_again(&self, registry: &Registry, token: Token) -> io::Result<()> {
        let descriptor = self.stream.as_raw_fd();
        registry.reregister(&mut SourceFd(&descriptor), token, Interest::READABLE)
    }

    /// Records an event. Returns whether a turn is due: a read may succeed, or a write that was blocked.
    pub(crate) fn record_event(&self, event: &Event) -> bool {
        let reads = event.is_readable() || event.is_read_closed() || event.is_error();
        let writes = event.is_writable() || event.is_write_closed() || event.is_error();
        let was_blocked = !self.is_writable.get();
        if reads {
            self.is_readable.set(true);
        }
        if writes {
            self.is_writable.set(true);
        }
        if event.is_read_closed() {
            self.is_half_closed.set(true);
        }
        reads || writes && was_blocked
    }

    /// Reads if that does not block.
    fn read(&self, buf: &mut [u8]) -> io::Result<usize>
        ensures { ReadsAtMost result buf.new }
    {
        if !self.is_readable.get() {
            return Err(io::Error::from(ErrorKind::WouldBlock));
        }
        match (&self.stream).read(buf) {
            Ok(0) => {
                self.is_at_end.set(true);
                Ok(0)
            }
            Ok(count) => {
                self.record_read(count < buf.len());
                Ok(count)
            }
            Err(error) => {
                self.record_error(error.kind(), &self.is_readable);
                Err(error)
            }
        }
    }

    /// Records that bytes were read. `is_short`: fewer than there was space for.
    fn record_read(&self, is_short: bool) {
        let now = self.now.get();
        self.active_at.set(now);
        if self.started_at.get().is_none() {
            self.started_at.set(Some(now));
        }
        self.has_advanced.set(true);
        // A short read took all bytes, and more bytes or the end of the input are another event. Only if that
        // event was reported already, the end is still to be read.
        if is_short && !self.is_half_closed.get() {
            self.is_readable.set(false);
        }
    }

    /// Writes if that does not block. If the client has closed the connection, that is an error and no
    /// signal.
    fn write(&self, buf: &[u8]) -> io::Result<usize>
        ensures { WritesAtMost result buf.now }
    {
        if !self.is_writable.get() {
            return Err(io::Error::from(ErrorKind::WouldBlock));
        }
        match (&self.stream).write(buf) {
            Ok(count) => {
                self.record_write();
                Ok(count)
            }
            Err(error) => {
                self.record_error(error.kind(), &self.is_writable);
                self.record_blocked();
                Err(error)
            }
        }
    }

    /// Records that bytes were written. The next bytes that are read start another request.
    fn record_write(&self) {
        self.active_at.set(self.now.get());
        self.started_at.set(None);
        self.blocked_at.set(None);
        self.has_advanced.set(true);
    }

    /// Records that no byte is accepted.
    fn record_blocked(&self) {
        if self.blocked_at.get().is_none() {
            self.blocked_at.set(Some(self.now.get()));
        }
    }

    /// Records that a read or a write failed. `is_ready`: whether the next one may succeed.
    ///
    /// If it would block, an event follows. If a signal interrupted it, it is tried in the next turn. Any
    /// other error, as after a reset by the client, is final.
    fn record_error(&self, kind: ErrorKind, is_ready: &Cell<bool>) {
        match kind {
            ErrorKind::WouldBlock => is_ready.set(false),
            ErrorKind::Interrupted => self.has_advanced.set(true),
            _ => self.is_broken.set(true),
        }
    }

    /// Checks if the connection is broken, or a timeout has passed.
    pub(crate) fn has_failed(&self) -> bool {
        self.is_broken.get() || self.is_overdue()
    }

    /// Checks if a timeout has passed: 30 s without a byte read or written, 60 s from the first bytes of a
    /// request without its last, or 30 s in which the client accepted no byte of its replies.
    fn is_overdue(&self) -> bool {
        let now = self.now.get();
        let active_at = self.active_at.get();
        let started_at = self.started_at.get().unwrap_or(active_at);
        let blocked_at = self.blocked_at.get().unwrap_or(now);
        let taken = active_at.duration_since(started_at);
        now.duration_since(active_at) >= read_timeout(taken)
            || now.duration_since(blocked_at) >= read_timeout(Duration::from_secs(0))
    }

    /// Checks if the whole input was read.
    pub(crate) fn is_at_end(&self) -> bool {
        self.is_at_end.get()
    }

    /// Shuts down the writing side. Returns whether that succeeded.
    pub(crate) fn shut_down(&self) -> bool {
        self.stream.shutdown(Shutdown::Write).is_ok()
    }

    /// Reads and discards input, at most 64 KiB. Returns `false` if the input has ended or the connection is
    /// broken.
    pub(crate) fn discard(&self) -> bool {
        let mut piece = [0; 4096];
        for _read in 0..DISCARDS_PER_TURN {
            match self.read(&mut piece) {
                Ok(0) => return false,
                Ok(_) => {}
                Err(_) => return !self.is_broken.get(),
            }
        }
        true
    }

    /// Queues a turn, unless one is queued. Returns whether it was not.
    pub(crate) fn queue(&self) -> bool {
        !self.is_queued.replace(true)
    }

    /// Records that no turn can be queued. The connection counts as broken.
    pub(crate) fn give_up(&self) {
        self.is_queued.set(false);
        self.is_broken.set(true);
    }

    /// Starts a turn. Returns whether one was queued.
    pub(crate) fn start_turn(&self) -> bool {
        self.has_advanced.set(false);
        self.is_queued.replace(false)
    }

    /// Checks if bytes were read or written in this turn. Then there may be more to do without another event.
    pub(crate) fn has_advanced(&self) -> bool {
        self.has_advanced.get()
    }
}

/// Reads the input of a connection.
#[derive(Drop)]
pub struct SocketReader {
    pub(crate) socket: Rc<Socket>,
}

impl Read for SocketReader {
    fn read(&mut self, buf: &mut [u8]) -> io::Result<usize> {
        self.socket.read(buf)
    }
}

/// Writes the replies to a connection.
#[derive(Drop)]
pub struct SocketWriter {
    pub(crate) socket: Rc<Socket>,
}

impl Write for SocketWriter {
    fn write(&mut self, buf: &[u8]) -> io::Result<usize> {
        self.socket.write(buf)
    }

    fn flush(&mut self) -> io::Result<()> {
        Ok(())
    }
}
