//! The port: its listener, its sockets and its loop of events.
use crate::lingering::Lingering;
use crate::socket::{Socket, SocketReader, SocketWriter};
use land_pool::connection_source::ConnectionSource;
use mio::event::Event;
use mio::net::TcpListener;
use mio::{Events, Interest, Poll, Token};
use std::alloc::{AllocError, Global};
use std::cell::Cell;
use std::collections::VecDeque;
use std::io::ErrorKind;
use std::net::{Ipv4Addr, Net, SocketAddr};
use std::rc::Rc;
use std::time::{Duration, Instant};
use std::{io, time};

/// The maximum number of events of one wait. Others are reported by the next one.
const EVENTS_PER_WAIT: usize = 1024;

/// The time between two sweeps, in seconds.
const SWEEP_INTERVAL: u64 = 1;

/// The token of the listener.
const LISTENER: Token = Token(usize::MAX);

/// The first token of lingering sockets. The token of an open socket is its key, which is less.
const FIRST_LINGERING: usize = 1 << 63;

/// A TCP port of 127.0.0.1, whose connections are open at the same time.
///
/// A round gives one turn to each socket that is ready, in the order in which they became ready. A socket
/// that moved bytes in its turn has another one in the next round, after the others. Each round accepts at
/// most one connection. So neither a client that sends without end nor new clients keep others waiting.
///
/// Idle sockets cost nothing but a sweep each second, which finds the overdue ones. If memory runs out, only
/// the connection concerned is opened later, or closed.
#[derive(Drop)]
pub struct Port<M> {
    machine: M,
    alloc: Global,
    poll: Poll,
    events: Events,
    listener: TcpListener,
    /// Whether a connection may be pending.
    has_pending: bool,
    /// Whether the next wait returns at once, since a connection may be accepted.
    is_hurried: bool,
    /// A connection that was accepted, if memory ran out before it was open.
    unopened: Option<Socket>,
    /// The last reading of the clock, shared with the sockets.
    now: Rc<Cell<Instant>>,
    swept_at: Instant,
    /// The open sockets, each at its key.
    open: Vec<Option<Rc<Socket>>>,
    lingering: Lingering,
    /// The tokens of the sockets that have a turn in this round or the next one.
    ready: VecDeque<usize>,
    /// The number of turns that are left in this round.
    turns_left: usize,
    /// The key of the socket that has its turn.
    turn: Option<usize>,
}

/// Queues a turn of a socket. If out of memory, which `reserve` prevents, the next sweep closes the socket.
fn queue(socket: &Socket, token: usize, ready: &mut VecDeque<usize>) {
    if socket.queue() && ready.push_back(token).is_err() {
        socket.give_up();
    }
}

/// Records an event of a socket, and queues a turn of it if it may have something to do.
fn take_event(socket: &Socket, event: &Event, ready: &mut VecDeque<usize>) {
    if socket.record_event(event) {
        queue(socket, event.token().0, ready);
    }
}

/// Checks if an error of accept took the connection from the pending ones, so that the next one can be
/// accepted.
fn is_of_one_connection(kind: ErrorKind) -> bool {
    match kind {
        ErrorKind::ConnectionAborted | ErrorKind::ConnectionReset | ErrorKind::Interrupted => true,
        _ => false,
    }
}

impl<M: time::Clock + Drop> Port<M> {
    /// Listens on a port of 127.0.0.1; on any free one if it is 0. `machine`: the clock of the timeouts.
    pub fn listen(machine: M, net: &impl Net, alloc: Global, port: u16) -> io::Result<Port<M>> {
        let mut listener = TcpListener::bind(net, SocketAddr::from((Ipv4Addr::LOCALHOST, port)))?;
        let poll = Poll::new(net)?;
        poll.registry()
            .register(&mut listener, LISTENER, Interest::READABLE)?;
        let now = Instant::now(&machine)?;
        Ok(Port {
            machine,
            alloc,
            poll,
            events: Events::with_capacity(alloc, EVENTS_PER_WAIT)?,
            listener,
            has_pending: true,
            is_hurried: true,
            unopened: None,
            now: Rc::new(alloc, Cell::new(now))?,
            swept_at: now,
            open: Vec::new(alloc),
            lingering: Lingering::new(alloc),
            ready: VecDeque::new(alloc),
            turns_left: 0,
            turn: None,
        })
    }

    /// Returns the address of the port.
    pub fn local_addr(&self) -> io::Result<SocketAddr> {
        self.listener.local_addr()
    }

    /// Discards the input of the connections whose last reply was sent, until it ends, and at most 1 s, so
    /// that these replies arrive. Call it after the service has ended: the connections that it dropped are
    /// shut down too, so that the replies which were written to them arrive.
    pub fn drain(&mut self) {
        for _dropped in 0..self.open.len() {
            if let Some(Some(socket)) = self.open.pop() {
                self.linger(socket);
            }
        }
        for _round in 0..u64::MAX {
            if self.lingering.is_empty() || self.wait().is_err() {
                return;
            }
            self.next_ready();
        }
    }

    /// Returns how long to wait for an event: not at all if a turn is due, else until the next sweep or until
    /// a lingering connection is closed.
    fn timeout(&self) -> Duration {
        if self.is_hurried || !self.ready.is_empty() {
            return Duration::from_secs(0);
        }
        let now = self.now.get();
        let since_sweep = now.duration_since(self.swept_at);
        let most = Duration::from_secs(SWEEP_INTERVAL).saturating_sub(since_sweep);
        match self.lingering.time_left(now) {
            Some(left) if left < most => left,
            Some(_) | None => most,
        }
    }

    /// Queues the sockets about which an event was reported.
    fn take_events(&mut self) {
        for event in self.events.iter() {
            let token = event.token();
            if token == LISTENER {
                self.has_pending = true;
                continue;
            }
            match token.0.checked_sub(FIRST_LINGERING) {
                Some(number) => {
                    if let Some(socket) = self.lingering.get(number) {
                        take_event(socket, event, &mut self.ready);
                    }
                }
                None => {
                    if let Some(Some(socket)) = self.open.get(token.0) {
                        take_event(socket, event, &mut self.ready);
                    }
                }
            }
        }
    }

    /// Each second, queues the open sockets that have failed. Accepting is tried again too: the process may
    /// have had no free descriptor.
    fn sweep_if_due(&mut self) {
        let now = self.now.get();
        if now.duration_since(self.swept_at) < Duration::from_secs(SWEEP_INTERVAL) {
            return;
        }
        self.swept_at = now;
        self.has_pending = true;
        for (key, slot) in self.open.iter().enumerate() {
            if let Some(socket) = slot {
                if socket.has_failed() {
                    queue(socket, key, &mut self.ready);
                }
            }
        }
    }

    /// Ends the turn of an open socket, and queues the next one if it moved bytes.
    fn end_turn(&mut self) {
        let Some(key) = self.turn.take() else {
            return;
        };
        if let Some(Some(socket)) = self.open.get(key) {
            if socket.has_advanced() {
                queue(socket, key, &mut self.ready);
            }
        }
    }

    /// Starts the turn of the open socket at a key. Returns `false` if it has none.
    fn start_turn(&mut self, key: usize) -> bool {
        let Some(Some(socket)) = self.open.get(key) else {
            return false;
        };
        if !socket.start_turn() {
            return false;
        }
        self.read_clock();
        self.turn = Some(key);
        true
    }

    /// Reads the clock again, since a turn may take long. If it cannot be read, the last reading stays.
    fn read_clock(&self) {
        if let Ok(now) = Instant::now(&self.machine) {
            self.now.set(now);
        }
    }

    /// Discards input of a lingering socket, and closes it if that is the end.
    fn discard(&mut self, number: usize) {
        let Some(socket) = self.lingering.get(number) else {
            return;
        };
        if !socket.start_turn() {
            return;
        }
        if !socket.discard() {
            self.lingering.close(number);
            return;
        }
        if socket.has_advanced() {
            let token = FIRST_LINGERING.saturating_add(number);
            queue(socket, token, &mut self.ready);
        }
    }

    /// Allocates the entry of a key, and space for a turn of each socket.
    fn reserve(&mut self, key: usize) -> Result<(), AllocError> {
        for _entry in self.open.len()..key.saturating_add(1) {
            self.open.push(None)?;
        }
        let sockets = self.open.len().saturating_add(self.lingering.len());
        self.ready.reserve(sockets.saturating_sub(self.ready.len()))
    }

    /// Returns the next connection: the one for which memory ran out before, or the next pending one.
    fn next_connection(&mut self) -> io::Result<Socket> {
        if let Some(socket) = self.unopened.take() {
            return Ok(socket);
        }
        let now = self.now.clone()?;
        match self.listener.accept() {
            Ok((stream, _)) => {
                // Each reply is sent at once, even if the one before is not acknowledged yet. If that cannot
                // be set, replies are only later.
                match stream.set_nodelay(true) {
                    Ok(()) | Err(_) => {}
                }
                Ok(Socket::new(stream, now))
            }
            Err(error) => {
                self.has_pending = is_of_one_connection(error.kind());
                self.is_hurried = self.has_pending;
                Err(error)
            }
        }
    }

    /// Shares an open socket with its reader and its writer, and queues its first turn. If the system refuses
    /// to report its events, it is closed.
    fn share(
        &mut self,
        key: usize,
        socket: Rc<Socket>,
    ) -> io::Result<(SocketReader, SocketWriter)> {
        self.is_hurried = true;
        socket.register(self.poll.registry(), Token(key))?;
        let reader = SocketReader {
            socket: socket.clone()?,
        };
        let writer = SocketWriter {
            socket: socket.clone()?,
        };
        queue(&socket, key, &mut self.ready);
        self.turns_left = self.turns_left.saturating_add(1);
        if let Some(slot) = self.open.get_mut(key) {
            *slot = Some(socket);
        }
        Ok((reader, writer))
    }

    /// Shuts down the writing side of a connection, and adds it to the lingering ones. It is closed at once
    /// if its input has ended, since no byte is unread then, or if the client has reset it.
    fn linger(&mut self, socket: Rc<Socket>) {
        if socket.is_at_end() || !socket.shut_down() {
            return;
        }
        // A turn that is queued under its key, as after the service has ended, is not its turn any more.
        socket.start_turn();
        let token = FIRST_LINGERING.saturating_add(self.lingering.next_number());
        if socket
            .register_again(self.poll.registry(), Token(token))
            .is_err()
        {
            return;
        }
        self.read_clock();
        match self.lingering.add(socket, self.now.get()) {
            Ok(()) | Err(_) => {}
        }
    }
}

impl<M: time::Clock + Drop> ConnectionSource for Port<M> {
    type Reader = SocketReader;

    type Writer = SocketWriter;

    fn wait(&mut self) -> io::Result<()> {
        self.end_turn();
        let timeout = self.timeout();
        self.is_hurried = false;
        self.poll.poll(&mut self.events, Some(timeout))?;
        self.now.set(Instant::now(&self.machine)?);
        self.take_events();
        self.sweep_if_due();
        self.lingering.close_overdue(self.now.get());
        self.turns_left = self.ready.len();
        Ok(())
    }

    /// If accepting fails, as without a free descriptor, none is pending until the next sweep or event, or
    /// until a connection is closed. A connection that the client has reset does not count. If memory runs
    /// out, the connection is opened later.
    fn accept(&mut self, key: usize) -> io::Result<(SocketReader, SocketWriter)> {
        if !self.has_pending {
            return Err(io::Error::from(ErrorKind::WouldBlock));
        }
        self.reserve(key)?;
        let mut socket = self.next_connection()?;
        socket.set_key(key);
        match Rc::new(self.alloc, socket) {
            Ok(socket) => self.share(key, socket),
            Err(failed) => {
                self.unopened = Some(failed.value);
                Err(io::Error::from(ErrorKind::OutOfMemory))
            }
        }
    }

    fn next_ready(&mut self) -> Option<usize> {
        self.end_turn();
        for _turn in 0..self.turns_left {
            self.turns_left = self.turns_left.saturating_sub(1);
            let token = self.ready.pop_front()?;
            match token.checked_sub(FIRST_LINGERING) {
                Some(number) => self.discard(number),
                None => {
                    if self.start_turn(token) {
                        return Some(token);
                    }
                }
            }
        }
        None
    }

    fn close(&mut self, _number: u64, reader: SocketReader, writer: SocketWriter, complete: bool) {
        let socket = reader.socket;
        drop(writer);
        if let Some(slot) = self.open.get_mut(socket.key()) {
            *slot = None;
        }
        self.has_pending = true;
        self.is_hurried = true;
        // Any other connection is closed here, where its last handle is dropped.
        if complete {
            self.linger(socket);
        }
    }

    fn has_failed(reader: &SocketReader, _writer: &SocketWriter) -> bool {
        reader.socket.has_failed()
    }
}
