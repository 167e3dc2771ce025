//! Connections whose last reply was sent.
use crate::socket::Socket;
use land_desk::service::timer::LINGER;
use std::alloc::{AllocError, Global};
use std::collections::VecDeque;
use std::rc::Rc;
use std::time::{Duration, Instant};

/// A connection whose last reply was sent.
#[derive(Drop)]
struct LingeringSocket {
    socket: Rc<Socket>,
    /// When its writing side was shut down.
    shut_at: Instant,
}

/// Connections whose last reply was sent. Their input is discarded until it ends, and at most 1 s: if a
/// socket is closed with unread bytes, TCP resets the connection and the client may lose the reply.
#[derive(Drop)]
pub(crate) struct Lingering {
    /// In the order in which they were shut down, so that the first one is the next to be closed. `None`: it
    /// is closed.
    sockets: VecDeque<Option<LingeringSocket>>,
    /// The number of the first one. The others have the numbers that follow.
    first: usize,
}

impl Lingering {
    /// Returns no connections.
    pub(crate) fn new(alloc: Global) -> Lingering {
        Lingering {
            sockets: VecDeque::new(alloc),
            first: 0,
        }
    }

    /// Checks if there are none.
    pub(crate) fn is_empty(&self) -> bool {
        self.sockets.is_empty()
    }

    /// Returns the number of entries, also of those that are closed.
    pub(crate) fn len(&self) -> usize {
        self.sockets.len()
    }

    /// Returns the number of the next connection that is added.
    pub(crate) fn next_number(&self) -> usize {
        self.first.saturating_add(self.sockets.len())
    }

    /// Adds a connection whose writing side was shut down now.
    pub(crate) fn add(&mut self, socket: Rc<Socket>, shut_at: Instant) -> Result<(), AllocError> {
        let added = LingeringSocket { socket, shut_at };
        self.sockets.push_back(Some(added))?;
        Ok(())
    }

    /// Returns the socket with a number, unless it is closed.
    pub(crate) fn get(&self, number: usize) -> Option<&Rc<Socket>> {
        let place = number.checked_sub(self.first)?;
        match self.sockets.get(place) {
            Some(Some(found)) => Some(&found.socket),
            Some(None) | None => None,
        }
    }

    /// Closes the connection with a number.
    pub(crate) fn close(&mut self, number: usize) {
        if let Some(place) = number.checked_sub(self.first) {
            if let Some(slot) = self.sockets.get_mut(place) {
                *slot = None;
            }
        }
    }

    /// Closes the connections that have lingered for 1 s.
    pub(crate) fn close_overdue(&mut self, now: Instant) {
        for _closed in 0..self.sockets.len() {
            match self.first_left(now) {
                Some(left) if left > Duration::from_secs(0) => return,
                Some(_) | None => {
                    self.sockets.pop_front();
                    self.first = self.first.saturating_add(1);
                }
            }
        }
    }

    /// Returns how long the first connection still lingers, unless it is closed.
    fn first_left(&self, now: Instant) -> Option<Duration> {
        match self.sockets.front() {
            Some(Some(first)) => Some(linger_left(first.shut_at, now)),
            Some(None) | None => None,
        }
    }

    /// Returns the time until `close_overdue` closes a connection, or `None` if there are none.
    pub(crate) fn time_left(&self, now: Instant) -> Option<Duration> {
        if self.is_empty() {
            return None;
        }
        Some(self.first_left(now).unwrap_or(Duration::from_secs(0)))
    }
}

/// Returns how long a connection that was shut down at this time still lingers.
fn linger_left(shut_at: Instant, now: Instant) -> Duration {
    Duration::from_secs(LINGER).saturating_sub(now.duration_since(shut_at))
}
