//! Timeouts of a connection.
ghost use Rattle.std.specs.Prelude.{◌≡◌, ◌≤◌, IfOk};
ghost use Rattle.std.specs.Duration.{as_nanos};
ghost use Rattle.land_desk.specs.Service.Waiting.{idle_timeout, linger, read_timeout_after};

use std::cell::Cell;
use std::time::{Duration, Instant};
use std::{io, time};

/// The longest wait, in seconds, for the next bytes of a connection, and until it accepts bytes of a reply.
pub(crate) const IDLE_TIMEOUT: u64 = 30;

/// The longest time, in seconds, from the first bytes of a request to its last.
const REQUEST_TIMEOUT: u64 = 60;

/// The time, in seconds, for which input is discarded after the last reply.
pub const LINGER: u64 = 1;

/// Returns the longest wait for the next bytes of a request that has taken `taken` until now.
pub fn read_timeout(taken: Duration) -> Duration
    ensures { as_nanos result ≡ read_timeout_after (as_nanos taken) }
{
    let most = Duration::from_secs(IDLE_TIMEOUT);
    let left = Duration::from_secs(REQUEST_TIMEOUT).saturating_sub(taken);
    if left < most { left } else { most }
}

/// Measures how long a request takes, by the clock of the host. The reader and the writer of a connection
/// share it. A request starts with the first bytes that are read after a reply was written.
#[derive(Drop)]
pub struct RequestTimer<M> {
    machine: M,
    started_at: Cell<Option<Instant>>,
}

impl<M: time::Clock> RequestTimer<M> {
    /// Creates a timer. No request has started.
    pub fn new(machine: M) -> RequestTimer<M> {
        RequestTimer {
            machine,
            started_at: Cell::new(None),
        }
    }

    /// Reads the clock.
    pub fn now(&self) -> io::Result<Instant> {
        Instant::now(&self.machine)
    }

    /// Records that bytes of a request arrived. The first ones start the request.
    pub fn start(&self) -> io::Result<()> {
        if self.started_at.get().is_none() {
            self.started_at.set(Some(self.now()?));
        }
        Ok(())
    }

    /// Records that no request has started: the connection is new, or a reply was written.
    pub fn reset(&self) {
        self.started_at.set(None);
    }

    /// Returns the longest wait for the next bytes: 0 if the request has taken its 60 s.
    pub fn next_timeout(&self) -> io::Result<Duration>
        ensures { IfOk result (λ next_timeout. as_nanos next_timeout ≤ idle_timeout) }
    {
        match self.started_at.get() {
            Some(started_at) => Ok(read_timeout(started_at.elapsed(&self.machine)?)),
            None => Ok(Duration::from_secs(IDLE_TIMEOUT)),
        }
    }

    /// Returns how long input is still discarded of a connection whose last reply was sent at `served`.
    pub fn linger_left(&self, served: Instant) -> io::Result<Duration>
        ensures { IfOk result (λ left. as_nanos left ≤ linger) }
    {
        let gone = served.elapsed(&self.machine)?;
        Ok(Duration::from_secs(LINGER).saturating_sub(gone))
    }
}
