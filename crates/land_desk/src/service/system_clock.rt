//! The system clock.
ghost use Rattle.std.specs.Prelude.{◌≡◌};
ghost use Rattle.std.specs.Time.{system_time_nanos};
ghost use Rattle.land_desk.specs.Service.Reading.{milliseconds, reads_time};

use land_keep::clock::Clock;
use std::time;
use std::time::{SystemTime, UNIX_EPOCH};

/// The system clock. Reads Unix time in milliseconds, or 0 if it cannot be read.
#[derive(Clone, Copy, Debug, PartialEq, Eq)]
pub struct SystemClock<R> {
    /// Access to the clock of the host.
    pub machine: R,
}

impl<R: time::Clock> Clock for SystemClock<R> {
    ghost reads = { reads_time };

    fn read(&mut self) -> i64 {
        match SystemTime::now(&self.machine) {
            Ok(now) => milliseconds(now),
            Err(_) => 0,
        }
    }
}

/// Returns a time as Unix time in milliseconds, or 0 if it is before 1970 or does not fit in 64 bits.
pub fn milliseconds(now: SystemTime) -> i64
    ensures { result ≡ milliseconds (system_time_nanos now) }
{
    match now.duration_since(UNIX_EPOCH) {
        Ok(since) => i64::try_from(since.as_millis()).unwrap_or(0),
        Err(_) => 0,
    }
}
