//! The system clock.
use land_desk::service::system_clock::SystemClock;
use land_keep::clock::Clock;
use std::time::Duration;
use std::{io, time};

/// Checks that the clock reads a time between the years 2020 and 2100.
#[test]
fn the_machine_has_a_clock(rt: HostRuntime) {
    let mut clock = SystemClock { machine: &rt };
    let reading = clock.read();
    assert!(rt; 1_577_836_800_000 < reading && reading < 4_102_444_800_000);
}

/// A clock that always reads the same duration since 1970, or cannot be read.
#[derive(Clone, Copy)]
enum StoppedClock {
    Milliseconds(u64),
    Nanoseconds(u64),
    Broken,
}

impl StoppedClock {
    fn reading(self) -> io::Result<Duration> {
        match self {
            StoppedClock::Milliseconds(count) => Ok(Duration::from_millis(count)),
            StoppedClock::Nanoseconds(count) => Ok(Duration::from_nanos(count)),
            StoppedClock::Broken => Err(io::Error::from(io::ErrorKind::Unsupported)),
        }
    }
}

impl time::Clock for StoppedClock {
    fn monotonic(&self) -> io::Result<Duration> {
        self.reading()
    }

    fn since_1970(&self) -> io::Result<Duration> {
        self.reading()
    }
}

/// A clock, and its reading.
struct Reading(StoppedClock, i64);

const READINGS: &[Reading] = &[
    Reading(StoppedClock::Broken, 0),
    Reading(StoppedClock::Milliseconds(0), 0),
    Reading(
        StoppedClock::Milliseconds(1_795_540_511_204),
        1_795_540_511_204,
    ),
    // Fractions of a millisecond are truncated.
    Reading(StoppedClock::Nanoseconds(999_999), 0),
    Reading(StoppedClock::Nanoseconds(1_000_000), 1),
    Reading(
        StoppedClock::Nanoseconds(1_795_540_511_204_999_999),
        1_795_540_511_204,
    ),
    // The last moment that fits in 64 bits, and the next one.
    Reading(
        StoppedClock::Milliseconds(9_223_372_036_854_775_807),
        9_223_372_036_854_775_807,
    ),
    Reading(StoppedClock::Milliseconds(9_223_372_036_854_775_808), 0),
];

/// Returns the reading of a clock.
fn reading_of(machine: &StoppedClock) -> i64 {
    let mut clock = SystemClock { machine };
    clock.read()
}

#[test]
fn the_clock_counts_milliseconds_and_reads_0_where_it_cannot(rt: HostRuntime) {
    for (place, row) in READINGS.iter().enumerate() {
        assert!(rt; reading_of(&row.0) == row.1, "row {place}");
    }
}
