//! A fixed clock.
ghost use Rattle.land_commands.specs.Program.{reads_fixed};

use land_keep::clock::Clock;

/// A clock that always reads the same.
#[derive(Clone, Copy, Debug, PartialEq, Eq)]
pub struct FixedClock {
    /// The reading, in Unix milliseconds.
    pub reading: i64,
}

impl Clock for FixedClock {
    ghost reads = { reads_fixed };

    fn read(&mut self) -> i64 {
        self.reading
    }
}
