//! Clocks.
ghost use Rattle.std.specs.Prelude.{ℤ};

/// A clock. It is read once for each request.
pub trait Clock {
    /// Relates the clock before a reading, the reading, and the clock after it.
    ghost reads: { Self → ℤ → Self → Type 0 };

    /// Returns the time in Unix milliseconds.
    fn read(&mut self) -> i64
        ensures { reads self.old result self.new };
}
