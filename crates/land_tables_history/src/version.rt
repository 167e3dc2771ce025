//! Versions of records (LADM: VersionedObject).
ghost use Rattle.std.specs.Prelude.{◌≡◌};
ghost use Rattle.land_tables_history.specs.Standing.{is_current};

/// The end of the lifespan of a current version: the first millisecond of the year 2100, after all moments.
pub const NEVER: i64 = 4_102_444_800_000;

/// A value with a lifespan.
#[derive(Debug, Drop)]
pub struct Version<X> {
    /// The value.
    pub what: X,
    /// The start of the lifespan, inclusive, in Unix milliseconds.
    pub since: i64,
    /// The end of the lifespan, exclusive, in Unix milliseconds; `NEVER` if the version is current.
    pub until: i64,
}

impl<X> Version<X> {
    /// Returns whether the version is current at a moment: a lifespan includes its start, and not its end.
    pub fn is_current(&self, at: i64) -> bool
        ensures { result ≡ is_current at self.now }
    {
        self.since <= at && at < self.until
    }
}
