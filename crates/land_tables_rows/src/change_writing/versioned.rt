//! Records that have versions in a table.
ghost use Rattle.std.specs.Prelude.{◌≡◌, ℕ, Bool, IsTrue};
ghost use Rattle.land_core.specs.Numbers.{IsMoment};
ghost use Rattle.land_tables_rows.specs.Effects.{Performs};
ghost use Rattle.land_tables_rows.specs.Writing.Holding.{Begins, ClosesVersions, Reading};
ghost use Rattle.land_tables_schema.specs.Connections.{HasRegisterTables, SameReference};

use sqlite::{Alter, Error, Transaction};
use std::alloc::Global;

/// A record that has versions in a table.
pub trait Versioned {
    /// How its versions are decoded from the table.
    ghost reading: { Reading Self };

    /// Whether the record can be written.
    ghost fits: { Self → Bool };

    /// Checks if the record can be written.
    fn fits(&self) -> bool
        ensures { result ≡ fits self.now };

    /// Begins a version of the record.
    fn begin<S: Alter>(
        &self,
        alloc: Global,
        tx: &mut Transaction<'_, S>,
        since: i64,
    ) -> Result<usize, Error>
        requires fits { IsTrue (fits self.now) }
        requires moment { IsMoment since }
        requires has_tables { HasRegisterTables S.Store tx.old.conn.now }
        ensures same_reference { SameReference tx.old tx.new }
        ensures step { Performs S.Store result (Begins reading self.now since) tx.old tx.new };
}

/// A record that has a key.
pub trait HasKey<K> {
    /// Returns its key.
    ghost key: { Self → K };

    /// Returns the number of its object. A role has that of its party, a mandate that of its principal.
    ghost number: { Self → ℕ };

    /// Returns its key.
    fn key(&self) -> &K
        ensures { result.now ≡ key self.now };

    /// Returns the number of its object. A role has that of its party, a mandate that of its principal.
    fn number(&self) -> u64
        ensures { result ≡ number self.now };
}

impl<V> HasKey<u64> for (u64, V) {
    ghost key = { λ e. e.0 };

    ghost number = { λ e. e.0 };

    fn key(&self) -> &u64 {
        &self.0
    }

    fn number(&self) -> u64 {
        self.0
    }
}

/// A record whose versions in a table are closed by key.
pub trait Closable<K>: Versioned {
    /// Whether the record has a key.
    ghost has: { Self → K → Bool };

    /// Whether a key can be written.
    ghost fits_key: { K → Bool };

    /// Checks if a key can be written.
    fn fits_key(key: &K) -> bool
        ensures { result ≡ fits_key key.now };

    /// Closes the current versions with a key.
    fn close<S: Alter>(tx: &mut Transaction<'_, S>, key: &K, stamp: i64) -> Result<usize, Error>
        requires fits { IsTrue (fits_key key.now) }
        requires moment { IsMoment stamp }
        requires has_tables { HasRegisterTables S.Store tx.old.conn.now }
        ensures same_reference { SameReference tx.old tx.new }
        ensures step { Performs S.Store result
            (ClosesVersions Self.reading (λ x. has x key.now) stamp) tx.old tx.new };
}
