//! Mandates that parties have given.
ghost use Rattle.std.specs.Prelude.{◌≡◌, IsTrue};
ghost use Rattle.land_core.specs.declared.mandates.Mandate.{Mandate};
ghost use Rattle.land_tables_history.specs.Intervals.{is_same_mandate};
ghost use Rattle.land_tables_rows.specs.Mandate.Writing.{fits_mandate, mandate_reading};

use crate::change_writing::versioned::{Closable, HasKey, Versioned};
use crate::mandate::writing;
use land_core::mandates::Mandate;
use sqlite::{Alter, Error, Transaction};
use std::alloc::Global;

impl Versioned for Mandate {
    ghost reading = { mandate_reading };

    ghost fits = { fits_mandate };

    fn fits(&self) -> bool {
        writing::fits(*self)
    }

    fn begin<S: Alter>(
        &self,
        _alloc: Global,
        tx: &mut Transaction<'_, S>,
        since: i64,
    ) -> Result<usize, Error> {
        writing::begin(tx, *self, since)
    }
}

impl HasKey<Mandate> for Mandate {
    ghost key = { λ mandate. mandate };

    ghost number = { λ mandate. mandate.principal };

    fn key(&self) -> &Mandate {
        self
    }

    fn number(&self) -> u64 {
        self.principal
    }
}

impl Closable<Mandate> for Mandate {
    ghost has = { λ e mandate. is_same_mandate e mandate };

    ghost fits_key = { fits_mandate };

    fn fits_key(key: &Mandate) -> bool {
        writing::fits(*key)
    }

    fn close<S: Alter>(
        tx: &mut Transaction<'_, S>,
        key: &Mandate,
        stamp: i64,
    ) -> Result<usize, Error> {
        writing::close(tx, *key, stamp)
    }
}
