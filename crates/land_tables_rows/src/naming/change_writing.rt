//! Links of mutations to units.
ghost use Rattle.std.specs.Prelude.{◌≡◌, IsTrue};
ghost use Rattle.land_tables_history.specs.declared.naming.Naming.{Naming};
ghost use Rattle.land_tables_rows.specs.Naming.Writing.{fits_naming, naming_reading};

use crate::change_writing::versioned::Versioned;
use crate::naming::writing;
use land_tables_history::naming::Naming;
use sqlite::{Alter, Error, Transaction};
use std::alloc::Global;

impl Versioned for Naming {
    ghost reading = { naming_reading };

    ghost fits = { fits_naming };

    fn fits(&self) -> bool {
        writing::fits(*self)
    }

    fn begin<S: Alter>(
        &self,
        _alloc: Global,
        tx: &mut Transaction<'_, S>,
        since: i64,
    ) -> Result<usize, Error> {
        writing::begin(tx, *self, since)
    }
}
