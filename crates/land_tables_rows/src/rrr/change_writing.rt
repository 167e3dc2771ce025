//! The entries of units: rights, restrictions, responsibilities and mortgages (LA_RRR).
ghost use Rattle.std.specs.Prelude.{◌≡◌, ℕ, nat_eq, IsTrue};
ghost use Rattle.land_core.specs.Numbers.{is_number};
ghost use Rattle.land_core.specs.declared.rrr.RrrRecord.{RrrRecord};
ghost use Rattle.land_tables_rows.specs.Rrr.Cells.{fits_rrr};
ghost use Rattle.land_tables_rows.specs.Rrr.Writing.{rrr_reading};

use crate::change_writing::versioned::{Closable, Versioned};
use crate::rrr::writing;
use land_core::limits::is_number;
use land_core::rrr::RrrRecord;
use sqlite::{Alter, Error, Transaction};
use std::alloc::Global;

impl Versioned for (u64, RrrRecord) {
    ghost reading = { rrr_reading };

    ghost fits = { fits_rrr };

    fn fits(&self) -> bool {
        writing::fits(self.0, &self.1)
    }

    fn begin<S: Alter>(
        &self,
        _alloc: Global,
        tx: &mut Transaction<'_, S>,
        since: i64,
    ) -> Result<usize, Error> {
        writing::begin(tx, self.0, &self.1, since)
    }
}

impl Closable<u64> for (u64, RrrRecord) {
    ghost has = { λ e number. nat_eq e.0 number };

    ghost fits_key = { is_number };

    fn fits_key(key: &u64) -> bool {
        is_number(*key)
    }

    fn close<S: Alter>(tx: &mut Transaction<'_, S>, key: &u64, stamp: i64) -> Result<usize, Error> {
        writing::close(tx, *key, stamp)
    }
}
