//! Parcels (LA_SpatialUnit).
ghost use Rattle.std.specs.Prelude.{◌≡◌, ℕ, nat_eq, IsTrue};
ghost use Rattle.land_core.specs.Numbers.{is_number};
ghost use Rattle.land_core.specs.declared.parcel.ParcelRecord.{ParcelRecord};
ghost use Rattle.land_tables_rows.specs.Parcel.Cells.{fits_parcel};
ghost use Rattle.land_tables_rows.specs.Parcel.Writing.{parcel_reading};

use crate::change_writing::versioned::{Closable, Versioned};
use crate::parcel::writing;
use land_core::limits::is_number;
use land_core::parcel::ParcelRecord;
use sqlite::{Alter, Error, Transaction};
use std::alloc::Global;

impl Versioned for (u64, ParcelRecord) {
    ghost reading = { parcel_reading };

    ghost fits = { fits_parcel };

    fn fits(&self) -> bool {
        writing::fits(self.0, &self.1)
    }

    fn begin<S: Alter>(
        &self,
        _alloc: Global,
        tx: &mut Transaction<'_, S>,
        since: i64,
    ) -> Result<usize, Error> {
        writing::begin(tx, self.0, &self.1, since)
    }
}

impl Closable<u64> for (u64, ParcelRecord) {
    ghost has = { λ e number. nat_eq e.0 number };

    ghost fits_key = { is_number };

    fn fits_key(key: &u64) -> bool {
        is_number(*key)
    }

    fn close<S: Alter>(tx: &mut Transaction<'_, S>, key: &u64, stamp: i64) -> Result<usize, Error> {
        writing::close(tx, *key, stamp)
    }
}
