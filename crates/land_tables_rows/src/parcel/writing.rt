//! Parcels (LA_SpatialUnit).
ghost use Rattle.std.specs.Prelude.{◌≡◌, ◌<◌, ◌^◌, IsTrue, nat_eq};
ghost use Rattle.land_core.specs.Numbers.{IsMoment};
ghost use Rattle.land_tables_rows.specs.Effects.{Performs};
ghost use Rattle.land_tables_rows.specs.Parcel.Cells.{fits_parcel};
ghost use Rattle.land_tables_rows.specs.Parcel.Writing.{parcel_reading};
ghost use Rattle.land_tables_rows.specs.Writing.Holding.{Begins, ClosesVersions};
ghost use Rattle.land_tables_schema.specs.Connections.{HasRegisterTables, SameReference};

use crate::cells::laws::parcels_read_back;
use crate::parcel::cells::{fits_parcel, parcel_cells};
use land_core::parcel::ParcelRecord;
use land_tables_schema::rows::tables as rows;
use sqlite::{Alter, Error, Transaction};

/// Checks if a parcel can be written: its numbers and its label are within their limits.
pub fn fits(number: u64, parcel: &ParcelRecord) -> bool
    ensures { result ≡ fits_parcel (number, parcel.now) }
{
    fits_parcel(number, parcel)
}

/// Begins a version of a parcel.
pub fn begin<S: Alter>(
    tx: &mut Transaction<'_, S>,
    number: u64,
    parcel: &ParcelRecord,
    since: i64,
) -> Result<usize, Error>
    requires fits { IsTrue (fits_parcel (number, parcel.now)) }
    requires moment { IsMoment since }
    requires has_tables { HasRegisterTables S.Store tx.old.conn.now }
    ensures same_reference { SameReference tx.old tx.new }
    ensures step { Performs S.Store result (Begins parcel_reading (number, parcel.now) since) tx.old tx.new }
{
    parcels_read_back();
    parcel.outline.points();
    let cells = parcel_cells(number, parcel)?;
    rows::parcel::begin(
        tx,
        cells.number,
        cells.unit,
        cells.label,
        cells.outline.as_str(),
        cells.source,
        since,
    )
}

/// Closes the current version of a parcel.
pub fn close<S: Alter>(tx: &mut Transaction<'_, S>, number: u64, stamp: i64) -> Result<usize, Error>
    requires number_fits { number < 2 ^ 63 }
    requires moment { IsMoment stamp }
    requires has_tables { HasRegisterTables S.Store tx.old.conn.now }
    ensures same_reference { SameReference tx.old tx.new }
    ensures step { Performs S.Store result
        (ClosesVersions parcel_reading (λ e. nat_eq e.0 number) stamp) tx.old tx.new }
{
    rows::parcel::close(tx, number, stamp)
}
