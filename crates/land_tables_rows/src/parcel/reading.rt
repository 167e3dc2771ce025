//! Parcels (LA_SpatialUnit).
ghost use Rattle.land_tables_rows.specs.Parcel.Reading.{parcel_in};

use crate::reading::cells::{end_at, label_at, moment_at, number_at, text_at};
use crate::reading::from_row::FromRow;
use land_core::parcel::ParcelRecord;
use land_tables_history::version::Version;
use land_wire_json::bodies::outline::outline_of;
use land_wire_json::bodies::wire_fault::WireFault;
use sqlite::Row;
use std::alloc::Global;

/// Decodes a row of `parcel`: number, unit, label, outline, source, since, until.
impl FromRow for Version<(u64, ParcelRecord)> {
    ghost said = { parcel_in };

    #[tactic(auto, unfolding(crate::specs::Parcel::Reading::parcel_in))]
    fn from_row(alloc: Global, row: &Row) -> Result<Version<(u64, ParcelRecord)>, WireFault> {
        let number = number_at(row, 0)?;
        let unit = number_at(row, 1)?;
        let label = label_at(alloc, row, 2)?;
        let outline = outline_of(alloc, text_at(row, 3)?)?;
        let source = number_at(row, 4)?;
        let since = moment_at(row, 5)?;
        let until = end_at(row, 6)?;
        Ok(Version {
            what: (
                number,
                ParcelRecord {
                    unit,
                    label,
                    outline,
                    source,
                },
            ),
            since,
            until,
        })
    }
}
