//! The cells in which parcels are written (LA_SpatialUnit).
ghost use Rattle.std.specs.Prelude.{◌≡◌, IfOk, true};
ghost use Rattle.land_tables_rows.specs.Parcel.Cells.{FitsParcel, IsExactParcel, fits_parcel};
ghost use Rattle.land_tables_rows.specs.Parcel.Cells.{parcel_row_of_cells};
ghost use Rattle.land_tables_rows.specs.Parcel.Cells.{parcel_row_of};

use crate::cells::texts::is_label;
use land_core::limits::is_number;
use land_core::parcel::ParcelRecord;
use std::alloc::AllocError;

/// The cells of a parcel's row.
#[derive(Debug, Drop)]
pub struct ParcelCells<'a> {
    /// The parcel's number.
    pub number: u64,
    /// The number of its unit.
    pub unit: u64,
    /// Its label.
    pub label: &'a str,
    /// Its outline in canonical form.
    pub outline: String,
    /// The number of its source.
    pub source: u64,
}

/// Returns the cells of a parcel. Fails only if out of memory.
pub fn parcel_cells(number: u64, parcel: &ParcelRecord) -> Result<ParcelCells<'_>, AllocError>
    ensures row { IfOk result (λ cells. parcel_row_of_cells cells ≡ parcel_row_of (number, parcel.now)) }
    ensures columns { IfOk result (λ cells. fits_parcel (number, parcel.now) ≡ true → FitsParcel cells) }
{
    Ok(ParcelCells {
        number,
        unit: parcel.unit,
        label: parcel.label.as_str(),
        outline: parcel.outline.write_wkt()?,
        source: parcel.source,
    })
}

/// Checks if a parcel is within the limits of its fields, so that it decodes from its cells. By its type, its
/// outline is a valid ring.
pub fn fits_parcel(number: u64, parcel: &ParcelRecord) -> bool
    ensures fits { result ≡ fits_parcel (number, parcel.now) }
    ensures exact { IsExactParcel parcel.now }
{
    parcel.outline.points();
    is_number(number)
        && is_number(parcel.unit)
        && is_label(&parcel.label)
        && is_number(parcel.source)
}
