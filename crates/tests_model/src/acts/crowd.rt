//! Fills a unit with the maximum number of entries or parcels.
use land_core::parcel::ParcelRecord;
use land_core::register::Register;
use land_core::rrr::{Class, RrrRecord};
use land_shape::read_wkt;
use std::alloc::{AllocError, Global};
use testlib_cases::asked::text;
use testlib_cases::stop::Stop;

/// Returns a restriction of Anna on unit 6.
fn restriction(alloc: Global) -> Result<RrrRecord, AllocError> {
    Ok(RrrRecord {
        unit: 6,
        party: 2,
        class: Class::Restriction {
            words: text(alloc, "No fence")?,
        },
        source: 5,
    })
}

/// Adds this number of restrictions to a register, numbered from 20, and sets the next number to 1000.
pub(super) fn crowd(alloc: Global, register: &mut Register, count: u64) -> Result<bool, Stop> {
    for place in 0..count {
        register
            .rrrs
            .insert(place.saturating_add(20), restriction(alloc)?)?;
    }
    register.next = 1000;
    Ok(true)
}

/// Returns the text of a square of ten metres, at this place of a row of squares.
fn square_at(alloc: Global, place: u64) -> Result<String, AllocError> {
    let left = place.saturating_mul(10_000);
    let right = left.saturating_add(10_000);
    let mut outline = String::new(alloc);
    write!(
        outline,
        "POLYGON (({left} 0, {right} 0, {right} 10000, {left} 10000, {left} 0))"
    )?;
    Ok(outline)
}

/// Returns a parcel of unit 6, at this place of a row of squares.
fn parcel(alloc: Global, place: u64) -> Result<ParcelRecord, Stop> {
    let outline = square_at(alloc, place)?;
    Ok(ParcelRecord {
        unit: 6,
        label: text(alloc, "12")?,
        outline: read_wkt(alloc, outline.as_str())?,
        source: 5,
    })
}

/// Adds this number of adjacent parcels to a register, numbered from 20, and sets the next number to 1000.
pub(super) fn crowd_parcels(
    alloc: Global,
    register: &mut Register,
    count: u64,
) -> Result<bool, Stop> {
    for place in 0..count {
        register
            .parcels
            .insert(place.saturating_add(20), parcel(alloc, place)?)?;
    }
    register.next = 1000;
    Ok(true)
}
