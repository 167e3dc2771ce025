//! The objects of the farm and the house that each role sees.
use super::{ANNA, BEN, FAMILY, LENA, NORA, NORTH, OFFICE, SAM, SOUTH, caller, farm_and_house};
use land_core::kind::Kind::{self, Parcel, Party, Rrr, Source, Unit};
use land_core::register::Register;
use land_core::role::Role::{
    self, Bank, CertifiedSurveyor, Citizen, Conveyancer, Notary, StateAdministrator,
};
use land_rules::rules::seen;
use std::alloc::{AllocError, Global};
use testlib_cases::stop::{Stop, expect};

/// A caller, a kind, and the numbers of that kind that the caller sees.
pub(super) struct Row(pub u64, pub Role, pub Kind, pub &'static [u64]);

fn is_shown(alloc: Global, at: &Register, row: &Row) -> Result<bool, AllocError> {
    let numbers = seen(alloc, at, caller(row.0, row.1), row.2)?;
    Ok(numbers.as_slice() == row.3)
}

/// Returns the number of rows before the first with an unexpected list.
pub(super) fn shown_rows(alloc: Global, at: &Register, rows: &[Row]) -> Result<usize, Stop> {
    for (place, row) in rows.iter().enumerate() {
        if !is_shown(alloc, at, row)? {
            return Ok(place);
        }
    }
    Ok(rows.len())
}

/// Returns the number of rows before the first with an unexpected list, for the farm and the house.
fn rows_of_all(alloc: Global, rows: &[Row]) -> Result<usize, Stop> {
    let at = farm_and_house(alloc)?;
    shown_rows(alloc, &at, rows)
}

/// Checks the lists for the farm and the house.
fn expect_shown(alloc: Global, rows: &[Row]) -> Result<(), Stop> {
    let shown = rows_of_all(alloc, rows)?;
    expect(shown == rows.len(), "row", shown)
}

const HOLDERS: &[Row] = &[
    Row(ANNA, Citizen, Unit, &[10]),
    Row(ANNA, Citizen, Rrr, &[15, 16, 17, 18, 19]),
    Row(ANNA, Citizen, Party, &[1, 2, 4, 6, 7, 8]),
    Row(BEN, Citizen, Party, &[1, 3, 4, 6, 7, 8]),
    Row(FAMILY, Citizen, Party, &[1, 4, 6, 7, 8]),
    Row(LENA, Citizen, Unit, &[10]),
    Row(LENA, Citizen, Rrr, &[15, 16, 17]),
    Row(LENA, Citizen, Party, &[1, 6, 7]),
    Row(NORA, Citizen, Rrr, &[20]),
    Row(OFFICE, Citizen, Unit, &[]),
    Row(OFFICE, Citizen, Rrr, &[]),
    Row(OFFICE, Citizen, Party, &[1]),
];

/// Checks that holders see the objects of their units.
pub fn holders_see_the_contents_of_their_units(alloc: Global) -> Result<(), Stop> {
    expect_shown(alloc, HOLDERS)
}

const CREDITORS: &[Row] = &[
    Row(NORTH, Bank, Unit, &[10]),
    Row(NORTH, Bank, Rrr, &[15, 16, 17, 18]),
    Row(NORTH, Bank, Party, &[1, 4, 6, 7]),
    Row(SOUTH, Bank, Rrr, &[15, 16, 17, 19]),
    Row(SOUTH, Bank, Party, &[1, 6, 7, 8]),
    Row(NORTH, Citizen, Rrr, &[]),
    Row(NORA, Bank, Unit, &[]),
    Row(NORA, Bank, Party, &[5]),
];

/// Checks that creditors see the objects of the units of their mortgages.
pub fn creditors_see_the_units_of_their_mortgages(alloc: Global) -> Result<(), Stop> {
    expect_shown(alloc, CREDITORS)
}

const PARCELS: &[Row] = &[
    Row(ANNA, Citizen, Parcel, &[12, 13]),
    Row(LENA, Conveyancer, Parcel, &[12, 13]),
    Row(LENA, Conveyancer, Unit, &[]),
    Row(LENA, Conveyancer, Rrr, &[]),
    Row(LENA, Conveyancer, Party, &[6]),
    Row(SAM, CertifiedSurveyor, Parcel, &[12, 13]),
    Row(SAM, CertifiedSurveyor, Unit, &[]),
    Row(SAM, CertifiedSurveyor, Rrr, &[]),
    Row(SAM, CertifiedSurveyor, Party, &[9]),
];

/// Checks that all callers see parcels.
pub fn parcels_are_seen_by_all(alloc: Global) -> Result<(), Stop> {
    expect_shown(alloc, PARCELS)
}

const EVERYTHING: &[Row] = &[
    Row(NORA, Notary, Party, &[1, 2, 3, 4, 5, 6, 7, 8, 9]),
    Row(NORA, Notary, Unit, &[10, 11]),
    Row(NORA, Notary, Parcel, &[12, 13]),
    Row(NORA, Notary, Rrr, &[15, 16, 17, 18, 19, 20]),
    Row(NORA, Notary, Source, &[14]),
    Row(
        OFFICE,
        StateAdministrator,
        Party,
        &[1, 2, 3, 4, 5, 6, 7, 8, 9],
    ),
    Row(OFFICE, StateAdministrator, Unit, &[10, 11]),
    Row(OFFICE, StateAdministrator, Parcel, &[12, 13]),
    Row(OFFICE, StateAdministrator, Rrr, &[15, 16, 17, 18, 19, 20]),
    Row(OFFICE, StateAdministrator, Source, &[14]),
];

/// Checks that notaries and the registrar see everything.
pub fn notaries_and_the_office_see_everything(alloc: Global) -> Result<(), Stop> {
    expect_shown(alloc, EVERYTHING)
}

const NOTHING: &[Row] = &[
    Row(NORA, Notary, Party, &[]),
    Row(NORA, Notary, Unit, &[]),
    Row(NORA, Notary, Parcel, &[]),
    Row(NORA, Notary, Rrr, &[]),
    Row(NORA, Notary, Source, &[]),
];

/// Returns the number of rows before the first with an unexpected list, for the empty register.
fn rows_of_nothing(alloc: Global, rows: &[Row]) -> Result<usize, Stop> {
    let at = Register::empty(alloc);
    shown_rows(alloc, &at, rows)
}

fn expect_nothing(alloc: Global, rows: &[Row]) -> Result<(), Stop> {
    let shown = rows_of_nothing(alloc, rows)?;
    expect(shown == rows.len(), "row", shown)
}

/// Checks that no object is visible in the empty register.
pub fn before_the_office_began_there_is_nothing(alloc: Global) -> Result<(), Stop> {
    expect_nothing(alloc, NOTHING)
}
