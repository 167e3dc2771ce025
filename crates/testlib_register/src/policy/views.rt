//! The rules that deny each role the view of objects that it does not see.
use super::{
    ABSENT, ANNA, BEN, DEED, FAMILY, FARM, HOUSE, LENA, NORA, NORTH, OFFICE, SAM, SOUTH, caller,
    farm_and_house, told, verdict_on,
};
use land_core::ask::Ask;
use land_core::kind::Kind::{self, Parcel, Party, Rrr, Source, Unit};
use land_core::register::Register;
use land_core::role::Role::{
    self, Bank, CertifiedSurveyor, Citizen, Conveyancer, Notary, StateAdministrator,
};
use std::alloc::Global;
use testlib_cases::stop::{Stop, expect};

/// A caller, an object, and the number of the rule that denies the view; 0 if none does.
pub(super) struct Row(pub u64, pub Role, pub Kind, pub u64, pub u8);

fn is_told(register: &Register, row: &Row) -> bool {
    let ask = Ask::View {
        kind: row.2,
        number: row.3,
        at: None,
    };
    verdict_on(register, register, caller(row.0, row.1), ask, false) == told(row.4)
}

/// Returns the number of rows before the first with an unexpected verdict.
pub(super) fn told_of(register: &Register, rows: &[Row]) -> usize {
    for (place, row) in rows.iter().enumerate() {
        if !is_told(register, row) {
            return place;
        }
    }
    rows.len()
}

fn told_rows(alloc: Global, rows: &[Row]) -> Result<usize, Stop> {
    let register = farm_and_house(alloc)?;
    Ok(told_of(&register, rows))
}

fn expect_views(alloc: Global, rows: &[Row]) -> Result<(), Stop> {
    let told = told_rows(alloc, rows)?;
    expect(told == rows.len(), "row", told)
}

const CITIZENS: &[Row] = &[
    Row(ANNA, Citizen, Unit, FARM, 0),
    Row(ANNA, Citizen, Unit, HOUSE, 11),
    Row(ANNA, Citizen, Unit, ABSENT, 11),
    Row(OFFICE, Citizen, Unit, FARM, 11),
    Row(ANNA, Citizen, Rrr, 18, 0),
    Row(LENA, Citizen, Rrr, 18, 12),
    Row(ANNA, Citizen, Rrr, 20, 12),
    Row(ANNA, Citizen, Rrr, ABSENT, 12),
    Row(OFFICE, Citizen, Rrr, 17, 12),
    Row(ANNA, Citizen, Party, FAMILY, 0),
    Row(ANNA, Citizen, Party, BEN, 13),
    Row(LENA, Citizen, Party, NORTH, 13),
    Row(ANNA, Citizen, Party, ABSENT, 13),
    Row(ANNA, Citizen, Parcel, ABSENT, 27),
    Row(ANNA, Citizen, Source, DEED, 26),
    Row(ANNA, Citizen, Source, ABSENT, 26),
];

/// Checks that a citizen is denied by rules 11 to 13.
pub fn a_citizen_is_denied_by_rules_11_to_13(alloc: Global) -> Result<(), Stop> {
    expect_views(alloc, CITIZENS)
}

const BANKS: &[Row] = &[
    Row(NORTH, Bank, Unit, FARM, 0),
    Row(NORTH, Bank, Unit, HOUSE, 15),
    Row(NORTH, Bank, Unit, ABSENT, 15),
    Row(NORTH, Bank, Rrr, 18, 0),
    Row(NORTH, Bank, Rrr, 19, 16),
    Row(NORTH, Bank, Rrr, 20, 16),
    Row(NORTH, Bank, Rrr, ABSENT, 16),
    Row(NORTH, Bank, Party, SOUTH, 17),
    Row(NORTH, Bank, Source, DEED, 26),
];

/// Checks that a bank is denied by rules 15 to 17.
pub fn a_bank_is_denied_by_rules_15_to_17(alloc: Global) -> Result<(), Stop> {
    expect_views(alloc, BANKS)
}

const CONVEYANCERS: &[Row] = &[
    Row(LENA, Conveyancer, Unit, FARM, 19),
    Row(LENA, Conveyancer, Unit, ABSENT, 19),
    Row(LENA, Conveyancer, Rrr, 16, 20),
    Row(LENA, Conveyancer, Rrr, ABSENT, 20),
    Row(LENA, Conveyancer, Party, FAMILY, 21),
    Row(LENA, Conveyancer, Party, LENA, 0),
    Row(LENA, Conveyancer, Source, DEED, 26),
];

/// Checks that a conveyancer is denied by rules 19 to 21.
pub fn a_conveyancer_is_denied_by_rules_19_to_21(alloc: Global) -> Result<(), Stop> {
    expect_views(alloc, CONVEYANCERS)
}

const SURVEYORS: &[Row] = &[
    Row(SAM, CertifiedSurveyor, Unit, FARM, 23),
    Row(SAM, CertifiedSurveyor, Unit, ABSENT, 23),
    Row(SAM, CertifiedSurveyor, Rrr, 15, 23),
    Row(SAM, CertifiedSurveyor, Party, ANNA, 24),
    Row(SAM, CertifiedSurveyor, Party, SAM, 0),
    Row(SAM, CertifiedSurveyor, Parcel, 12, 0),
    Row(SAM, CertifiedSurveyor, Source, DEED, 26),
];

/// Checks that a surveyor is denied by rules 23 and 24.
pub fn a_surveyor_is_denied_by_rules_23_and_24(alloc: Global) -> Result<(), Stop> {
    expect_views(alloc, SURVEYORS)
}

const ABSENCES: &[Row] = &[
    Row(NORA, Notary, Party, ABSENT, 27),
    Row(NORA, Notary, Unit, ABSENT, 27),
    Row(NORA, Notary, Parcel, ABSENT, 27),
    Row(NORA, Notary, Rrr, ABSENT, 27),
    Row(NORA, Notary, Source, ABSENT, 27),
    Row(NORA, Notary, Unit, 12, 27),
    Row(NORA, Notary, Source, DEED, 0),
    Row(OFFICE, StateAdministrator, Party, ABSENT, 27),
    Row(OFFICE, StateAdministrator, Unit, ABSENT, 27),
    Row(OFFICE, StateAdministrator, Parcel, ABSENT, 27),
    Row(OFFICE, StateAdministrator, Rrr, ABSENT, 27),
    Row(OFFICE, StateAdministrator, Source, ABSENT, 27),
    Row(OFFICE, StateAdministrator, Unit, 12, 27),
    Row(OFFICE, StateAdministrator, Source, DEED, 0),
];

/// Checks that the view of an object that does not exist is denied by rule 27.
pub fn missing_objects_are_denied_by_rule_27(alloc: Global) -> Result<(), Stop> {
    expect_views(alloc, ABSENCES)
}

/// A caller, a unit, and the number of the rule that denies its title sheet; 0 if none does.
struct Sheet(u64, Role, u64, u8);

const SHEETS: &[Sheet] = &[
    Sheet(ANNA, Citizen, FARM, 0),
    Sheet(ANNA, Citizen, HOUSE, 11),
    Sheet(NORTH, Bank, HOUSE, 15),
    Sheet(LENA, Conveyancer, FARM, 19),
    Sheet(SAM, CertifiedSurveyor, FARM, 23),
    Sheet(NORA, Notary, ABSENT, 27),
];

fn is_told_of(register: &Register, row: &Sheet) -> bool {
    let ask = Ask::Sheet {
        unit: row.2,
        at: None,
    };
    verdict_on(register, register, caller(row.0, row.1), ask, false) == told(row.3)
}

/// Returns the number of sheets before the first with an unexpected verdict.
fn sheets_of(register: &Register, rows: &[Sheet]) -> usize {
    for (place, row) in rows.iter().enumerate() {
        if !is_told_of(register, row) {
            return place;
        }
    }
    rows.len()
}

fn told_sheets(alloc: Global, rows: &[Sheet]) -> Result<usize, Stop> {
    let register = farm_and_house(alloc)?;
    Ok(sheets_of(&register, rows))
}

fn expect_sheets(alloc: Global, rows: &[Sheet]) -> Result<(), Stop> {
    let told = told_sheets(alloc, rows)?;
    expect(told == rows.len(), "row", told)
}

/// Checks that a sheet has the verdict of its unit.
pub fn a_sheet_is_judged_as_its_unit(alloc: Global) -> Result<(), Stop> {
    expect_sheets(alloc, SHEETS)
}
