//! The objects that the holder of a usufruct sees.
use super::lists::{Row as Shown, shown_rows};
use super::views::{Row as View, told_of};
use super::{DEED, FARM, SAM, farm_and_house_with};
use crate::facts::facts::{Fact, Held};
use land_core::kind::Kind::{Rrr, Unit};
use land_core::register::Register;
use land_core::role::Role::Citizen;
use land_core::rrr::RightType::Usufruct;
use std::alloc::Global;
use testlib_cases::stop::{Stop, expect};

/// Sam has the usufruct of the farm (21).
const USUFRUCT: &[Fact] = &[
    Fact::Rrr(21, FARM, SAM, DEED, Held::Right(Usufruct, 1, 1)),
    Fact::Next(22),
];

/// He is a holder in it but not an owner, so he does not see its mortgages.
const VIEWS: &[View] = &[
    View(SAM, Citizen, Unit, FARM, 0),
    View(SAM, Citizen, Rrr, 21, 0),
    View(SAM, Citizen, Rrr, 15, 0),
    View(SAM, Citizen, Rrr, 18, 12),
    View(SAM, Citizen, Rrr, 19, 12),
];

const LISTS: &[Shown] = &[
    Shown(SAM, Citizen, Unit, &[FARM]),
    Shown(SAM, Citizen, Rrr, &[15, 16, 17, 21]),
];

fn expect_views(register: &Register, rows: &[View]) -> Result<(), Stop> {
    let told = told_of(register, rows);
    expect(told == rows.len(), "view", told)
}

fn expect_lists(alloc: Global, register: &Register, rows: &[Shown]) -> Result<(), Stop> {
    let shown = shown_rows(alloc, register, rows)?;
    expect(shown == rows.len(), "list", shown)
}

/// Checks that a usufruct is not an ownership.
pub fn a_usufruct_is_no_ownership(alloc: Global) -> Result<(), Stop> {
    let register = farm_and_house_with(alloc, USUFRUCT)?;
    expect_views(&register, VIEWS)?;
    expect_lists(alloc, &register, LISTS)
}
