//! Who may give and withdraw mandates, and what agents see.
use super::lists::{Row as Shown, shown_rows};
use super::standing::{Row, told_of};
use super::views::{Row as View, told_of as told_of_views};
use super::{
    ABSENT, ANNA, BEN, FAMILY, FARM, HOUSE, LENA, NORA, NORTH, OFFICE, SAM, farm_and_house_with,
};
use crate::facts::facts::Fact;
use crate::facts::registers::fault;
use land_core::act::{Act, NewMandate};
use land_core::ask::Ask;
use land_core::kind::Kind::{Parcel, Party, Rrr, Unit};
use land_core::mandates::Mandate;
use land_core::register::Register;
use land_core::role::Role::{
    Bank, CertifiedSurveyor, Citizen, Conveyancer, Notary, StateAdministrator,
};
use land_core::soundness::Unsound;
use std::alloc::Global;
use testlib_cases::stop::{Stop, expect};

/// Sam is agent of Anna and Nora, the office of Sam, and the bank North of Lena. Ben had a mandate of Nora.
const MANDATES: &[Fact] = &[
    Fact::Mandate(ANNA, SAM),
    Fact::Mandate(NORA, SAM),
    Fact::Mandate(SAM, OFFICE),
    Fact::Mandate(LENA, NORTH),
    Fact::Mandate(NORA, BEN),
    Fact::Withdrawn(NORA, BEN),
];

/// Returns the register with the farm, the house and the mandates.
fn with_mandates(alloc: Global) -> Result<Register, Stop> {
    farm_and_house_with(alloc, MANDATES)
}

fn fault_of_all(alloc: Global) -> Result<Option<Unsound>, Stop> {
    let register = with_mandates(alloc)?;
    fault(alloc, &register)
}

/// Checks that the register with the mandates is sound.
pub fn the_mandates_are_soundly_registered(alloc: Global) -> Result<(), Stop> {
    expect(fault_of_all(alloc)? == None, "the register", 0)
}

/// Mandates are not transitive, apply only to the role of citizen, and do not extend the sight of the
/// principal.
const SEEN: &[Shown] = &[
    Shown(SAM, Citizen, Unit, &[FARM, HOUSE]),
    Shown(SAM, Citizen, Rrr, &[15, 16, 17, 18, 19, 20]),
    Shown(SAM, Citizen, Party, &[1, 2, 4, 5, 6, 7, 8, 9]),
    Shown(SAM, Citizen, Parcel, &[12, 13]),
    Shown(SAM, CertifiedSurveyor, Unit, &[]),
    Shown(SAM, CertifiedSurveyor, Party, &[SAM]),
    Shown(OFFICE, Citizen, Unit, &[]),
    Shown(OFFICE, Citizen, Rrr, &[]),
    Shown(OFFICE, Citizen, Party, &[OFFICE, SAM]),
    Shown(NORTH, Citizen, Unit, &[FARM]),
    Shown(NORTH, Citizen, Rrr, &[15, 16, 17]),
    Shown(NORTH, Citizen, Party, &[1, 4, 6, 7]),
    Shown(NORTH, Bank, Rrr, &[15, 16, 17, 18]),
    Shown(ANNA, Citizen, Party, &[1, 2, 4, 6, 7, 8]),
    Shown(BEN, Citizen, Unit, &[FARM]),
];

fn seen_of_all(alloc: Global, rows: &[Shown]) -> Result<usize, Stop> {
    let at = with_mandates(alloc)?;
    shown_rows(alloc, &at, rows)
}

fn expect_seen(alloc: Global, rows: &[Shown]) -> Result<(), Stop> {
    let shown = seen_of_all(alloc, rows)?;
    expect(shown == rows.len(), "row", shown)
}

/// Checks that agents see as their principals do.
pub fn agents_see_as_their_principals_do(alloc: Global) -> Result<(), Stop> {
    expect_seen(alloc, SEEN)
}

const VIEWS: &[View] = &[
    View(SAM, Citizen, Unit, FARM, 0),
    View(SAM, Citizen, Unit, ABSENT, 11),
    View(SAM, Citizen, Rrr, 18, 0),
    View(SAM, Citizen, Rrr, ABSENT, 12),
    View(SAM, Citizen, Party, ANNA, 0),
    View(SAM, Citizen, Party, FAMILY, 0),
    View(SAM, Citizen, Party, BEN, 13),
    View(SAM, CertifiedSurveyor, Unit, FARM, 23),
    View(SAM, CertifiedSurveyor, Party, ANNA, 24),
    View(OFFICE, Citizen, Unit, FARM, 11),
    View(OFFICE, Citizen, Party, SAM, 0),
    View(OFFICE, Citizen, Party, ANNA, 13),
    View(NORTH, Citizen, Unit, HOUSE, 11),
    View(NORTH, Citizen, Rrr, 17, 0),
    View(NORTH, Citizen, Rrr, 18, 12),
    View(ANNA, Citizen, Party, SAM, 13),
    View(BEN, Citizen, Unit, HOUSE, 11),
];

fn views_of_all(alloc: Global, rows: &[View]) -> Result<usize, Stop> {
    let register = with_mandates(alloc)?;
    Ok(told_of_views(&register, rows))
}

fn expect_views(alloc: Global, rows: &[View]) -> Result<(), Stop> {
    let told = views_of_all(alloc, rows)?;
    expect(told == rows.len(), "row", told)
}

/// Checks that agents are denied objects that no party of their circle sees.
pub fn agents_see_only_what_their_circle_sees(alloc: Global) -> Result<(), Stop> {
    expect_views(alloc, VIEWS)
}

const TO_BEN: Ask = Ask::Do(Act::Mandate(NewMandate { agent: BEN }));

const GIVING: &[Row] = &[
    Row(ANNA, Citizen, 0),
    Row(BEN, Citizen, 0),
    Row(LENA, Conveyancer, 28),
    Row(NORA, Notary, 28),
    Row(NORTH, Bank, 28),
    Row(SAM, CertifiedSurveyor, 28),
    Row(OFFICE, StateAdministrator, 28),
    Row(FAMILY, Citizen, 2),
    Row(ABSENT, Citizen, 1),
];

const OF_ANNA: Ask = Ask::Do(Act::Withdraw(Mandate {
    principal: ANNA,
    agent: SAM,
}));

const WITHDRAWING: &[Row] = &[
    Row(ANNA, Citizen, 0),
    Row(SAM, Citizen, 0),
    Row(BEN, Citizen, 29),
    Row(OFFICE, Citizen, 29),
    Row(SAM, CertifiedSurveyor, 28),
    Row(OFFICE, StateAdministrator, 28),
    Row(ABSENT, Citizen, 1),
];

/// A mandate that does not exist.
const OF_NOBODY: Ask = Ask::Do(Act::Withdraw(Mandate {
    principal: BEN,
    agent: ABSENT,
}));

const WITHDRAWING_NOTHING: &[Row] = &[
    Row(BEN, Citizen, 0),
    Row(ANNA, Citizen, 29),
    Row(NORA, Notary, 28),
];

fn told_acts(alloc: Global, ask: &Ask, rows: &[Row]) -> Result<usize, Stop> {
    let register = with_mandates(alloc)?;
    Ok(told_of(&register, ask, false, rows))
}

fn expect_acts(alloc: Global, ask: Ask, rows: &[Row]) -> Result<(), Stop> {
    let told = told_acts(alloc, &ask, rows)?;
    expect(told == rows.len(), "row", told)
}

/// Checks that citizens give mandates, and withdraw those of which they are principal or agent.
pub fn citizens_give_mandates_and_withdraw_their_own(alloc: Global) -> Result<(), Stop> {
    expect_acts(alloc, TO_BEN, GIVING)?;
    expect_acts(alloc, OF_ANNA, WITHDRAWING)?;
    expect_acts(alloc, OF_NOBODY, WITHDRAWING_NOTHING)
}
