//! The rules on callers, for any request.
use super::{
    ABSENT, ANNA, FARM, LENA, NORA, NORTH, OFFICE, SAM, caller, farm_and_house, told, verdict_on,
};
use crate::facts::making::text;
use land_core::act::{Act, Burden, BurdenClass, Lift};
use land_core::ask::Ask;
use land_core::kind::Kind;
use land_core::register::Register;
use land_core::role::Role::{
    self, Bank, CertifiedSurveyor, Citizen, Conveyancer, Notary, StateAdministrator,
};
use land_rules::rules::verdict;
use std::alloc::{AllocError, Global};
use testlib_cases::stop::{Stop, expect};

const VIEW: Ask = Ask::View {
    kind: Kind::Parcel,
    number: 12,
    at: Some(1000),
};

/// A caller, and the number of the rule that denies it; 0 if none does.
pub(super) struct Row(pub u64, pub Role, pub u8);

/// Returns the number of callers before the first with an unexpected verdict on a request, for one register.
pub(super) fn told_of(register: &Register, ask: &Ask, past: bool, rows: &[Row]) -> usize {
    for (place, row) in rows.iter().enumerate() {
        if verdict(register, register, caller(row.0, row.1), ask, past) != told(row.2) {
            return place;
        }
    }
    rows.len()
}

/// Returns the number of callers before the first with an unexpected verdict on a request, for the farm and
/// the house.
fn told_rows(alloc: Global, ask: &Ask, past: bool, rows: &[Row]) -> Result<usize, Stop> {
    let register = farm_and_house(alloc)?;
    Ok(told_of(&register, ask, past, rows))
}

/// Does the same, and takes the request by value.
fn told_at_last(alloc: Global, ask: Ask, past: bool, rows: &[Row]) -> Result<usize, Stop> {
    told_rows(alloc, &ask, past, rows)
}

/// Checks the verdicts on a request, for the farm and the house.
fn expect_told(alloc: Global, ask: Ask, past: bool, rows: &[Row]) -> Result<(), Stop> {
    let told = told_at_last(alloc, ask, past, rows)?;
    expect(told == rows.len(), "row", told)
}

const STRANGERS: &[Row] = &[
    Row(ABSENT, StateAdministrator, 1),
    Row(ANNA, Notary, 2),
    Row(OFFICE, Notary, 2),
    Row(NORA, Notary, 0),
];

/// Checks that unregistered callers and missing roles are denied.
pub fn strangers_and_missing_roles_are_denied(alloc: Global) -> Result<(), Stop> {
    expect_told(alloc, VIEW, false, STRANGERS)
}

const IN_THE_PAST: &[Row] = &[
    Row(ANNA, Citizen, 0),
    Row(LENA, Conveyancer, 3),
    Row(NORA, Notary, 0),
    Row(NORTH, Bank, 3),
    Row(SAM, CertifiedSurveyor, 3),
    Row(OFFICE, StateAdministrator, 0),
];

/// Checks that some roles see only the present.
pub fn some_roles_see_only_the_present(alloc: Global) -> Result<(), Stop> {
    expect_told(alloc, VIEW, true, IN_THE_PAST)
}

const OFFICE_ACTS: &[Row] = &[
    Row(ANNA, Citizen, 4),
    Row(NORA, Notary, 4),
    Row(OFFICE, StateAdministrator, 0),
];

fn burden(alloc: Global) -> Result<Ask, AllocError> {
    Ok(Ask::Do(Act::Burden(Burden {
        unit: FARM,
        party: OFFICE,
        class: BurdenClass::Restriction,
        words: text(alloc, "No well")?,
        document: text(alloc, "Order")?,
    })))
}

/// Returns the number of callers before the first with an unexpected verdict on a burden.
fn told_burden(alloc: Global) -> Result<usize, Stop> {
    told_at_last(alloc, burden(alloc)?, false, OFFICE_ACTS)
}

const LIFT: Ask = Ask::Do(Act::Lift(Lift { rrr: 17 }));

/// Checks that only the registrar burdens units and lifts burdens.
pub fn only_the_office_burdens_units_and_lifts_burdens(alloc: Global) -> Result<(), Stop> {
    expect(told_burden(alloc)? == OFFICE_ACTS.len(), "burdens", 0)?;
    expect_told(alloc, LIFT, false, OFFICE_ACTS)
}

const FARM_THEN: Ask = Ask::Sheet {
    unit: FARM,
    at: Some(0),
};

/// Checks if this rule denies Anna, for the current register and the one at the requested moment.
fn is_denied(now: &Register, at: &Register, ask: Ask, rule: u8) -> bool {
    verdict_on(now, at, caller(ANNA, Citizen), ask, true) == told(rule)
}

/// Checks if sight is read at the requested moment and roles now, if one of the registers is empty.
fn are_read_apart(register: &Register, nothing: &Register) -> bool {
    is_denied(register, nothing, VIEW, 27)
        && is_denied(register, nothing, FARM_THEN, 11)
        && is_denied(nothing, register, VIEW, 1)
        && is_denied(nothing, register, FARM_THEN, 1)
}

fn is_apart_from_nothing(alloc: Global, register: &Register) -> bool {
    let nothing = Register::empty(alloc);
    are_read_apart(register, &nothing)
}

fn is_read_apart(alloc: Global) -> Result<bool, Stop> {
    let register = farm_and_house(alloc)?;
    Ok(is_apart_from_nothing(alloc, &register))
}

/// Checks that roles are read now and sight at the requested moment.
pub fn roles_are_read_now_and_sight_at_the_moment(alloc: Global) -> Result<(), Stop> {
    expect(is_read_apart(alloc)?, "the roles", 0)
}
