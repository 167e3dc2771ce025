//! Registers with their faults, their objects, and changes.

use self::garden::{GARDEN, LODGED, RECORDS, WITH_ORCHARD, WITHOUT_RIGHTS};
use crate::facts::facts::{Fact, Share};
use crate::facts::registers::{fault, tell_all};
use land_core::kind::PartyKind::{Group, NaturalPerson};
use land_core::register::Register;
use land_core::soundness::Unsound;
use std::alloc::Global;
use testlib_cases::stop::{Stop, expect};

pub mod changing;
pub mod copies;
pub mod crowds;
pub mod faults;
pub mod garden;
pub mod mandates;
pub mod mutation_faults;
pub mod objects;
pub mod right_faults;
pub mod unit_faults;

/// Anna, Ben and Sam, and 6 as the next number.
const PERSONS: &[Fact] = &[
    Fact::Party(2, NaturalPerson, "Anna"),
    Fact::Party(3, NaturalPerson, "Ben"),
    Fact::Party(4, NaturalPerson, "Sam"),
    Fact::Next(6),
];

/// A party that is a group.
const FAMILY: Fact = Fact::Party(5, Group, "Anna and Ben");

const ANNA_A_THIRD: &[Share] = &[(2, 1, 3), (3, 2, 3)];

/// The group with its members.
const GROUP: &[Fact] = &[FAMILY, Fact::Members(5, ANNA_A_THIRD)];

/// Initial facts of registers. Only `facts_of` uses these constants, since each row of a constant adds to the
/// proof of a function that uses it.
pub(super) enum Part {
    Persons,
    Family,
    Group,
    Garden,
    Lodged,
    WithoutRights,
    Unchecked,
    Orchard,
    Next20,
    Of64,
    Of65,
}

const FAMILY_ALONE: &[Fact] = &[FAMILY];

const NEXT_20: &[Fact] = &[Fact::Next(20)];

/// A group of 64 members, which do not exist yet.
const OF_64: &[Fact] = &[Fact::Party(2, Group, "All"), Fact::Crowd(2, 64)];

const OF_65: &[Fact] = &[Fact::Party(2, Group, "All"), Fact::Crowd(2, 65)];

/// The shares of the garden are not checked.
const UNCHECKED: &[Fact] = &[Fact::Unit(GARDEN, "Garden", false)];

pub(super) fn facts_of(part: &Part) -> &'static [Fact] {
    match part {
        Part::Persons => PERSONS,
        Part::Family => FAMILY_ALONE,
        Part::Group => GROUP,
        Part::Garden => RECORDS,
        Part::Lodged => LODGED,
        Part::WithoutRights => WITHOUT_RIGHTS,
        Part::Unchecked => UNCHECKED,
        Part::Orchard => WITH_ORCHARD,
        Part::Next20 => NEXT_20,
        Part::Of64 => OF_64,
        Part::Of65 => OF_65,
    }
}

/// Returns a new register with the facts of all parts and then these.
fn register_of(alloc: Global, parts: &[Part], facts: &[Fact]) -> Result<Register, Stop> {
    let mut register = Register::new(alloc)?;
    tell_parts(alloc, &mut register, parts, facts)?;
    Ok(register)
}

/// Returns a new register with the facts of all parts.
fn register_with(alloc: Global, parts: &[Part]) -> Result<Register, Stop> {
    register_of(alloc, parts, &[])
}

fn tell_parts(
    alloc: Global,
    register: &mut Register,
    parts: &[Part],
    facts: &[Fact],
) -> Result<(), Stop> {
    for part in parts {
        tell_all(alloc, register, facts_of(part))?;
    }
    tell_all(alloc, register, facts)
}

/// The initial facts of registers in addition to the office: none, the persons, and so on.
const OFFICE_ALONE: &[Part] = &[];

const WITH_PERSONS: &[Part] = &[Part::Persons];

const WITH_GROUP: &[Part] = &[Part::Persons, Part::Group];

const WITH_GARDEN: &[Part] = &[Part::Persons, Part::Garden];

const WITH_LODGED: &[Part] = &[Part::Persons, Part::Garden, Part::Lodged];

const WITH_ALL: &[Part] = &[Part::Persons, Part::Group, Part::Garden, Part::Lodged];

const WITH_TWO_UNITS: &[Part] = &[Part::Persons, Part::Garden, Part::Orchard];

/// Facts of a register, and its expected fault.
struct Case(&'static [Fact], Option<Unsound>);

const REFERENCE: Option<Unsound> = Some(Unsound::Reference);

/// Returns the fault of a register with these facts.
fn fault_of(alloc: Global, base: &[Part], facts: &[Fact]) -> Result<Option<Unsound>, Stop> {
    let register = register_of(alloc, base, facts)?;
    fault(alloc, &register)
}

/// Checks the faults of registers with the same initial facts.
fn expect_faults(alloc: Global, base: &[Part], cases: &[Case]) -> Result<(), Stop> {
    for (place, case) in cases.iter().enumerate() {
        expect(fault_of(alloc, base, case.0)? == case.1, "case", place)?;
    }
    Ok(())
}
