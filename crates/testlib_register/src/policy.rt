//! The policy on a register of two units: the objects that each role sees, and the rules that deny the
//! others.

use crate::facts::facts::{Fact, Held, Share};
use crate::facts::registers::{fault, tell_all};
use land_core::ask::Ask;
use land_core::caller::Caller;
use land_core::kind::PartyKind::{Group, NaturalPerson, NonNaturalPerson};
use land_core::register::Register;
use land_core::role::Role;
use land_core::rrr::RightType::{Lease, Ownership};
use land_core::soundness::Unsound;
use land_rules::rules::verdict;
use land_rules::verdict::Verdict;
use std::alloc::Global;
use testlib_cases::stop::{Stop, expect};

pub mod banks;
pub mod lists;
pub mod mandates;
pub mod mutations;
pub mod parcels;
pub mod standing;
pub mod usufructs;
pub mod views;

const OFFICE: u64 = 1;

const ANNA: u64 = 2;

const BEN: u64 = 3;

const NORTH: u64 = 4;

const NORA: u64 = 5;

const LENA: u64 = 6;

/// The group of Anna and Ben.
const FAMILY: u64 = 7;

const SOUTH: u64 = 8;

const SAM: u64 = 9;

/// A unit with parcel 12: owned by Anna and Ben's group (15), leased to Lena (16), with a restriction for the
/// office (17), mortgages of the banks North (18) and South (19).
const FARM: u64 = 10;

/// A unit with parcel 13: owned by Nora (20).
const HOUSE: u64 = 11;

/// The source of everything.
const DEED: u64 = 14;

/// A number without an object.
const ABSENT: u64 = 77;

const HALVES: &[Share] = &[(ANNA, 1, 2), (BEN, 1, 2)];

const PARTIES: &[Fact] = &[
    Fact::Party(ANNA, NaturalPerson, "Anna"),
    Fact::Party(BEN, NaturalPerson, "Ben"),
    Fact::Party(NORTH, NonNaturalPerson, "Bank North"),
    Fact::Party(NORA, NaturalPerson, "Nora"),
    Fact::Party(LENA, NaturalPerson, "Lena"),
    Fact::Party(FAMILY, Group, "Anna and Ben"),
    Fact::Party(SOUTH, NonNaturalPerson, "Bank South"),
    Fact::Party(SAM, NaturalPerson, "Sam"),
    Fact::Members(FAMILY, HALVES),
];

const ROLES: &[Fact] = &[
    Fact::Grant(OFFICE, Role::Citizen),
    Fact::Grant(ANNA, Role::Citizen),
    Fact::Grant(BEN, Role::Citizen),
    Fact::Grant(NORTH, Role::Citizen),
    Fact::Grant(NORA, Role::Citizen),
    Fact::Grant(LENA, Role::Citizen),
    Fact::Grant(SOUTH, Role::Citizen),
    Fact::Grant(SAM, Role::Citizen),
    Fact::Grant(NORTH, Role::Bank),
    Fact::Grant(SOUTH, Role::Bank),
    Fact::Grant(NORA, Role::Notary),
    Fact::Grant(LENA, Role::Conveyancer),
    Fact::Grant(SAM, Role::CertifiedSurveyor),
];

const UNITS: &[Fact] = &[
    Fact::Source(DEED),
    Fact::Unit(FARM, "Farm", true),
    Fact::Unit(HOUSE, "House", true),
    Fact::Parcel(12, FARM, "1/1", DEED),
    Fact::Parcel(13, HOUSE, "1/2", DEED),
    Fact::Rrr(15, FARM, FAMILY, DEED, Held::Right(Ownership, 1, 1)),
    Fact::Rrr(16, FARM, LENA, DEED, Held::Right(Lease, 1, 1)),
    Fact::Rrr(17, FARM, OFFICE, DEED, Held::Restriction),
    Fact::Rrr(18, FARM, NORTH, DEED, Held::Mortgage(1)),
    Fact::Rrr(19, FARM, SOUTH, DEED, Held::Mortgage(2)),
    Fact::Rrr(20, HOUSE, NORA, DEED, Held::Right(Ownership, 1, 1)),
    Fact::Next(21),
];

fn caller(party: u64, role: Role) -> Caller {
    Caller { party, role }
}

/// Returns the verdict of a rule's number; 0 means that no rule denies.
fn told(rule: u8) -> Verdict {
    if rule == 0 {
        Verdict::Allowed
    } else {
        Verdict::Denied(rule)
    }
}

const ALL: &[&[Fact]] = &[PARTIES, ROLES, UNITS];

/// Returns the verdict on a request, for the current register and the one at the requested moment.
fn verdict_on(now: &Register, at: &Register, caller: Caller, ask: Ask, past: bool) -> Verdict {
    verdict(now, at, caller, &ask, past)
}

fn tell_parts(
    alloc: Global,
    register: &mut Register,
    parts: &[&[Fact]],
    facts: &[Fact],
) -> Result<(), Stop> {
    for part in parts {
        tell_all(alloc, register, part)?;
    }
    tell_all(alloc, register, facts)
}

/// Returns a new register with the facts of all parts and then these.
fn register_of(alloc: Global, parts: &[&[Fact]], facts: &[Fact]) -> Result<Register, Stop> {
    let mut register = Register::new(alloc)?;
    tell_parts(alloc, &mut register, parts, facts)?;
    Ok(register)
}

/// Returns a register with the farm and the house, and then these facts. Only this function uses all parts,
/// since each row of a constant adds to the proof of a function that uses it.
fn farm_and_house_with(alloc: Global, facts: &[Fact]) -> Result<Register, Stop> {
    register_of(alloc, ALL, facts)
}

/// Returns a register with the farm and the house.
fn farm_and_house(alloc: Global) -> Result<Register, Stop> {
    farm_and_house_with(alloc, &[])
}

fn fault_of_all(alloc: Global) -> Result<Option<Unsound>, Stop> {
    let register = farm_and_house(alloc)?;
    fault(alloc, &register)
}

/// Checks that the register with the farm and the house is sound.
pub fn the_farm_and_the_house_are_soundly_registered(alloc: Global) -> Result<(), Stop> {
    expect(fault_of_all(alloc)? == None, "the register", 0)
}
