//! Each fault of parties, their roles and their members, and the nearest valid cases.
use super::{
    ANNA_A_THIRD, Case, OFFICE_ALONE, Part, REFERENCE, WITH_GROUP, WITH_PERSONS, expect_faults,
};
use crate::facts::facts::{Fact, Share};
use land_core::kind::PartyKind::NaturalPerson;
use land_core::role::Role;
use land_core::soundness::Unsound;
use std::alloc::Global;
use testlib_cases::stop::Stop;

const TWO: Fact = Fact::Party(2, NaturalPerson, "Anna");

const ZERO: Fact = Fact::Party(0, NaturalPerson, "Anna");

const NUMBERS: &[Case] = &[
    Case(&[TWO, Fact::Next(2)], REFERENCE),
    Case(&[TWO, Fact::Next(3)], None),
    Case(&[TWO, Fact::Next(1_000_000_001)], None),
    Case(&[TWO, Fact::Next(1_000_000_002)], REFERENCE),
    Case(&[ZERO, Fact::Next(2)], REFERENCE),
];

/// Checks that numbers in use are below the next one.
pub fn numbers_in_use_lie_below_the_next_one(alloc: Global) -> Result<(), Stop> {
    expect_faults(alloc, OFFICE_ALONE, NUMBERS)
}

const ROLES: &[Case] = &[
    Case(&[Fact::Grant(2, Role::Notary)], None),
    Case(&[Fact::Grant(5, Role::Notary)], REFERENCE),
    Case(&[Fact::Grant(9, Role::Notary)], REFERENCE),
];

/// Checks that a role is that of a single party.
pub fn a_role_is_that_of_a_single_party(alloc: Global) -> Result<(), Stop> {
    expect_faults(alloc, WITH_GROUP, ROLES)
}

const NO_ADMINISTRATOR: &[Case] = &[Case(
    &[Fact::Revoke(1, Role::StateAdministrator)],
    Some(Unsound::Administrator),
)];

/// Checks that a party is state administrator.
pub fn there_is_a_state_administrator(alloc: Global) -> Result<(), Stop> {
    expect_faults(alloc, OFFICE_ALONE, NO_ADMINISTRATOR)
}

const THIRDS: &[Share] = &[(2, 1, 3), (3, 1, 3), (4, 1, 3)];

const TOO_LITTLE: &[Share] = &[(2, 1, 3), (3, 1, 3)];

const TOO_MUCH: &[Share] = &[(2, 2, 3), (3, 2, 3)];

const TOO_FINE: &[Share] = &[(2, 1, 3), (3, 1, 3), (4, 333_333_333, 1_000_000_000)];

const ANNA_ALONE: &[Share] = &[(2, 1, 1)];

const NO_MEMBER: &[Share] = &[];

const WITH_NOBODY: &[Share] = &[(2, 1, 2), (9, 1, 2)];

const WITH_ITSELF: &[Share] = &[(2, 1, 2), (5, 1, 2)];

const BROKEN: Option<Unsound> = Some(Unsound::Group);

const MEMBERS: &[Case] = &[
    Case(&[], BROKEN),
    Case(&[Fact::Members(5, ANNA_A_THIRD)], None),
    Case(&[Fact::Members(5, THIRDS)], None),
    Case(&[Fact::Members(5, TOO_LITTLE)], BROKEN),
    Case(&[Fact::Members(5, TOO_MUCH)], BROKEN),
    Case(&[Fact::Members(5, TOO_FINE)], BROKEN),
    Case(&[Fact::Members(5, ANNA_ALONE)], BROKEN),
    Case(&[Fact::Members(5, NO_MEMBER)], BROKEN),
    Case(&[Fact::Members(5, WITH_NOBODY)], REFERENCE),
    Case(&[Fact::Members(5, WITH_ITSELF)], REFERENCE),
];

const WITH_FAMILY: &[Part] = &[Part::Persons, Part::Family];

/// Checks that members are single parties with all shares.
pub fn members_are_single_parties_with_all_shares(alloc: Global) -> Result<(), Stop> {
    expect_faults(alloc, WITH_FAMILY, MEMBERS)
}

const SAMS_MEMBERS: &[Case] = &[Case(&[Fact::Members(4, ANNA_A_THIRD)], REFERENCE)];

/// Checks that only groups have members.
pub fn only_groups_have_members(alloc: Global) -> Result<(), Stop> {
    expect_faults(alloc, WITH_PERSONS, SAMS_MEMBERS)
}
