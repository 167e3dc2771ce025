//! Groups of which banks are members.
use super::lists::{Row as Shown, shown_rows};
use super::views::{Row as View, told_of};
use super::{NORTH, SOUTH, farm_and_house_with};
use crate::facts::facts::{Fact, Share};
use land_core::kind::Kind::Party;
use land_core::kind::PartyKind::Group;
use land_core::register::Register;
use land_core::role::Role::{Bank, Citizen};
use std::alloc::Global;
use testlib_cases::stop::{Stop, expect};

/// The group of the two banks, which has nothing.
const BANKS: u64 = 21;

const HALVES: &[Share] = &[(NORTH, 1, 2), (SOUTH, 1, 2)];

const GROUPED: &[Fact] = &[
    Fact::Party(BANKS, Group, "North and South"),
    Fact::Members(BANKS, HALVES),
    Fact::Next(22),
];

/// A member sees its group as a citizen, but not as a bank.
const VIEWS: &[View] = &[
    View(NORTH, Citizen, Party, BANKS, 0),
    View(NORTH, Bank, Party, BANKS, 17),
    View(NORTH, Bank, Party, NORTH, 0),
];

const LISTS: &[Shown] = &[
    Shown(NORTH, Citizen, Party, &[NORTH, BANKS]),
    Shown(NORTH, Bank, Party, &[1, 4, 6, 7]),
    Shown(SOUTH, Bank, Party, &[1, 6, 7, 8]),
];

fn expect_views(register: &Register, rows: &[View]) -> Result<(), Stop> {
    let told = told_of(register, rows);
    expect(told == rows.len(), "view", told)
}

fn expect_lists(alloc: Global, register: &Register, rows: &[Shown]) -> Result<(), Stop> {
    let shown = shown_rows(alloc, register, rows)?;
    expect(shown == rows.len(), "list", shown)
}

/// Checks that members see their groups as citizens only.
pub fn groups_are_shown_to_their_members_as_citizens(alloc: Global) -> Result<(), Stop> {
    let register = farm_and_house_with(alloc, GROUPED)?;
    expect_views(&register, VIEWS)?;
    expect_lists(alloc, &register, LISTS)
}
