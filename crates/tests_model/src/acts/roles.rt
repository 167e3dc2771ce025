//! Roles: granted, revoked, and refused.
use super::Step::{self, Holds, Row};
use super::{FIRST, STAMP, assert_steps};
use land_core::role::Role::{Bank, Citizen, Notary, StateAdministrator};
use std::test::Fail;
use testlib_cases::asked::RowAct::{Grant, Group, Revoke};

/// Afterwards Anna is a bank and not a notary, and Ben is a notary.
const ONCE: &[Step] = &[
    Row(Grant(2, Notary), None, "refused 217"),
    Row(Grant(2, Notary), STAMP, "done 2 made [] at 1000"),
    Row(Grant(2, Notary), None, "refused 215"),
    Row(Grant(2, Bank), STAMP, "done 2 made [] at 1000"),
    Row(Grant(3, Notary), STAMP, "done 3 made [] at 1000"),
    Row(Revoke(2, Notary), STAMP, "done 2 made [] at 1000"),
    Row(Revoke(2, Notary), None, "refused 216"),
    Row(Revoke(2, Bank), None, "refused 217"),
    Holds(2, Notary, false),
    Holds(2, Bank, true),
    Holds(2, Citizen, true),
    Holds(3, Notary, true),
];

#[test]
fn a_role_is_granted_once_and_revoked_once(rt: HostRuntime) -> Result<(), Fail> {
    assert_steps(&rt, rt.alloc(), FIRST, ONCE)
}

const NOBODY: &[Step] = &[
    Row(
        Group("Both", &[(2, 1, 2), (3, 1, 2)]),
        STAMP,
        "done 5 made [5] at 1000",
    ),
    Row(Grant(5, Bank), STAMP, "refused 205"),
    Row(Revoke(5, Citizen), STAMP, "refused 205"),
    Row(Grant(9, Bank), None, "refused 205"),
    Row(Revoke(9, Citizen), None, "refused 205"),
    Row(Grant(0, Bank), STAMP, "not well formed"),
];

#[test]
fn only_single_parties_have_roles(rt: HostRuntime) -> Result<(), Fail> {
    assert_steps(&rt, rt.alloc(), FIRST, NOBODY)
}

const LAST: &[Step] = &[
    Row(Revoke(1, StateAdministrator), STAMP, "refused 218"),
    Row(Revoke(1, StateAdministrator), None, "refused 217"),
    Row(
        Grant(2, StateAdministrator),
        STAMP,
        "done 2 made [] at 1000",
    ),
    Row(
        Revoke(1, StateAdministrator),
        STAMP,
        "done 1 made [] at 1000",
    ),
    Row(Revoke(2, StateAdministrator), STAMP, "refused 218"),
];

#[test]
fn the_last_administrator_stays(rt: HostRuntime) -> Result<(), Fail> {
    assert_steps(&rt, rt.alloc(), FIRST, LAST)
}
