//! Groups: created, given other members, and refused.
use super::Step::{self, Has, Row, Sound};
use super::{FIRST, STAMP, assert_steps};
use std::test::Fail;
use testlib_cases::asked::RowAct::{Group, Regroup};
use testlib_cases::asked::Share;

const THIRDS: &[Share] = &[(2, 1, 3), (3, 1, 3), (4, 1, 3)];

const TOO_FINE: &[Share] = &[(2, 1, 3), (3, 1, 3), (4, 333_333_333, 1_000_000_000)];

const NOT_WHOLE: &[Share] = &[(2, 1, 3), (3, 1, 3), (4, 1, 4)];

const TOO_MUCH: &[Share] = &[(2, 1, 2), (3, 2, 3)];

const TWICE: &[Share] = &[(2, 1, 2), (2, 1, 2)];

const HALVES: &[Share] = &[(2, 1, 2), (4, 1, 2)];

const STRANGE: &[Share] = &[(2, 1, 3), (9, 333_333_333, 1_000_000_000)];

const NESTED: &[Share] = &[(2, 1, 2), (5, 1, 2)];

const ALONE: &[Share] = &[(2, 1, 1)];

const SHARES: &[Step] = &[
    Row(Group("All", STRANGE), STAMP, "refused 205"),
    Row(Group("All", TOO_FINE), STAMP, "refused 207"),
    Row(Group("All", NOT_WHOLE), STAMP, "refused 213"),
    Row(Group("All", TOO_MUCH), STAMP, "refused 213"),
    Row(Group("All", NOT_WHOLE), None, "refused 213"),
    Row(Group("All", TWICE), None, "refused 217"),
    Row(Group("All", TWICE), STAMP, "refused 219"),
    Row(Group("All", ALONE), STAMP, "not well formed"),
    Row(Group("All", THIRDS), STAMP, "done 5 made [5] at 1000"),
];

#[test]
fn shares_are_whole_and_no_party_occurs_twice(rt: HostRuntime) -> Result<(), Fail> {
    assert_steps(&rt, rt.alloc(), FIRST, SHARES)
}

const LAST: u64 = 1_000_000_000;

const LAST_NUMBER: &[Step] = &[
    Row(
        Group("All", THIRDS),
        STAMP,
        "done 1000000000 made [1000000000] at 1000",
    ),
    Row(Group("All", TOO_FINE), STAMP, "refused 207"),
    Row(Group("All", NOT_WHOLE), STAMP, "refused 210"),
    Row(
        Regroup(LAST, HALVES),
        STAMP,
        "done 1000000000 made [] at 1000",
    ),
];

#[test]
fn a_group_takes_the_last_number(rt: HostRuntime) -> Result<(), Fail> {
    assert_steps(&rt, rt.alloc(), LAST, LAST_NUMBER)
}

/// Afterwards Anna and Sam are members, Ben is not, and the register is sound.
const REGROUPED: &[Step] = &[
    Row(Group("All", THIRDS), STAMP, "done 5 made [5] at 1000"),
    Row(Regroup(5, HALVES), STAMP, "done 5 made [] at 1000"),
    Has(5, 2, true),
    Has(5, 4, true),
    Has(5, 3, false),
    Sound,
];

#[test]
fn other_members_take_the_place_of_the_old_ones(rt: HostRuntime) -> Result<(), Fail> {
    assert_steps(&rt, rt.alloc(), FIRST, REGROUPED)
}

const NO_MEMBER: &[Step] = &[
    Row(Group("All", THIRDS), STAMP, "done 5 made [5] at 1000"),
    Row(Group("All", NESTED), STAMP, "refused 205"),
    Row(Regroup(5, NESTED), STAMP, "refused 205"),
    Row(Regroup(2, THIRDS), STAMP, "refused 205"),
    Row(Regroup(6, THIRDS), STAMP, "refused 205"),
    Row(Regroup(5, TOO_FINE), None, "refused 207"),
    Row(Regroup(5, NOT_WHOLE), None, "refused 213"),
    Row(Regroup(5, TWICE), None, "refused 217"),
    Row(Regroup(5, TWICE), STAMP, "refused 219"),
];

#[test]
fn a_group_is_regrouped_but_never_a_member(rt: HostRuntime) -> Result<(), Fail> {
    assert_steps(&rt, rt.alloc(), FIRST, NO_MEMBER)
}
