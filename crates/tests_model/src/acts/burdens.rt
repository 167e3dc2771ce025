//! Burdens on a unit, and lifts.
use super::Step::{self, Crowd, Row, Stands};
use super::{FIRST, STAMP, assert_steps};
use land_core::act::BurdenClass::{Responsibility, Restriction};
use land_core::kind::Kind;
use land_core::rrr::RightType::Ownership;
use std::test::Fail;
use testlib_cases::asked::RowAct::{Burden, Lift, Register};

pub(super) const UNIT: Step = Row(
    Register(true, 1, &[(2, Ownership, 1, 1)]),
    STAMP,
    "done 6 made [5, 6, 7, 8] at 1000",
);

/// Afterwards the burden has ended, and its source and the right exist.
const LIFTED: &[Step] = &[
    UNIT,
    Row(Burden(Restriction, 5, 1), STAMP, "refused 202"),
    Row(Burden(Restriction, 6, 9), None, "refused 205"),
    Row(Burden(Restriction, 6, 1), None, "refused 217"),
    Row(
        Burden(Restriction, 6, 1),
        STAMP,
        "done 10 made [9, 10] at 1000",
    ),
    Row(Lift(8), STAMP, "refused 204"),
    Row(Lift(9), None, "refused 204"),
    Row(Lift(10), None, "refused 217"),
    Row(Lift(10), STAMP, "done 10 made [] at 1000"),
    Row(Lift(10), STAMP, "refused 204"),
    Row(
        Burden(Responsibility, 6, 1),
        STAMP,
        "done 12 made [11, 12] at 1000",
    ),
    Row(Lift(12), STAMP, "done 12 made [] at 1000"),
    Stands(Kind::Rrr, 10, false),
    Stands(Kind::Rrr, 8, true),
    Stands(Kind::Source, 9, true),
];

#[test]
fn a_unit_is_burdened_and_the_burden_lifted(rt: HostRuntime) -> Result<(), Fail> {
    assert_steps(&rt, rt.alloc(), FIRST, LIFTED)
}

/// The unit with its right and 254 restrictions.
const FULL: &[Step] = &[
    UNIT,
    Crowd(254),
    Row(
        Burden(Restriction, 6, 2),
        STAMP,
        "done 1001 made [1000, 1001] at 1000",
    ),
    Row(Burden(Restriction, 6, 2), STAMP, "refused 210"),
    Row(Lift(1001), STAMP, "done 1001 made [] at 1000"),
];

#[test]
fn a_unit_has_room_for_256_entries(rt: HostRuntime) -> Result<(), Fail> {
    assert_steps(&rt, rt.alloc(), FIRST, FULL)
}
