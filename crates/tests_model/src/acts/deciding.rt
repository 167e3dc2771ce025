//! Lodgings and approvals near the limits: in a unit of 256 entries, and at the last numbers.
use super::Step::{self, Crowd, Row};
use super::burdens::UNIT;
use super::{FIRST, STAMP, assert_steps};
use land_core::role::Role::Bank;
use land_core::rrr::RightType::Ownership;
use std::test::Fail;
use testlib_cases::asked::RowAct::{Approve, Grant, Lift, Lodge, Refuse, Register};
use testlib_cases::lodged::RowContent::{Mortgage, Transfer};

/// In a unit with a right and 255 restrictions, the right may move or grow, but no other may be added.
const FULL: &[Step] = &[
    UNIT,
    Crowd(255),
    Row(
        Lodge("A", "Deed 2", Transfer(6, 8, 3, 1, 2)),
        STAMP,
        "done 1001 made [1000, 1001] at 1000",
    ),
    Row(Approve(1001), STAMP, "refused 210"),
    Row(Approve(1001), None, "refused 210"),
    Row(
        Lodge("B", "Loan 1", Mortgage(6, 4, 100)),
        STAMP,
        "done 1003 made [1002, 1003] at 1000",
    ),
    Row(Approve(1003), STAMP, "refused 210"),
    Row(
        Lodge("C", "Deed 2", Transfer(6, 8, 3, 1, 1)),
        STAMP,
        "done 1005 made [1004, 1005] at 1000",
    ),
    Row(Approve(1005), STAMP, "done 1005 made [1006] at 1000"),
    Row(
        Lodge("D", "Deed 3", Transfer(6, 1006, 2, 1, 3)),
        STAMP,
        "done 1008 made [1007, 1008] at 1000",
    ),
    Row(Approve(1008), STAMP, "refused 210"),
    Row(Lift(20), STAMP, "done 20 made [] at 1000"),
    Row(Approve(1008), STAMP, "done 1008 made [1009] at 1000"),
    Row(
        Lodge("E", "Deed 3", Transfer(6, 1006, 2, 1, 3)),
        STAMP,
        "done 1011 made [1010, 1011] at 1000",
    ),
    Row(Approve(1011), STAMP, "done 1011 made [] at 1000"),
    Row(Approve(1003), STAMP, "refused 210"),
    Row(Lift(21), STAMP, "done 21 made [] at 1000"),
    Row(Approve(1003), STAMP, "refused 211"),
    Row(Grant(4, Bank), STAMP, "done 4 made [] at 1000"),
    Row(Approve(1003), STAMP, "done 1003 made [1012] at 1000"),
];

#[test]
fn the_whole_of_a_right_moves_in_a_unit_of_256_entries(rt: HostRuntime) -> Result<(), Fail> {
    assert_steps(&rt, rt.alloc(), FIRST, FULL)
}

/// Unit 999999991 with right 999999993. The lodging leaves one number.
const LAST_NUMBERS: &[Step] = &[
    Row(
        Register(true, 1, &[(2, Ownership, 1, 1)]),
        STAMP,
        "done 999999991 made [999999990, 999999991, 999999992, 999999993] at 1000",
    ),
    Row(
        Lodge("A", "Deed 2", Transfer(999_999_991, 999_999_993, 3, 1, 2)),
        STAMP,
        "done 999999995 made [999999994, 999999995] at 1000",
    ),
    Row(
        Lodge("B", "Loan 1", Mortgage(999_999_991, 4, 100)),
        STAMP,
        "done 999999997 made [999999996, 999999997] at 1000",
    ),
    Row(
        Lodge("C", "Deed 3", Transfer(999_999_991, 999_999_993, 3, 1, 2)),
        STAMP,
        "done 999999999 made [999999998, 999999999] at 1000",
    ),
    Row(
        Lodge("D", "Deed 3", Transfer(999_999_991, 999_999_993, 3, 1, 2)),
        STAMP,
        "refused 210",
    ),
    Row(
        Lodge("C", "Deed 4", Transfer(999_999_991, 999_999_993, 3, 1, 2)),
        STAMP,
        "refused 210",
    ),
    Row(
        Lodge("C", "Deed 3", Transfer(999_999_991, 999_999_993, 3, 2, 4)),
        None,
        "done 999999999 made [999999998, 999999999] at 1000",
    ),
    Row(
        Approve(999_999_995),
        STAMP,
        "done 999999995 made [1000000000] at 1000",
    ),
    Row(Approve(999_999_997), STAMP, "refused 210"),
    Row(
        Approve(999_999_999),
        STAMP,
        "done 999999999 made [] at 1000",
    ),
    Row(Refuse(999_999_997), STAMP, "done 999999997 made [] at 1000"),
    Row(
        Lodge("B", "Loan 1", Mortgage(999_999_991, 4, 100)),
        None,
        "done 999999997 made [999999996, 999999997] at 1000",
    ),
];

#[test]
fn mutations_take_numbers_up_to_the_last(rt: HostRuntime) -> Result<(), Fail> {
    assert_steps(&rt, rt.alloc(), 999_999_990, LAST_NUMBERS)
}

const OUT_OF_LIMITS: &[Step] = &[
    Row(Approve(0), STAMP, "not well formed"),
    Row(Refuse(1_000_000_001), STAMP, "not well formed"),
    Row(
        Lodge("", "Deed 2", Transfer(6, 8, 3, 1, 1)),
        STAMP,
        "not well formed",
    ),
    Row(Approve(5), STAMP, "refused 201"),
    Row(Refuse(5), None, "refused 201"),
];

#[test]
fn decisions_are_of_mutations(rt: HostRuntime) -> Result<(), Fail> {
    assert_steps(&rt, rt.alloc(), FIRST, OUT_OF_LIMITS)
}
