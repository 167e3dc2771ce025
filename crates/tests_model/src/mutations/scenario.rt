//! The garden is mortgaged and transferred, step by step; each lodging is sent twice.
use super::{QUARTER_APPROVED, QUARTER_LODGED, UNIT};
use crate::conclusion::conclude;
use land_core::kind::Kind::{Mutation, Party, Rrr, Source, Unit};
use land_core::role::Role::Notary;
use std::test::Fail;
use testlib_cases::asked::OFFICE;
use testlib_cases::asked::RowAct::{Approve, Lodge, Revoke};
use testlib_cases::asked::RowAsk::{self, Do, List, Sheet, View};
use testlib_cases::lodged::RowContent::Transfer;
use testlib_cases::rows::Row;
use testlib_cases::steps::{
    ANNA, BANK, LOAN, NORA, NORA_HERSELF, QUARTER, SAM, SURVEYOR, WHOLE, play_with_garden,
    play_with_mortgage,
};

const LOAN_LODGED: Row = Row(1000, BANK, LOAN, "done 15 made [14, 15] at 1010");

const WHOLE_LODGED: Row = Row(1000, NORA, WHOLE, "done 20 made [19, 20] at 1014");

const WHOLE_APPROVED: Row = Row(1000, OFFICE, Do(Approve(20)), "done 20 made [21] at 1015");

/// A repeated lodging returns the objects that existed after the first one; sheets show the last stamp.
const STEPS: &[Row] = &[
    LOAN_LODGED,
    LOAN_LODGED,
    Row(1000, NORA, List(Mutation, None), "numbers [15]"),
    Row(1000, NORA, List(Source, None), "numbers [8, 14]"),
    Row(
        1000,
        ANNA,
        Sheet(9, None),
        "sheet 9 Garden at 1010: parcel 10 rrr 11 Anna rrr 12 Anna and Ben rrr 13 Sam",
    ),
    Row(1000, OFFICE, Do(Approve(15)), "done 15 made [16] at 1011"),
    LOAN_LODGED,
    Row(
        1000,
        ANNA,
        Sheet(9, None),
        "sheet 9 Garden at 1011: parcel 10 rrr 11 Anna rrr 12 Anna and Ben rrr 13 Sam rrr 16 Bank, \"North\"",
    ),
    QUARTER_LODGED,
    QUARTER_LODGED,
    QUARTER_APPROVED,
    QUARTER_LODGED,
    WHOLE_LODGED,
    WHOLE_LODGED,
    WHOLE_APPROVED,
    WHOLE_LODGED,
    QUARTER_LODGED,
    LOAN_LODGED,
    Row(1000, NORA, List(Mutation, None), "numbers [15, 18, 20]"),
    Row(1000, NORA, List(Source, None), "numbers [8, 14, 17, 19]"),
    Row(1000, NORA, List(Rrr, None), "numbers [13, 16, 21]"),
    Row(
        1000,
        NORA,
        Sheet(9, None),
        "sheet 9 Garden at 1015: parcel 10 rrr 13 Sam rrr 16 Bank, \"North\" rrr 21 Ben",
    ),
];

#[test]
fn each_lodging_is_done_once(rt: HostRuntime) -> Result<(), Fail> {
    conclude(&rt, play_with_garden(rt.alloc(), STEPS))
}

const SHOWN: &[Row] = &[
    QUARTER_LODGED,
    QUARTER_APPROVED,
    WHOLE_LODGED,
    WHOLE_APPROVED,
    Row(
        1000,
        NORA,
        View(Mutation, 15, Some(1010)),
        "mutation 15 M1 of 4 from 14 at 1010: Lodged Mortgage 2500000 EUR on 9 of 4",
    ),
    Row(
        1000,
        NORA,
        View(Mutation, 15, None),
        "mutation 15 M1 of 4 from 14 at 1010: Approved Mortgage 2500000 EUR on 9 of 4",
    ),
    Row(1000, NORA, View(Mutation, 15, Some(1009)), "denied 27"),
    Row(
        1000,
        NORA,
        View(Mutation, 18, None),
        "mutation 18 T1 of 5 from 17 at 1012: Approved Transfer 1/4 of 11 in 9 to 7",
    ),
    Row(
        1000,
        NORA,
        View(Rrr, 16, None),
        "rrr 16 in 9 of 4: Mortgage 2500000 EUR of rank 1 from 14",
    ),
    Row(
        1000,
        NORA,
        View(Rrr, 12, Some(1014)),
        "rrr 12 in 9 of 7: Ownership 1/1 from 17",
    ),
    Row(1000, NORA, View(Rrr, 12, None), "denied 27"),
    Row(
        1000,
        NORA,
        View(Rrr, 21, None),
        "rrr 21 in 9 of 3: Ownership 1/1 from 19",
    ),
    Row(
        1000,
        NORA,
        View(Source, 14, None),
        "source 14 Administrative Loan 1",
    ),
    Row(
        1000,
        NORA,
        View(Source, 19, None),
        "source 19 Administrative Deed 3",
    ),
];

#[test]
fn lodged_and_approved_mutations_are_shown(rt: HostRuntime) -> Result<(), Fail> {
    conclude(&rt, play_with_mortgage(rt.alloc(), SHOWN))
}

const MORTGAGED: &[Row] = &[
    Row(1000, NORA_HERSELF, View(Unit, 77, None), "denied 11"),
    Row(1000, NORA_HERSELF, View(Unit, 9, None), "denied 11"),
    Row(1000, NORA, View(Unit, 77, None), "denied 27"),
    Row(1000, NORA, View(Unit, 9, None), UNIT),
    Row(1000, ANNA, List(Rrr, None), "numbers [11, 12, 13, 16]"),
    Row(1000, SAM, List(Rrr, None), "numbers [11, 12, 13]"),
    Row(1000, SAM, View(Rrr, 16, None), "denied 12"),
    Row(1000, SURVEYOR, List(Rrr, None), "numbers []"),
    Row(1000, ANNA, List(Unit, None), "numbers [9]"),
    Row(1000, ANNA, List(Party, None), "numbers [2, 4, 6, 7]"),
    Row(1000, ANNA, List(Source, None), "numbers []"),
    Row(1000, ANNA, View(Source, 8, None), "denied 26"),
];

#[test]
fn owners_see_the_mortgage_and_the_lessee_does_not(rt: HostRuntime) -> Result<(), Fail> {
    conclude(&rt, play_with_mortgage(rt.alloc(), MORTGAGED))
}

const GROWN: &[Row] = &[
    QUARTER_LODGED,
    QUARTER_APPROVED,
    Row(
        1000,
        NORA,
        View(Rrr, 12, None),
        "rrr 12 in 9 of 7: Ownership 1/1 from 17",
    ),
    Row(1000, NORA, View(Rrr, 11, None), "denied 27"),
];

#[test]
fn a_right_ends_if_all_of_it_is_transferred(rt: HostRuntime) -> Result<(), Fail> {
    conclude(&rt, play_with_mortgage(rt.alloc(), GROWN))
}

const MORE_THAN_THE_RIGHT: &[Row] = &[
    Row(
        1000,
        NORA,
        Do(Lodge("T0", "Deed 2", Transfer(9, 11, 7, 1, 2))),
        "done 18 made [17, 18] at 1012",
    ),
    Row(1000, OFFICE, Do(Approve(18)), "refused 206"),
    Row(
        1000,
        NORA,
        View(Mutation, 18, None),
        "mutation 18 T0 of 5 from 17 at 1012: Lodged Transfer 1/2 of 11 in 9 to 7",
    ),
];

#[test]
fn a_refused_approval_leaves_the_mutation_lodged(rt: HostRuntime) -> Result<(), Fail> {
    conclude(&rt, play_with_mortgage(rt.alloc(), MORE_THAN_THE_RIGHT))
}

const GIVEN_UP: &[Row] = &[
    QUARTER_LODGED,
    QUARTER_APPROVED,
    WHOLE_LODGED,
    WHOLE_APPROVED,
    Row(1000, ANNA, View(Unit, 9, Some(1014)), UNIT),
    Row(1000, ANNA, View(Unit, 9, Some(1015)), "denied 11"),
    Row(1000, ANNA, View(Unit, 9, None), "denied 11"),
    Row(1000, ANNA, View(Unit, 9, Some(1016)), "fault 135"),
    Row(1000, BANK, View(Unit, 9, Some(1014)), "denied 3"),
    Row(1000, BANK, View(Unit, 9, None), UNIT),
];

#[test]
fn a_former_owner_sees_the_unit_of_that_time(rt: HostRuntime) -> Result<(), Fail> {
    conclude(&rt, play_with_mortgage(rt.alloc(), GIVEN_UP))
}

const REVOKED: &[Row] = &[
    Row(
        1000,
        OFFICE,
        Do(Revoke(5, Notary)),
        "done 5 made [] at 1012",
    ),
    Row(1000, NORA, View(Unit, 9, Some(1011)), "denied 2"),
    Row(1000, NORA, QUARTER, "denied 2"),
];

#[test]
fn a_former_notary_is_denied_the_past(rt: HostRuntime) -> Result<(), Fail> {
    conclude(&rt, play_with_mortgage(rt.alloc(), REVOKED))
}
