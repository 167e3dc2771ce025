//! Approvals that are refused: an object does not exist or is of another kind, or no stamp is left.
use super::QUARTER_LODGED;
use crate::conclusion::conclude;
use crate::end_of_time::END;
use land_core::kind::Kind::{Mutation, Rrr};
use land_core::limits::LAST_MOMENT;
use land_core::role::Role::Bank;
use land_core::rrr::RightType::Ownership;
use std::test::Fail;
use testlib_cases::asked::RowAct::{Approve, Grant, Lodge, Refuse, Register};
use testlib_cases::asked::RowAsk::{Do, View};
use testlib_cases::asked::{OFFICE, Right};
use testlib_cases::lodged::RowContent::{Discharge, Mortgage, Transfer};
use testlib_cases::rows::Row;
use testlib_cases::steps::{NORA, QUARTER, play_with_loan, play_with_mortgage};

const NOT_LODGED: &[Row] = &[
    Row(1000, OFFICE, Do(Approve(99)), "refused 201"),
    Row(1000, OFFICE, Do(Refuse(99)), "refused 201"),
    Row(1000, OFFICE, Do(Approve(9)), "refused 201"),
    Row(1000, OFFICE, Do(Refuse(14)), "refused 201"),
    Row(1000, OFFICE, Do(Approve(15)), "refused 201"),
    Row(1000, OFFICE, Do(Refuse(15)), "refused 201"),
    Row(END, OFFICE, Do(Approve(15)), "refused 201"),
    QUARTER_LODGED,
];

#[test]
fn only_undecided_mutations_are_decided(rt: HostRuntime) -> Result<(), Fail> {
    conclude(&rt, play_with_mortgage(rt.alloc(), NOT_LODGED))
}

const ORCHARD: &[Right] = &[(3, Ownership, 1, 1)];

/// A second unit 18 with right 20.
const SECOND_UNIT: Row = Row(
    1000,
    OFFICE,
    Do(Register(true, 1, ORCHARD)),
    "done 18 made [17, 18, 19, 20] at 1012",
);

const TRANSFERS: &[Row] = &[
    SECOND_UNIT,
    Row(
        1000,
        NORA,
        Do(Lodge("A", "Deed 2", Transfer(77, 11, 99, 1, 1))),
        "done 22 made [21, 22] at 1013",
    ),
    Row(1000, OFFICE, Do(Approve(22)), "refused 202"),
    Row(
        1000,
        NORA,
        Do(Lodge("B", "Deed 2", Transfer(10, 11, 7, 1, 4))),
        "done 24 made [23, 24] at 1014",
    ),
    Row(1000, OFFICE, Do(Approve(24)), "refused 202"),
    Row(
        1000,
        NORA,
        Do(Lodge("C", "Deed 2", Transfer(9, 20, 99, 1, 1))),
        "done 26 made [25, 26] at 1015",
    ),
    Row(1000, OFFICE, Do(Approve(26)), "refused 204"),
    Row(
        1000,
        NORA,
        Do(Lodge("D", "Deed 2", Transfer(9, 16, 2, 1, 4))),
        "done 28 made [27, 28] at 1016",
    ),
    Row(1000, OFFICE, Do(Approve(28)), "refused 204"),
    Row(
        1000,
        NORA,
        Do(Lodge("E", "Deed 2", Transfer(9, 99, 2, 1, 4))),
        "done 30 made [29, 30] at 1017",
    ),
    Row(1000, OFFICE, Do(Approve(30)), "refused 204"),
    Row(
        1000,
        NORA,
        Do(Lodge("F", "Deed 2", Transfer(9, 11, 99, 1, 1))),
        "done 32 made [31, 32] at 1018",
    ),
    Row(1000, OFFICE, Do(Approve(32)), "refused 205"),
    Row(
        1000,
        NORA,
        Do(Lodge("G", "Deed 2", Transfer(9, 11, 9, 1, 4))),
        "done 34 made [33, 34] at 1019",
    ),
    Row(1000, OFFICE, Do(Approve(34)), "refused 205"),
    Row(
        1000,
        NORA,
        View(Mutation, 34, None),
        "mutation 34 G of 5 from 33 at 1019: Lodged Transfer 1/4 of 11 in 9 to 9",
    ),
    Row(1000, OFFICE, Do(Refuse(34)), "done 34 made [] at 1020"),
];

#[test]
fn transfers_are_of_existing_rights(rt: HostRuntime) -> Result<(), Fail> {
    conclude(&rt, play_with_mortgage(rt.alloc(), TRANSFERS))
}

const MORTGAGES: &[Row] = &[
    Row(
        1000,
        NORA,
        Do(Lodge("A", "Loan 2", Mortgage(77, 99, 100))),
        "done 18 made [17, 18] at 1012",
    ),
    Row(1000, OFFICE, Do(Approve(18)), "refused 202"),
    Row(
        1000,
        NORA,
        Do(Lodge("B", "Loan 2", Mortgage(9, 99, 100))),
        "done 20 made [19, 20] at 1013",
    ),
    Row(1000, OFFICE, Do(Approve(20)), "refused 205"),
    Row(
        1000,
        NORA,
        Do(Lodge("C", "Loan 2", Mortgage(9, 2, 100))),
        "done 22 made [21, 22] at 1014",
    ),
    Row(1000, OFFICE, Do(Approve(22)), "refused 211"),
    Row(END, OFFICE, Do(Approve(22)), "refused 211"),
    Row(
        1000,
        NORA,
        Do(Lodge("D", "Loan 2", Mortgage(9, 7, 100))),
        "done 24 made [23, 24] at 1015",
    ),
    Row(1000, OFFICE, Do(Approve(24)), "refused 211"),
    Row(1000, OFFICE, Do(Grant(2, Bank)), "done 2 made [] at 1016"),
    Row(1000, OFFICE, Do(Approve(22)), "done 22 made [25] at 1017"),
    Row(
        1000,
        NORA,
        View(Rrr, 25, None),
        "rrr 25 in 9 of 2: Mortgage 100 EUR of rank 2 from 21",
    ),
];

#[test]
fn the_creditor_is_a_bank_at_the_approval(rt: HostRuntime) -> Result<(), Fail> {
    conclude(&rt, play_with_mortgage(rt.alloc(), MORTGAGES))
}

const DISCHARGES: &[Row] = &[
    SECOND_UNIT,
    Row(
        1000,
        NORA,
        Do(Lodge("A", "Letter", Discharge(77, 16))),
        "done 22 made [21, 22] at 1013",
    ),
    Row(1000, OFFICE, Do(Approve(22)), "refused 202"),
    Row(
        1000,
        NORA,
        Do(Lodge("B", "Letter", Discharge(18, 16))),
        "done 24 made [23, 24] at 1014",
    ),
    Row(1000, OFFICE, Do(Approve(24)), "refused 204"),
    Row(
        1000,
        NORA,
        Do(Lodge("C", "Letter", Discharge(9, 20))),
        "done 26 made [25, 26] at 1015",
    ),
    Row(1000, OFFICE, Do(Approve(26)), "refused 204"),
    Row(
        1000,
        NORA,
        Do(Lodge("D", "Letter", Discharge(9, 11))),
        "done 28 made [27, 28] at 1016",
    ),
    Row(1000, OFFICE, Do(Approve(28)), "refused 212"),
    Row(END, OFFICE, Do(Approve(28)), "refused 212"),
    Row(
        1000,
        NORA,
        Do(Lodge("E", "Letter", Discharge(9, 99))),
        "done 30 made [29, 30] at 1017",
    ),
    Row(1000, OFFICE, Do(Approve(30)), "refused 204"),
    Row(
        1000,
        NORA,
        Do(Lodge("F", "Letter", Discharge(9, 16))),
        "done 32 made [31, 32] at 1018",
    ),
    Row(1000, OFFICE, Do(Approve(32)), "done 32 made [] at 1019"),
];

#[test]
fn discharges_are_of_mortgages_of_the_unit(rt: HostRuntime) -> Result<(), Fail> {
    conclude(&rt, play_with_mortgage(rt.alloc(), DISCHARGES))
}

/// A repeat needs no stamp.
const NO_MOMENT: &[Row] = &[
    Row(END, OFFICE, Do(Approve(15)), "refused 217"),
    Row(END, OFFICE, Do(Refuse(15)), "refused 217"),
    Row(END, NORA, QUARTER, "refused 217"),
    Row(1000, NORA, QUARTER, "done 17 made [16, 17] at 1011"),
    Row(END, NORA, QUARTER, "done 17 made [16, 17] at 1011"),
    Row(
        END,
        NORA,
        Do(Lodge("T1", "Deed 3", Transfer(9, 11, 7, 1, 4))),
        "refused 214",
    ),
    Row(END, OFFICE, Do(Approve(17)), "refused 217"),
    Row(
        1000,
        NORA,
        Do(Lodge("A", "Deed 2", Transfer(9, 11, 2, 1, 4))),
        "done 19 made [18, 19] at 1012",
    ),
    Row(END, OFFICE, Do(Approve(19)), "refused 217"),
    Row(1000, OFFICE, Do(Approve(19)), "refused 219"),
    Row(1000, OFFICE, Do(Approve(17)), "done 17 made [] at 1013"),
    Row(
        LAST_MOMENT,
        OFFICE,
        Do(Approve(15)),
        "done 15 made [20] at 4102444799999",
    ),
    Row(1000, OFFICE, Do(Refuse(19)), "refused 217"),
    Row(1000, NORA, QUARTER, "done 17 made [16, 17] at 1011"),
];

#[test]
fn nothing_is_lodged_or_decided_at_the_end_of_time(rt: HostRuntime) -> Result<(), Fail> {
    conclude(&rt, play_with_loan(rt.alloc(), NO_MOMENT))
}
