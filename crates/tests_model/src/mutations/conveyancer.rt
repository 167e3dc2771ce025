//! A conveyancer sees a unit while a mutation that it lodged refers to the unit and is undecided.
use super::UNIT;
use crate::conclusion::conclude;
use land_core::caller::Caller;
use land_core::kind::Kind::{Mutation, Party, Rrr, Unit};
use land_core::role::Role::Conveyancer;
use std::test::Fail;
use testlib_cases::asked::OFFICE;
use testlib_cases::asked::RowAct::{Approve, Grant, Lodge, Refuse};
use testlib_cases::asked::RowAsk::{self, Do, List, View};
use testlib_cases::lodged::RowContent::{Discharge, Mortgage, Transfer};
use testlib_cases::rows::Row;
use testlib_cases::steps::{ANNA, BANK, SURVEYOR, play_with_mortgage};

const BEN: Caller = Caller {
    party: 3,
    role: Conveyancer,
};

const GRANTED: Row = Row(
    1000,
    OFFICE,
    Do(Grant(3, Conveyancer)),
    "done 3 made [] at 1012",
);

const TRANSFER: RowAsk = Do(Lodge("C1", "Deed 2", Transfer(9, 11, 7, 1, 4)));

const LODGED: Row = Row(1000, BEN, TRANSFER, "done 18 made [17, 18] at 1013");

const APPROVED: &[Row] = &[
    GRANTED,
    Row(1000, BEN, View(Unit, 9, None), "denied 19"),
    Row(1000, BEN, List(Unit, None), "numbers []"),
    LODGED,
    LODGED,
    Row(1000, BEN, View(Unit, 9, None), UNIT),
    Row(1000, BEN, List(Unit, None), "numbers [9]"),
    Row(1000, BEN, List(Rrr, None), "numbers [11, 12, 13, 16]"),
    Row(1000, BEN, List(Party, None), "numbers [2, 3, 4, 6, 7]"),
    Row(1000, BEN, View(Mutation, 15, None), "denied 22"),
    Row(1000, OFFICE, Do(Approve(18)), "done 18 made [] at 1014"),
    Row(1000, BEN, View(Unit, 9, None), "denied 19"),
    Row(1000, BEN, List(Rrr, None), "numbers []"),
    Row(
        1000,
        BEN,
        View(Mutation, 18, None),
        "mutation 18 C1 of 3 from 17 at 1013: Approved Transfer 1/4 of 11 in 9 to 7",
    ),
    LODGED,
    Row(1000, BEN, View(Unit, 9, None), "denied 19"),
];

#[test]
fn a_conveyancer_sees_a_unit_until_its_mutation_is_approved(rt: HostRuntime) -> Result<(), Fail> {
    conclude(&rt, play_with_mortgage(rt.alloc(), APPROVED))
}

const REFUSED: &[Row] = &[
    GRANTED,
    LODGED,
    Row(1000, BEN, View(Unit, 9, None), UNIT),
    Row(1000, OFFICE, Do(Refuse(18)), "done 18 made [] at 1014"),
    Row(1000, BEN, View(Unit, 9, None), "denied 19"),
    Row(
        1000,
        BEN,
        View(Mutation, 18, None),
        "mutation 18 C1 of 3 from 17 at 1013: Refused Transfer 1/4 of 11 in 9 to 7",
    ),
    Row(1000, OFFICE, Do(Approve(18)), "refused 201"),
    Row(1000, OFFICE, Do(Refuse(18)), "refused 201"),
    LODGED,
    Row(
        1000,
        OFFICE,
        View(Rrr, 11, None),
        "rrr 11 in 9 of 2: Ownership 1/4 from 8",
    ),
    Row(
        1000,
        OFFICE,
        Do(Grant(2, Conveyancer)),
        "done 2 made [] at 1015",
    ),
];

#[test]
fn refused_acts_change_nothing(rt: HostRuntime) -> Result<(), Fail> {
    conclude(&rt, play_with_mortgage(rt.alloc(), REFUSED))
}

const WHO_LODGES: &[Row] = &[
    GRANTED,
    Row(1000, ANNA, TRANSFER, "denied 5"),
    Row(1000, BANK, TRANSFER, "denied 5"),
    Row(1000, SURVEYOR, TRANSFER, "denied 5"),
    Row(1000, OFFICE, TRANSFER, "denied 5"),
    Row(
        1000,
        BEN,
        Do(Lodge("C2", "Loan 2", Mortgage(9, 4, 100))),
        "denied 7",
    ),
    Row(
        1000,
        BEN,
        Do(Lodge("C3", "Letter", Discharge(9, 16))),
        "denied 7",
    ),
    Row(1000, BEN, Do(Approve(15)), "denied 4"),
    LODGED,
];

#[test]
fn conveyancers_lodge_only_transfers(rt: HostRuntime) -> Result<(), Fail> {
    conclude(&rt, play_with_mortgage(rt.alloc(), WHO_LODGES))
}

/// Lodging reads no unit. No caller sees a unit that does not exist.
const NO_UNIT: &[Row] = &[
    GRANTED,
    Row(1000, BEN, View(Unit, 77, None), "denied 19"),
    Row(
        1000,
        BEN,
        Do(Lodge("C1", "Deed 2", Transfer(77, 11, 7, 1, 4))),
        "done 18 made [17, 18] at 1013",
    ),
    Row(1000, BEN, View(Unit, 77, None), "denied 27"),
    Row(1000, BEN, View(Unit, 9, None), "denied 19"),
    Row(1000, BEN, List(Unit, None), "numbers []"),
    Row(1000, OFFICE, Do(Approve(18)), "refused 202"),
];

#[test]
fn lodging_reads_no_unit(rt: HostRuntime) -> Result<(), Fail> {
    conclude(&rt, play_with_mortgage(rt.alloc(), NO_UNIT))
}
