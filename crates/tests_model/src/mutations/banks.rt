//! Two banks lend on one unit: the ranks, the mortgages that each sees, and the discharges that each may
//! lodge.
use crate::conclusion::conclude;
use land_core::caller::Caller;
use land_core::kind::Kind::{Mutation, Rrr};
use land_core::kind::PartyKind::NonNaturalPerson;
use land_core::role::Role::{Bank, Citizen};
use std::test::Fail;
use testlib_cases::asked::OFFICE;
use testlib_cases::asked::RowAct::{Approve, Enrol, Grant, Lodge, Refuse, Revoke};
use testlib_cases::asked::RowAsk::{self, Do, List, View};
use testlib_cases::lodged::RowContent::{Discharge, Mortgage};
use testlib_cases::rows::Row;
use testlib_cases::steps::{ANNA, BANK, NORA, SURVEYOR, play_with_mortgage};

const SOUTH: Caller = Caller {
    party: 17,
    role: Bank,
};

/// A second bank.
const ENROLLED: Row = Row(
    1000,
    OFFICE,
    Do(Enrol(NonNaturalPerson, "Bank South")),
    "done 17 made [17] at 1012",
);

const GRANTED: Row = Row(1000, OFFICE, Do(Grant(17, Bank)), "done 17 made [] at 1013");

/// It lends on the garden as the first one does.
const SECOND_LOAN: RowAsk = Do(Lodge("M1", "Loan 1", Mortgage(9, 17, 2_500_000)));

const SECOND_LODGED: Row = Row(1000, SOUTH, SECOND_LOAN, "done 19 made [18, 19] at 1014");

const SECOND_APPROVED: Row = Row(1000, OFFICE, Do(Approve(19)), "done 19 made [20] at 1015");

const LETTER: RowAsk = Do(Lodge("D1", "Letter", Discharge(9, 16)));

const TWO_BANKS: &[Row] = &[
    ENROLLED,
    GRANTED,
    SECOND_LODGED,
    SECOND_LODGED,
    SECOND_APPROVED,
    SECOND_LODGED,
    Row(
        1000,
        NORA,
        View(Rrr, 20, None),
        "rrr 20 in 9 of 17: Mortgage 2500000 EUR of rank 2 from 18",
    ),
    Row(1000, BANK, List(Rrr, None), "numbers [11, 12, 13, 16]"),
    Row(1000, SOUTH, List(Rrr, None), "numbers [11, 12, 13, 20]"),
    Row(1000, SOUTH, LETTER, "denied 9"),
    Row(1000, BANK, LETTER, "done 22 made [21, 22] at 1016"),
    Row(1000, BANK, LETTER, "done 22 made [21, 22] at 1016"),
    Row(1000, NORA, LETTER, "done 24 made [23, 24] at 1017"),
    Row(1000, NORA, LETTER, "done 24 made [23, 24] at 1017"),
    Row(1000, OFFICE, Do(Approve(22)), "done 22 made [] at 1018"),
    Row(1000, OFFICE, Do(Approve(24)), "refused 204"),
    Row(1000, NORA, List(Rrr, None), "numbers [11, 12, 13, 20]"),
    Row(
        1000,
        NORA,
        View(Mutation, 22, None),
        "mutation 22 D1 of 4 from 21 at 1016: Approved Discharge 16 on 9",
    ),
    Row(
        1000,
        NORA,
        View(Mutation, 24, None),
        "mutation 24 D1 of 5 from 23 at 1017: Lodged Discharge 16 on 9",
    ),
    Row(1000, BANK, List(Rrr, None), "numbers []"),
    Row(1000, BANK, LETTER, "denied 9"),
    Row(1000, NORA, LETTER, "done 24 made [23, 24] at 1017"),
];

#[test]
fn two_banks_lend_on_one_unit(rt: HostRuntime) -> Result<(), Fail> {
    conclude(&rt, play_with_mortgage(rt.alloc(), TWO_BANKS))
}

const SOUTH_ITSELF: Caller = Caller {
    party: 17,
    role: Citizen,
};

const OTHERS: &[Row] = &[
    ENROLLED,
    GRANTED,
    Row(
        1000,
        SOUTH,
        Do(Lodge("M1", "Loan 1", Mortgage(9, 4, 2_500_000))),
        "denied 8",
    ),
    Row(1000, SOUTH_ITSELF, SECOND_LOAN, "denied 7"),
    Row(1000, ANNA, LETTER, "denied 7"),
    Row(
        1000,
        BANK,
        Do(Lodge("D2", "Letter", Discharge(9, 11))),
        "denied 9",
    ),
    Row(
        1000,
        BANK,
        Do(Lodge("D2", "Letter", Discharge(9, 99))),
        "denied 9",
    ),
    Row(
        1000,
        NORA,
        Do(Lodge("N1", "Loan 2", Mortgage(9, 17, 100))),
        "done 19 made [18, 19] at 1014",
    ),
    Row(1000, SOUTH, Do(Approve(19)), "denied 4"),
    Row(1000, SOUTH, Do(Refuse(19)), "denied 4"),
    Row(1000, SOUTH, View(Mutation, 19, None), "denied 18"),
    Row(1000, SOUTH, List(Mutation, None), "numbers []"),
    Row(1000, BANK, List(Mutation, None), "numbers [15]"),
    Row(1000, ANNA, List(Mutation, None), "numbers [15, 19]"),
    Row(1000, SOUTH_ITSELF, View(Mutation, 19, None), "denied 14"),
    Row(1000, SURVEYOR, View(Mutation, 19, None), "denied 25"),
    Row(1000, SURVEYOR, List(Mutation, None), "numbers []"),
];

#[test]
fn banks_lodge_only_for_themselves(rt: HostRuntime) -> Result<(), Fail> {
    conclude(&rt, play_with_mortgage(rt.alloc(), OTHERS))
}

/// After a discharge, the next mortgage gets the rank after the remaining ones.
const RANKS: &[Row] = &[
    ENROLLED,
    GRANTED,
    SECOND_LODGED,
    SECOND_APPROVED,
    Row(1000, BANK, LETTER, "done 22 made [21, 22] at 1016"),
    Row(1000, OFFICE, Do(Approve(22)), "done 22 made [] at 1017"),
    Row(
        1000,
        BANK,
        Do(Lodge("M2", "Loan 2", Mortgage(9, 4, 1_000_000_000_000_000))),
        "done 24 made [23, 24] at 1018",
    ),
    Row(1000, OFFICE, Do(Approve(24)), "done 24 made [25] at 1019"),
    Row(
        1000,
        BANK,
        View(Rrr, 25, None),
        "rrr 25 in 9 of 4: Mortgage 1000000000000000 EUR of rank 3 from 23",
    ),
    Row(
        1000,
        SOUTH,
        Do(Lodge("D1", "Letter", Discharge(9, 20))),
        "done 27 made [26, 27] at 1020",
    ),
    Row(1000, OFFICE, Do(Approve(27)), "done 27 made [] at 1021"),
    Row(
        1000,
        BANK,
        Do(Lodge("D2", "Letter", Discharge(9, 25))),
        "done 29 made [28, 29] at 1022",
    ),
    Row(1000, OFFICE, Do(Approve(29)), "done 29 made [] at 1023"),
    Row(
        1000,
        SOUTH,
        Do(Lodge("M2", "Loan 2", Mortgage(9, 17, 1))),
        "done 31 made [30, 31] at 1024",
    ),
    Row(1000, OFFICE, Do(Approve(31)), "done 31 made [32] at 1025"),
    Row(
        1000,
        SOUTH,
        View(Rrr, 32, None),
        "rrr 32 in 9 of 17: Mortgage 1 EUR of rank 1 from 30",
    ),
];

#[test]
fn a_mortgage_gets_the_rank_after_the_existing_ones(rt: HostRuntime) -> Result<(), Fail> {
    conclude(&rt, play_with_mortgage(rt.alloc(), RANKS))
}

const NO_LONGER_A_BANK: &[Row] = &[
    Row(1000, OFFICE, Do(Revoke(4, Bank)), "done 4 made [] at 1012"),
    Row(1000, NORA, List(Rrr, None), "numbers [11, 12, 13, 16]"),
    Row(1000, BANK, LETTER, "denied 2"),
    Row(1000, NORA, LETTER, "done 18 made [17, 18] at 1013"),
    Row(1000, OFFICE, Do(Approve(18)), "done 18 made [] at 1014"),
    Row(1000, NORA, List(Rrr, None), "numbers [11, 12, 13]"),
];

#[test]
fn mortgages_stay_when_the_role_of_the_bank_ends(rt: HostRuntime) -> Result<(), Fail> {
    conclude(&rt, play_with_mortgage(rt.alloc(), NO_LONGER_A_BANK))
}
