//! Lodgings that are repeated: unchanged, in another representation, and with another content under the
//! reference.
use super::{QUARTER_APPROVED, QUARTER_LODGED};
use crate::conclusion::conclude;
use land_core::caller::Caller;
use land_core::kind::Kind::Mutation;
use land_core::role::Role::{Conveyancer, Notary};
use std::test::Fail;
use testlib_cases::asked::OFFICE;
use testlib_cases::asked::RowAct::{Approve, Grant, Lodge, Refuse};
use testlib_cases::asked::RowAsk::{self, Do, List};
use testlib_cases::lodged::RowContent::{Discharge, Mortgage, Transfer};
use testlib_cases::rows::Row;
use testlib_cases::steps::{BANK, LOAN, NORA, QUARTER, play_with_loan, play_with_mortgage};

/// The loan with one cent more.
const LARGER: RowAsk = Do(Lodge("M1", "Loan 1", Mortgage(9, 4, 2_500_001)));

const LOANS: &[Row] = &[
    Row(1000, BANK, LOAN, "done 15 made [14, 15] at 1010"),
    Row(1000, BANK, LARGER, "refused 214"),
    Row(1000, OFFICE, Do(Approve(15)), "done 15 made [16] at 1011"),
    Row(1000, BANK, LOAN, "done 15 made [14, 15] at 1010"),
    Row(1000, BANK, LARGER, "refused 214"),
    Row(
        1000,
        BANK,
        Do(Lodge("M1", "Loan 2", Mortgage(9, 4, 2_500_000))),
        "refused 214",
    ),
    Row(
        1000,
        BANK,
        Do(Lodge("M1", "Loan 1", Mortgage(8, 4, 2_500_000))),
        "refused 214",
    ),
    Row(
        1000,
        BANK,
        Do(Lodge("M1", "Loan 1", Discharge(9, 16))),
        "refused 214",
    ),
    Row(
        1000,
        BANK,
        Do(Lodge("m1", "Loan 1", Mortgage(9, 4, 2_500_000))),
        "done 18 made [17, 18] at 1012",
    ),
];

#[test]
fn a_repeated_lodging_gets_its_first_receipt(rt: HostRuntime) -> Result<(), Fail> {
    conclude(&rt, play_with_loan(rt.alloc(), LOANS))
}

/// The quarter as two eighths.
const EIGHTHS: RowAsk = Do(Lodge("T1", "Deed 2", Transfer(9, 11, 7, 2, 8)));

const EIGHTHS_LODGED: Row = Row(1000, NORA, EIGHTHS, "done 18 made [17, 18] at 1012");

const SPELLINGS: &[Row] = &[
    EIGHTHS_LODGED,
    QUARTER_LODGED,
    EIGHTHS_LODGED,
    Row(
        1000,
        NORA,
        Do(Lodge(
            "T1",
            "Deed 2",
            Transfer(9, 11, 7, 250_000_000, 1_000_000_000),
        )),
        "done 18 made [17, 18] at 1012",
    ),
    Row(
        1000,
        NORA,
        Do(Lodge("T1", "Deed 3", Transfer(9, 11, 7, 2, 8))),
        "refused 214",
    ),
    Row(
        1000,
        NORA,
        Do(Lodge("T1", "Deed 2", Transfer(9, 11, 7, 1, 8))),
        "refused 214",
    ),
    Row(
        1000,
        NORA,
        Do(Lodge("T1", "Deed 2", Transfer(9, 12, 7, 2, 8))),
        "refused 214",
    ),
    Row(
        1000,
        NORA,
        Do(Lodge("T1", "Deed 2", Transfer(9, 11, 3, 2, 8))),
        "refused 214",
    ),
    QUARTER_APPROVED,
    EIGHTHS_LODGED,
    QUARTER_LODGED,
    Row(1000, NORA, List(Mutation, None), "numbers [15, 18]"),
    Row(
        1000,
        NORA,
        Do(Lodge("T2", "Deed 2", Transfer(9, 11, 7, 1, 4))),
        "done 20 made [19, 20] at 1014",
    ),
];

#[test]
fn a_share_in_another_spelling_is_the_same(rt: HostRuntime) -> Result<(), Fail> {
    conclude(&rt, play_with_mortgage(rt.alloc(), SPELLINGS))
}

/// A refused mutation cannot be lodged again under its reference.
const REFUSED: &[Row] = &[
    QUARTER_LODGED,
    Row(1000, OFFICE, Do(Refuse(18)), "done 18 made [] at 1013"),
    EIGHTHS_LODGED,
    QUARTER_LODGED,
    Row(
        1000,
        NORA,
        Do(Lodge("T1", "Deed 3", Transfer(9, 11, 7, 1, 4))),
        "refused 214",
    ),
    Row(1000, OFFICE, Do(Approve(18)), "refused 201"),
    Row(
        1000,
        NORA,
        Do(Lodge("T2", "Deed 2", Transfer(9, 11, 7, 1, 4))),
        "done 20 made [19, 20] at 1014",
    ),
    Row(1000, OFFICE, Do(Approve(20)), "done 20 made [] at 1015"),
];

#[test]
fn references_are_kept_for_good(rt: HostRuntime) -> Result<(), Fail> {
    conclude(&rt, play_with_mortgage(rt.alloc(), REFUSED))
}

const NORA_CONVEYS: Caller = Caller {
    party: 5,
    role: Conveyancer,
};

const OFFICE_AS_NOTARY: Caller = Caller {
    party: 1,
    role: Notary,
};

/// A reference belongs to its lodger in all roles; another lodger may use the same.
const LODGERS: &[Row] = &[
    QUARTER_LODGED,
    Row(
        1000,
        OFFICE,
        Do(Grant(5, Conveyancer)),
        "done 5 made [] at 1013",
    ),
    Row(1000, NORA_CONVEYS, QUARTER, "done 18 made [17, 18] at 1012"),
    Row(1000, OFFICE, Do(Grant(1, Notary)), "done 1 made [] at 1014"),
    Row(
        1000,
        OFFICE_AS_NOTARY,
        QUARTER,
        "done 20 made [19, 20] at 1015",
    ),
    Row(1000, NORA, QUARTER, "done 18 made [17, 18] at 1012"),
];

#[test]
fn a_reference_is_that_of_its_lodger(rt: HostRuntime) -> Result<(), Fail> {
    conclude(&rt, play_with_mortgage(rt.alloc(), LODGERS))
}

/// The Land Office lodges as a notary, and then may not decide on it.
const ITS_OWN: &[Row] = &[
    Row(1000, OFFICE, Do(Grant(1, Notary)), "done 1 made [] at 1012"),
    Row(
        1000,
        OFFICE_AS_NOTARY,
        QUARTER,
        "done 18 made [17, 18] at 1013",
    ),
    Row(1000, OFFICE, Do(Approve(18)), "denied 10"),
    Row(1000, OFFICE, Do(Refuse(18)), "denied 10"),
    Row(1000, OFFICE_AS_NOTARY, Do(Approve(18)), "denied 4"),
];

#[test]
fn no_party_decides_on_its_own_lodging(rt: HostRuntime) -> Result<(), Fail> {
    conclude(&rt, play_with_mortgage(rt.alloc(), ITS_OWN))
}
