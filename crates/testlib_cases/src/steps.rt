//! The steps with which other rows begin.
use crate::asked::RowAct::{Approve, Enrol, Grant, Group, Lodge, Mandate, Register, RegisterAs};
use crate::asked::RowAsk::Do;
use crate::asked::{OFFICE, Right, RowAsk, Share};
use crate::lodged::RowContent::{Mortgage, Transfer};
use crate::rows::{Row, play_rows};
use crate::stop::Stop;
use land_core::caller::Caller;
use land_core::kind::PartyKind::{NaturalPerson, NonNaturalPerson};
use land_core::role::Role::{Bank, CertifiedSurveyor, Citizen, Notary};
use land_core::rrr::RightType::{Lease, Ownership};
use std::alloc::Global;

pub const ANNA: Caller = Caller {
    party: 2,
    role: Citizen,
};

pub const BEN: Caller = Caller {
    party: 3,
    role: Citizen,
};

pub const BANK: Caller = Caller {
    party: 4,
    role: Bank,
};

/// The bank as a citizen, who manages its own holdings.
pub const BANK_ITSELF: Caller = Caller {
    party: 4,
    role: Citizen,
};

pub const NORA: Caller = Caller {
    party: 5,
    role: Notary,
};

pub const NORA_HERSELF: Caller = Caller {
    party: 5,
    role: Citizen,
};

pub const SURVEYOR: Caller = Caller {
    party: 6,
    role: CertifiedSurveyor,
};

pub const SAM: Caller = Caller {
    party: 6,
    role: Citizen,
};

const ANNA_A_THIRD: &[Share] = &[(2, 1, 3), (3, 2, 3)];

/// Anna, Ben and the bank are enrolled.
const ENROLLED: &[Row] = &[
    Row(
        1000,
        OFFICE,
        Do(Enrol(NaturalPerson, "Anna")),
        "done 2 made [2] at 1000",
    ),
    Row(
        1000,
        OFFICE,
        Do(Enrol(NaturalPerson, "Ben")),
        "done 3 made [3] at 1001",
    ),
    Row(
        1000,
        OFFICE,
        Do(Enrol(NonNaturalPerson, "Bank, \"North\"")),
        "done 4 made [4] at 1002",
    ),
];

/// The bank gets its role, Nora and Sam are enrolled and get theirs, and Anna and Ben become a group.
const GROUPED: &[Row] = &[
    Row(1000, OFFICE, Do(Grant(4, Bank)), "done 4 made [] at 1003"),
    Row(
        1000,
        OFFICE,
        Do(Enrol(NaturalPerson, "Nora")),
        "done 5 made [5] at 1004",
    ),
    Row(1000, OFFICE, Do(Grant(5, Notary)), "done 5 made [] at 1005"),
    Row(
        1000,
        OFFICE,
        Do(Enrol(NaturalPerson, "Sam")),
        "done 6 made [6] at 1006",
    ),
    Row(
        1000,
        OFFICE,
        Do(Grant(6, CertifiedSurveyor)),
        "done 6 made [] at 1007",
    ),
    Row(
        1000,
        OFFICE,
        Do(Group("Anna and Ben", ANNA_A_THIRD)),
        "done 7 made [7] at 1008",
    ),
];

/// Anna owns a quarter, the group of Anna and Ben the remainder, and Sam has a lease.
pub const SHARED: &[Right] = &[(2, Ownership, 1, 4), (7, Ownership, 3, 4), (6, Lease, 1, 1)];

/// The garden is registered.
const REGISTERED: &[Row] = &[Row(
    1000,
    OFFICE,
    Do(Register(true, 1, SHARED)),
    "done 9 made [8, 9, 10, 11, 12, 13] at 1009",
)];

/// Instead of the garden, the field is registered: a unit with another name, of which Anna and the group own
/// a half each.
const FIELD_REGISTERED: &[Row] = &[Row(
    1000,
    OFFICE,
    Do(RegisterAs(
        "Field",
        &[(2, Ownership, 1, 2), (7, Ownership, 1, 2), (6, Lease, 1, 1)],
    )),
    "done 9 made [8, 9, 10, 11, 12, 13] at 1009",
)];

/// The bank lends on the garden.
pub const LOAN: RowAsk = Do(Lodge("M1", "Loan 1", Mortgage(9, 4, 2_500_000)));

/// The loan is lodged.
const LODGED: &[Row] = &[Row(1000, BANK, LOAN, "done 15 made [14, 15] at 1010")];

/// The loan is approved.
const MORTGAGED: &[Row] = &[Row(1000, OFFICE, Do(Approve(15)), "done 15 made [16] at 1011")];

/// Transfers Anna's quarter of the garden to the group.
pub const QUARTER: RowAsk = Do(Lodge("T1", "Deed 2", Transfer(9, 11, 7, 1, 4)));

/// Transfers the group's whole of the garden to Ben.
pub const WHOLE: RowAsk = Do(Lodge("T2", "Deed 3", Transfer(9, 12, 3, 1, 1)));

/// Ben has bought the garden.
const SOLD: &[Row] = &[
    Row(1000, NORA, QUARTER, "done 18 made [17, 18] at 1012"),
    Row(1000, OFFICE, Do(Approve(18)), "done 18 made [] at 1013"),
    Row(1000, NORA, WHOLE, "done 20 made [19, 20] at 1014"),
    Row(1000, OFFICE, Do(Approve(20)), "done 20 made [21] at 1015"),
];

/// The steps up to the mortgage on the garden.
pub const WITH_GARDEN: &[&[Row]] = &[ENROLLED, GROUPED, REGISTERED, LODGED, MORTGAGED];

/// The same steps, with the field instead of the garden.
pub const WITH_FIELD: &[&[Row]] = &[ENROLLED, GROUPED, FIELD_REGISTERED, LODGED, MORTGAGED];

/// Ben's mandate to Sam.
const MANDATED: &[Row] = &[Row(1000, BEN, Do(Mandate(6)), "done 6 made [] at 1012")];

/// The steps up to the mortgage on the garden, and Ben's mandate to Sam.
pub const WITH_MANDATE: &[&[Row]] = &[ENROLLED, GROUPED, REGISTERED, LODGED, MORTGAGED, MANDATED];

/// Runs rows on a new register, and checks the replies in full.
pub fn play_on_new_register(alloc: Global, rows: &[Row]) -> Result<(), Stop> {
    play_rows(alloc, &[], rows)
}

/// Runs rows after the steps that enrol Anna, Ben and the bank.
pub fn play_with_parties(alloc: Global, rows: &[Row]) -> Result<(), Stop> {
    play_rows(alloc, &[ENROLLED], rows)
}

/// Runs rows after the steps up to the group of Anna and Ben.
pub fn play_with_group(alloc: Global, rows: &[Row]) -> Result<(), Stop> {
    play_rows(alloc, &[ENROLLED, GROUPED], rows)
}

/// Runs rows after the steps up to the registration of the garden.
pub fn play_with_garden(alloc: Global, rows: &[Row]) -> Result<(), Stop> {
    play_rows(alloc, &[ENROLLED, GROUPED, REGISTERED], rows)
}

/// Runs rows after the steps up to the lodging of the loan.
pub fn play_with_loan(alloc: Global, rows: &[Row]) -> Result<(), Stop> {
    play_rows(alloc, &[ENROLLED, GROUPED, REGISTERED, LODGED], rows)
}

/// Runs rows after the steps up to the approval of the loan.
pub fn play_with_mortgage(alloc: Global, rows: &[Row]) -> Result<(), Stop> {
    play_rows(alloc, WITH_GARDEN, rows)
}

/// Runs rows after the steps up to the sale of the garden to Ben.
pub fn play_with_sale(alloc: Global, rows: &[Row]) -> Result<(), Stop> {
    play_rows(
        alloc,
        &[ENROLLED, GROUPED, REGISTERED, LODGED, MORTGAGED, SOLD],
        rows,
    )
}
