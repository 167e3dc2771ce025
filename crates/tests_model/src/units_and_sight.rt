//! Units with their parcels and entries: registered, burdened, and seen by role and time.
use crate::conclusion::conclude;
use land_core::act::BurdenClass::{Responsibility, Restriction};
use land_core::caller::Caller;
use land_core::kind::Kind::{Parcel, Party, Rrr, Source, Unit};
use land_core::role::Role::{Citizen, Conveyancer};
use land_core::rrr::RightType::Ownership;
use std::test::Fail;
use testlib_cases::asked::RowAct::{Burden, Grant, Lift, Register};
use testlib_cases::asked::RowAsk::{Do, List, Sheet, View};
use testlib_cases::asked::{OFFICE, Right, RowAsk};
use testlib_cases::rows::Row;
use testlib_cases::steps::{
    ANNA, BANK, BANK_ITSELF, BEN, NORA, NORA_HERSELF, SAM, SHARED, SURVEYOR, play_with_garden,
};

const HALF_AND_THIRD: &[Right] = &[(2, Ownership, 1, 2), (3, Ownership, 1, 3)];

const TWICE: &[Right] = &[(2, Ownership, 1, 2), (2, Ownership, 1, 2)];

const UNIT: &str = "unit 9 Garden true";

const RESTRICTION: &str = "rrr 15 in 9 of 1: Restriction No well from 14";

/// A restriction of the Land Office on the garden.
const BURDEN: Row = Row(
    1000,
    OFFICE,
    Do(Burden(Restriction, 9, 1)),
    "done 15 made [14, 15] at 1010",
);

const LIFT: Row = Row(1000, OFFICE, Do(Lift(15)), "done 15 made [] at 1011");

const UNITS_AND_SIGHT: &[Row] = &[
    Row(1000, NORA_HERSELF, View(Unit, 77, None), "denied 11"),
    Row(1000, NORA_HERSELF, View(Unit, 9, None), "denied 11"),
    Row(1000, NORA, View(Unit, 77, None), "denied 27"),
    Row(1000, ANNA, List(Unit, None), "numbers [9]"),
    Row(1000, ANNA, List(Party, None), "numbers [2, 6, 7]"),
    Row(1000, BANK, View(Unit, 9, None), "denied 15"),
    Row(
        1000,
        OFFICE,
        Do(Register(true, 1, HALF_AND_THIRD)),
        "refused 213",
    ),
    Row(1000, OFFICE, Do(Register(true, 1, TWICE)), "refused 219"),
    BURDEN,
    Row(1000, OFFICE, Do(Lift(13)), "refused 204"),
    LIFT,
    Row(1000, ANNA, View(Rrr, 15, Some(1010)), RESTRICTION),
    Row(1000, ANNA, View(Rrr, 15, Some(1011)), "denied 12"),
    Row(1000, ANNA, View(Rrr, 15, Some(1009)), "denied 12"),
    Row(1000, NORA, View(Rrr, 15, Some(1010)), RESTRICTION),
    Row(1000, NORA, View(Rrr, 15, Some(1011)), "denied 27"),
    Row(1000, ANNA, View(Unit, 9, Some(1009)), UNIT),
    Row(1000, ANNA, View(Unit, 9, Some(1008)), "denied 11"),
    Row(1000, BANK, View(Unit, 9, Some(1010)), "denied 3"),
];

#[test]
fn units_and_sight(rt: HostRuntime) -> Result<(), Fail> {
    conclude(&rt, play_with_garden(rt.alloc(), UNITS_AND_SIGHT))
}

const HOLDINGS: &[Row] = &[
    Row(1000, NORA_HERSELF, View(Unit, 77, None), "denied 11"),
    Row(1000, NORA_HERSELF, View(Unit, 9, None), "denied 11"),
    Row(1000, NORA, View(Unit, 77, None), "denied 27"),
    Row(1000, NORA, View(Unit, 9, None), UNIT),
    Row(1000, ANNA, List(Rrr, None), "numbers [11, 12, 13]"),
    Row(1000, SAM, List(Rrr, None), "numbers [11, 12, 13]"),
    Row(1000, SAM, View(Rrr, 16, None), "denied 12"),
    Row(1000, SURVEYOR, List(Rrr, None), "numbers []"),
    Row(1000, ANNA, List(Unit, None), "numbers [9]"),
    Row(1000, ANNA, List(Party, None), "numbers [2, 6, 7]"),
    Row(1000, ANNA, List(Source, None), "numbers []"),
    Row(1000, ANNA, View(Source, 8, None), "denied 26"),
];

#[test]
fn holders_see_their_holdings(rt: HostRuntime) -> Result<(), Fail> {
    conclude(&rt, play_with_garden(rt.alloc(), HOLDINGS))
}

const SHOWN: &[Row] = &[
    Row(1000, ANNA, View(Unit, 9, None), UNIT),
    Row(
        1000,
        ANNA,
        View(Rrr, 11, None),
        "rrr 11 in 9 of 2: Ownership 1/4 from 8",
    ),
    Row(
        1000,
        SAM,
        View(Rrr, 12, None),
        "rrr 12 in 9 of 7: Ownership 3/4 from 8",
    ),
    Row(
        1000,
        BEN,
        View(Rrr, 13, None),
        "rrr 13 in 9 of 6: Lease 1/1 from 8",
    ),
    Row(
        1000,
        NORA,
        View(Source, 8, None),
        "source 8 Administrative Deed 1",
    ),
    Row(
        1000,
        BANK,
        View(Parcel, 10, None),
        "parcel 10 in 9: 12 of 200000000 from 8: POLYGON ((0 0, 10000 0, 10000 10000, 0 10000, 0 0))",
    ),
    Row(1000, BANK, View(Unit, 9, Some(1008)), "denied 3"),
    Row(1000, NORA, List(Source, None), "numbers [8]"),
    Row(1000, ANNA, Do(Register(true, 1, SHARED)), "denied 4"),
];

#[test]
fn registered_objects_are_shown(rt: HostRuntime) -> Result<(), Fail> {
    conclude(&rt, play_with_garden(rt.alloc(), SHOWN))
}

const SHEET: RowAsk = Sheet(9, None);

const NOW: &str =
    "sheet 9 Garden at 1011: parcel 10 rrr 11 Anna rrr 12 Anna and Ben rrr 13 Sam rrr 15 Land Office";

const BEFORE: &str = "sheet 9 Garden at 1009: parcel 10 rrr 11 Anna rrr 12 Anna and Ben rrr 13 Sam";

const CONVEYANCER: Caller = Caller {
    party: 3,
    role: Conveyancer,
};

const OFFICE_ITSELF: Caller = Caller {
    party: 1,
    role: Citizen,
};

const SHEETS: &[Row] = &[
    BURDEN,
    Row(
        1000,
        OFFICE,
        Do(Grant(3, Conveyancer)),
        "done 3 made [] at 1011",
    ),
    Row(1000, ANNA, SHEET, NOW),
    Row(1000, BEN, SHEET, NOW),
    Row(1000, SAM, SHEET, NOW),
    Row(1000, NORA_HERSELF, SHEET, "denied 11"),
    Row(1000, BANK_ITSELF, SHEET, "denied 11"),
    Row(1000, OFFICE_ITSELF, SHEET, "denied 2"),
    Row(1000, CONVEYANCER, SHEET, "denied 19"),
    Row(1000, NORA, SHEET, NOW),
    Row(1000, BANK, SHEET, "denied 15"),
    Row(1000, SURVEYOR, SHEET, "denied 23"),
    Row(1000, OFFICE, SHEET, NOW),
    Row(1000, NORA, Sheet(9, Some(1009)), BEFORE),
    Row(1000, ANNA, Sheet(9, Some(1009)), BEFORE),
    Row(1000, ANNA, Sheet(9, Some(1008)), "denied 11"),
    Row(1000, NORA, Sheet(9, Some(1008)), "denied 27"),
    Row(1000, BANK, Sheet(9, Some(1009)), "denied 3"),
    Row(1000, NORA, Sheet(10, None), "denied 27"),
    Row(1000, NORA, Sheet(9, Some(1012)), "fault 135"),
    Row(
        1000,
        OFFICE,
        Do(Burden(Responsibility, 9, 6)),
        "done 17 made [16, 17] at 1012",
    ),
    Row(
        1000,
        SAM,
        View(Rrr, 17, None),
        "rrr 17 in 9 of 6: Responsibility No well from 16",
    ),
];

#[test]
fn a_sheet_has_what_its_caller_sees(rt: HostRuntime) -> Result<(), Fail> {
    conclude(&rt, play_with_garden(rt.alloc(), SHEETS))
}
