//! Reads long after the last change, and rules on visibility that are easily confused.
use crate::conclusion::conclude;
use crate::end_of_time::END;
use land_core::kind::Kind::{Party, Rrr, Unit};
use land_core::limits::LAST_MOMENT;
use land_core::rrr::RightType::{Ownership, Usufruct};
use std::test::Fail;
use testlib_cases::asked::RowAct::{Approve, Group, RegisterAs};
use testlib_cases::asked::RowAsk::{Do, List, Sheet, View};
use testlib_cases::asked::{OFFICE, Right, Share};
use testlib_cases::rows::{Row, play_rows};
use testlib_cases::steps::{ANNA, BANK, BANK_ITSELF, LOAN, SAM, WITH_GARDEN, play_with_group};

/// If the clock is after the last stamp, its reading is now. So 1500 is in the past, although nothing has
/// changed since.
const LATE: &[Row] = &[
    Row(2000, BANK, View(Unit, 9, Some(1500)), "denied 3"),
    Row(2000, BANK, View(Unit, 9, Some(2000)), "unit 9 Garden true"),
    Row(2000, BANK, View(Unit, 9, None), "unit 9 Garden true"),
    Row(2000, BANK, View(Unit, 9, Some(2001)), "fault 135"),
    Row(
        2000,
        ANNA,
        Sheet(9, None),
        "sheet 9 Garden at 2000: parcel 10 rrr 11 Anna rrr 12 Anna and Ben rrr 13 Sam rrr 16 Bank, \"North\"",
    ),
    Row(END, OFFICE, View(Unit, 9, Some(END)), "fault 135"),
    Row(
        END,
        OFFICE,
        View(Unit, 9, Some(LAST_MOMENT)),
        "unit 9 Garden true",
    ),
];

#[test]
fn now_continues_after_the_last_change(rt: HostRuntime) -> Result<(), Fail> {
    conclude(&rt, play_rows(rt.alloc(), WITH_GARDEN, LATE))
}

const WITH_USUFRUCT: &[Right] = &[
    (2, Ownership, 1, 4),
    (7, Ownership, 3, 4),
    (6, Usufruct, 1, 1),
];

/// A usufruct is not an ownership, so its holder does not see the mortgages.
const USUFRUCT: &[Row] = &[
    Row(
        1000,
        OFFICE,
        Do(RegisterAs("Garden", WITH_USUFRUCT)),
        "done 9 made [8, 9, 10, 11, 12, 13] at 1009",
    ),
    Row(1000, BANK, LOAN, "done 15 made [14, 15] at 1010"),
    Row(1000, OFFICE, Do(Approve(15)), "done 15 made [16] at 1011"),
    Row(1000, SAM, List(Rrr, None), "numbers [11, 12, 13]"),
    Row(1000, SAM, View(Rrr, 16, None), "denied 12"),
    Row(1000, ANNA, List(Rrr, None), "numbers [11, 12, 13, 16]"),
];

#[test]
fn a_usufructuary_is_not_an_owner(rt: HostRuntime) -> Result<(), Fail> {
    conclude(&rt, play_with_group(rt.alloc(), USUFRUCT))
}

const HALVES: &[Share] = &[(2, 1, 2), (4, 1, 2)];

/// A bank sees its groups only in the role citizen, and not in the role bank.
const BANK_IN_GROUP: &[Row] = &[
    Row(
        1000,
        OFFICE,
        Do(Group("Anna and the bank", HALVES)),
        "done 8 made [8] at 1009",
    ),
    Row(1000, BANK, List(Party, None), "numbers [4]"),
    Row(1000, BANK, View(Party, 8, None), "denied 17"),
    Row(1000, BANK_ITSELF, List(Party, None), "numbers [4, 8]"),
];

#[test]
fn a_bank_sees_its_groups_only_as_a_citizen(rt: HostRuntime) -> Result<(), Fail> {
    conclude(&rt, play_with_group(rt.alloc(), BANK_IN_GROUP))
}
