//! Transfers at the limits of shares: the whole right, the finest part of it, shares that are too fine, and
//! shares that are too large.
use crate::conclusion::conclude;
use land_core::kind::Kind::Rrr;
use land_core::rrr::RightType::{Lease, Ownership};
use std::test::Fail;
use testlib_cases::asked::RowAct::{Approve, Lodge, Register};
use testlib_cases::asked::RowAsk::{Do, List, View};
use testlib_cases::asked::{OFFICE, Right};
use testlib_cases::lodged::RowContent::Transfer;
use testlib_cases::rows::Row;
use testlib_cases::steps::{NORA, play_with_group, play_with_mortgage};

const ANNAS: &[Right] = &[(2, Ownership, 1, 1), (6, Lease, 1, 1)];

/// A checked unit 9, which Anna owns by right 11 and leases to Sam by right 12.
const OWNED: Row = Row(
    1000,
    OFFICE,
    Do(Register(true, 1, ANNAS)),
    "done 9 made [8, 9, 10, 11, 12] at 1009",
);

const WHOLES: &[Row] = &[
    OWNED,
    Row(
        1000,
        NORA,
        Do(Lodge("A", "Deed 2", Transfer(9, 11, 3, 1, 1))),
        "done 14 made [13, 14] at 1010",
    ),
    Row(1000, OFFICE, Do(Approve(14)), "done 14 made [15] at 1011"),
    Row(1000, NORA, List(Rrr, None), "numbers [12, 15]"),
    Row(
        1000,
        NORA,
        View(Rrr, 15, None),
        "rrr 15 in 9 of 3: Ownership 1/1 from 13",
    ),
    Row(
        1000,
        NORA,
        Do(Lodge("B", "Deed 3", Transfer(9, 15, 7, 1, 1))),
        "done 17 made [16, 17] at 1012",
    ),
    Row(1000, OFFICE, Do(Approve(17)), "done 17 made [18] at 1013"),
    Row(
        1000,
        NORA,
        View(Rrr, 18, None),
        "rrr 18 in 9 of 7: Ownership 1/1 from 16",
    ),
    Row(
        1000,
        NORA,
        Do(Lodge("C", "Deed 4", Transfer(9, 12, 7, 1, 3))),
        "done 20 made [19, 20] at 1014",
    ),
    Row(1000, OFFICE, Do(Approve(20)), "done 20 made [21] at 1015"),
    Row(1000, NORA, List(Rrr, None), "numbers [12, 18, 21]"),
    Row(
        1000,
        NORA,
        View(Rrr, 12, None),
        "rrr 12 in 9 of 6: Lease 2/3 from 19",
    ),
    Row(
        1000,
        NORA,
        View(Rrr, 21, None),
        "rrr 21 in 9 of 7: Lease 1/3 from 19",
    ),
    Row(
        1000,
        NORA,
        View(Rrr, 18, None),
        "rrr 18 in 9 of 7: Ownership 1/1 from 16",
    ),
];

#[test]
fn the_whole_of_a_right_goes_to_a_party_or_a_group(rt: HostRuntime) -> Result<(), Fail> {
    conclude(&rt, play_with_group(rt.alloc(), WHOLES))
}

/// All but the finest part goes to the bank; then a third of that is too fine.
const MAX_DENOMINATOR: &[Row] = &[
    OWNED,
    Row(
        1000,
        NORA,
        Do(Lodge(
            "A",
            "Deed 2",
            Transfer(9, 11, 4, 999_999_999, 1_000_000_000),
        )),
        "done 14 made [13, 14] at 1010",
    ),
    Row(1000, OFFICE, Do(Approve(14)), "done 14 made [15] at 1011"),
    Row(
        1000,
        NORA,
        View(Rrr, 11, None),
        "rrr 11 in 9 of 2: Ownership 1/1000000000 from 13",
    ),
    Row(
        1000,
        NORA,
        View(Rrr, 15, None),
        "rrr 15 in 9 of 4: Ownership 999999999/1000000000 from 13",
    ),
    Row(
        1000,
        NORA,
        Do(Lodge("B", "Deed 3", Transfer(9, 15, 3, 1, 3))),
        "done 17 made [16, 17] at 1012",
    ),
    Row(1000, OFFICE, Do(Approve(17)), "refused 207"),
    Row(
        1000,
        NORA,
        Do(Lodge("C", "Deed 3", Transfer(9, 15, 2, 1, 3))),
        "done 19 made [18, 19] at 1013",
    ),
    Row(1000, OFFICE, Do(Approve(19)), "refused 207"),
    Row(
        1000,
        NORA,
        Do(Lodge("D", "Deed 3", Transfer(9, 11, 4, 1, 1_000_000_000))),
        "done 21 made [20, 21] at 1014",
    ),
    Row(1000, OFFICE, Do(Approve(21)), "done 21 made [] at 1015"),
    Row(1000, NORA, View(Rrr, 11, None), "denied 27"),
    Row(
        1000,
        NORA,
        View(Rrr, 15, None),
        "rrr 15 in 9 of 4: Ownership 1/1 from 20",
    ),
];

#[test]
fn shares_are_as_fine_as_fractions_are(rt: HostRuntime) -> Result<(), Fail> {
    conclude(&rt, play_with_group(rt.alloc(), MAX_DENOMINATOR))
}

const THREE: &[Right] = &[
    (2, Ownership, 1, 2),
    (3, Ownership, 1, 4),
    (4, Ownership, 1, 4),
];

/// The remaining share and the transferred share are fine enough separately, but not together with quarters.
const TOGETHER: &[Row] = &[
    Row(
        1000,
        OFFICE,
        Do(Register(true, 1, THREE)),
        "done 9 made [8, 9, 10, 11, 12, 13] at 1009",
    ),
    Row(
        1000,
        NORA,
        Do(Lodge("A", "Deed 2", Transfer(9, 11, 6, 1, 999_999_998))),
        "done 15 made [14, 15] at 1010",
    ),
    Row(1000, OFFICE, Do(Approve(15)), "refused 207"),
    Row(
        1000,
        OFFICE,
        Do(Register(false, 1, THREE)),
        "done 17 made [16, 17, 18, 19, 20, 21] at 1011",
    ),
    Row(
        1000,
        NORA,
        Do(Lodge("B", "Deed 2", Transfer(17, 19, 6, 1, 999_999_998))),
        "done 23 made [22, 23] at 1012",
    ),
    Row(1000, OFFICE, Do(Approve(23)), "done 23 made [24] at 1013"),
    Row(
        1000,
        NORA,
        View(Rrr, 19, None),
        "rrr 19 in 17 of 2: Ownership 249999999/499999999 from 22",
    ),
    Row(
        1000,
        NORA,
        View(Rrr, 24, None),
        "rrr 24 in 17 of 6: Ownership 1/999999998 from 22",
    ),
    Row(
        1000,
        NORA,
        Do(Lodge("C", "Deed 3", Transfer(17, 20, 6, 1, 4))),
        "done 26 made [25, 26] at 1014",
    ),
    Row(1000, OFFICE, Do(Approve(26)), "refused 207"),
    Row(
        1000,
        NORA,
        Do(Lodge("D", "Deed 3", Transfer(17, 19, 4, 1, 4))),
        "done 28 made [27, 28] at 1015",
    ),
    Row(1000, OFFICE, Do(Approve(28)), "refused 207"),
];

#[test]
fn shares_of_a_checked_unit_have_a_common_denominator(rt: HostRuntime) -> Result<(), Fail> {
    conclude(&rt, play_with_group(rt.alloc(), TOGETHER))
}

const HALVES: &[Right] = &[(2, Ownership, 1, 2), (3, Ownership, 1, 2)];

/// A transfer to the holder itself is never too fine, but its share may not be above that of the right.
const ITSELF: &[Row] = &[
    Row(
        1000,
        OFFICE,
        Do(Register(true, 1, HALVES)),
        "done 9 made [8, 9, 10, 11, 12] at 1009",
    ),
    Row(
        1000,
        NORA,
        Do(Lodge("A", "Deed 2", Transfer(9, 11, 2, 1, 2))),
        "done 14 made [13, 14] at 1010",
    ),
    Row(1000, OFFICE, Do(Approve(14)), "refused 219"),
    Row(
        1000,
        NORA,
        Do(Lodge("B", "Deed 2", Transfer(9, 11, 2, 1, 999_999_999))),
        "done 16 made [15, 16] at 1011",
    ),
    Row(1000, OFFICE, Do(Approve(16)), "refused 219"),
    Row(
        1000,
        NORA,
        Do(Lodge(
            "C",
            "Deed 2",
            Transfer(9, 11, 2, 500_000_001, 1_000_000_000),
        )),
        "done 18 made [17, 18] at 1012",
    ),
    Row(1000, OFFICE, Do(Approve(18)), "refused 206"),
    Row(
        1000,
        NORA,
        Do(Lodge(
            "D",
            "Deed 2",
            Transfer(9, 11, 6, 500_000_001, 1_000_000_000),
        )),
        "done 20 made [19, 20] at 1013",
    ),
    Row(1000, OFFICE, Do(Approve(20)), "refused 206"),
];

#[test]
fn a_right_is_not_transferred_to_its_holder(rt: HostRuntime) -> Result<(), Fail> {
    conclude(&rt, play_with_group(rt.alloc(), ITSELF))
}

const NOT_WHOLE: &[Right] = &[
    (2, Ownership, 1, 1),
    (3, Ownership, 3, 4),
    (4, Ownership, 999_999_999, 1_000_000_000),
];

/// In a unit that is not checked, the shares may sum to more than one, but no party has more than one.
const UNCHECKED: &[Row] = &[
    Row(
        1000,
        OFFICE,
        Do(Register(false, 1, NOT_WHOLE)),
        "done 9 made [8, 9, 10, 11, 12, 13] at 1009",
    ),
    Row(
        1000,
        NORA,
        Do(Lodge("A", "Deed 2", Transfer(9, 11, 3, 1, 2))),
        "done 15 made [14, 15] at 1010",
    ),
    Row(1000, OFFICE, Do(Approve(15)), "refused 206"),
    Row(
        1000,
        NORA,
        Do(Lodge("B", "Deed 2", Transfer(9, 11, 4, 1, 3))),
        "done 17 made [16, 17] at 1011",
    ),
    Row(1000, OFFICE, Do(Approve(17)), "refused 206"),
    Row(
        1000,
        NORA,
        Do(Lodge("C", "Deed 2", Transfer(9, 11, 3, 1, 4))),
        "done 19 made [18, 19] at 1012",
    ),
    Row(1000, OFFICE, Do(Approve(19)), "done 19 made [] at 1013"),
    Row(
        1000,
        NORA,
        View(Rrr, 11, None),
        "rrr 11 in 9 of 2: Ownership 3/4 from 18",
    ),
    Row(
        1000,
        NORA,
        View(Rrr, 12, None),
        "rrr 12 in 9 of 3: Ownership 1/1 from 18",
    ),
];

#[test]
fn no_party_has_more_than_one(rt: HostRuntime) -> Result<(), Fail> {
    conclude(&rt, play_with_group(rt.alloc(), UNCHECKED))
}

const PARTIAL: &[Row] = &[
    Row(
        1000,
        NORA,
        Do(Lodge("P1", "Deed", Transfer(9, 12, 2, 1, 4))),
        "done 18 made [17, 18] at 1012",
    ),
    Row(
        1000,
        NORA,
        Do(Lodge("P1", "Deed", Transfer(9, 12, 2, 1, 4))),
        "done 18 made [17, 18] at 1012",
    ),
    Row(1000, OFFICE, Do(Approve(18)), "done 18 made [] at 1013"),
    Row(
        1000,
        NORA,
        View(Rrr, 11, None),
        "rrr 11 in 9 of 2: Ownership 1/2 from 17",
    ),
    Row(
        1000,
        NORA,
        View(Rrr, 12, None),
        "rrr 12 in 9 of 7: Ownership 1/2 from 17",
    ),
];

#[test]
fn a_part_of_a_right_goes_to_a_party_with_another(rt: HostRuntime) -> Result<(), Fail> {
    conclude(&rt, play_with_mortgage(rt.alloc(), PARTIAL))
}
