//! Subdivisions and mergers near the limits: the maximum number of parts and parcels, a unit of 256 parcels,
//! and the last numbers.
use super::Step::{self, Next, Parcels, Row, Sound, Stands};
use super::burdens::UNIT;
use super::{FIRST, STAMP, assert_steps};
use land_core::kind::Kind::{Parcel, Rrr, Unit};
use land_core::rrr::RightType::Ownership;
use std::test::Fail;
use testlib_cases::asked::RowAct::{Approve, Lodge, Register};
use testlib_cases::lodged::RowContent::{Merger, Subdivision};
use testlib_cases::lodged::{RowParcel, RowPart};

const SQUARE: &str = "POLYGON ((0 0, 10000 0, 10000 10000, 0 10000, 0 0))";

/// A rectangle of two squares.
const DOUBLE: &str = "POLYGON ((0 0, 20000 0, 20000 10000, 0 10000, 0 0))";

const LEFT: &str = "POLYGON ((0 0, 5000 0, 5000 10000, 0 10000, 0 0))";

const RIGHT: &str = "POLYGON ((5000 0, 10000 0, 10000 10000, 5000 10000, 5000 0))";

/// A sixteenth of the square, and the other sixteenths to its right.
const STRIP: &str = "POLYGON ((0 0, 625 0, 625 10000, 0 10000, 0 0))";

const SECOND: &str = "POLYGON ((625 0, 1250 0, 1250 10000, 625 10000, 625 0))";

const THIRD: &str = "POLYGON ((1250 0, 1875 0, 1875 10000, 1250 10000, 1250 0))";

const FOURTH: &str = "POLYGON ((1875 0, 2500 0, 2500 10000, 1875 10000, 1875 0))";

const FIFTH: &str = "POLYGON ((2500 0, 3125 0, 3125 10000, 2500 10000, 2500 0))";

const SIXTH: &str = "POLYGON ((3125 0, 3750 0, 3750 10000, 3125 10000, 3125 0))";

const SEVENTH: &str = "POLYGON ((3750 0, 4375 0, 4375 10000, 3750 10000, 3750 0))";

const EIGHTH: &str = "POLYGON ((4375 0, 5000 0, 5000 10000, 4375 10000, 4375 0))";

const NINTH: &str = "POLYGON ((5000 0, 5625 0, 5625 10000, 5000 10000, 5000 0))";

const TENTH: &str = "POLYGON ((5625 0, 6250 0, 6250 10000, 5625 10000, 5625 0))";

const ELEVENTH: &str = "POLYGON ((6250 0, 6875 0, 6875 10000, 6250 10000, 6250 0))";

const TWELFTH: &str = "POLYGON ((6875 0, 7500 0, 7500 10000, 6875 10000, 6875 0))";

const THIRTEENTH: &str = "POLYGON ((7500 0, 8125 0, 8125 10000, 7500 10000, 7500 0))";

const FOURTEENTH: &str = "POLYGON ((8125 0, 8750 0, 8750 10000, 8125 10000, 8125 0))";

const FIFTEENTH: &str = "POLYGON ((8750 0, 9375 0, 9375 10000, 8750 10000, 8750 0))";

const SIXTEENTH: &str = "POLYGON ((9375 0, 10000 0, 10000 10000, 9375 10000, 9375 0))";

const FIRST_STRIP: RowParcel = RowParcel("12", STRIP);

const FIRST_HALF: RowParcel = RowParcel("12a", LEFT);

/// A unit of 256 parcels may have no more, but a part may become a new unit, and parcels may be merged.
const FULL: &[Step] = &[
    UNIT,
    Parcels(255),
    Row(
        Lodge(
            "A",
            "Plan 1",
            Subdivision(6, 7, FIRST_HALF, &[RowPart("12b", RIGHT, None)]),
        ),
        STAMP,
        "done 1001 made [1000, 1001] at 1000",
    ),
    Row(Approve(1001), STAMP, "refused 210"),
    Row(Approve(1001), None, "refused 210"),
    Row(
        Lodge(
            "B",
            "Plan 1",
            Subdivision(6, 7, FIRST_HALF, &[RowPart("12b", RIGHT, Some("Orchard"))]),
        ),
        STAMP,
        "done 1003 made [1002, 1003] at 1000",
    ),
    Row(Approve(1003), None, "refused 217"),
    Row(
        Approve(1003),
        STAMP,
        "done 1003 made [1004, 1005, 1006, 1007] at 1000",
    ),
    Sound,
    Row(
        Lodge(
            "C",
            "Plan 2",
            Merger(6, &[], &[20, 21], RowParcel("12", DOUBLE)),
        ),
        STAMP,
        "done 1009 made [1008, 1009] at 1000",
    ),
    Row(Approve(1009), None, "refused 217"),
    Row(Approve(1009), STAMP, "done 1009 made [1010] at 1000"),
    Stands(Parcel, 20, false),
    Stands(Parcel, 21, false),
    Stands(Parcel, 22, true),
    Stands(Parcel, 1010, true),
    Sound,
];

#[test]
fn a_unit_has_room_for_256_parcels(rt: HostRuntime) -> Result<(), Fail> {
    assert_steps(&rt, rt.alloc(), FIRST, FULL)
}

const NEW_UNITS: &[RowPart] = &[
    RowPart("12", SECOND, Some("Strip")),
    RowPart("12", THIRD, Some("Strip")),
    RowPart("12", FOURTH, Some("Strip")),
    RowPart("12", FIFTH, Some("Strip")),
    RowPart("12", SIXTH, Some("Strip")),
    RowPart("12", SEVENTH, Some("Strip")),
    RowPart("12", EIGHTH, Some("Strip")),
    RowPart("12", NINTH, Some("Strip")),
    RowPart("12", TENTH, Some("Strip")),
    RowPart("12", ELEVENTH, Some("Strip")),
    RowPart("12", TWELFTH, Some("Strip")),
    RowPart("12", THIRTEENTH, Some("Strip")),
    RowPart("12", FOURTEENTH, Some("Strip")),
    RowPart("12", FIFTEENTH, Some("Strip")),
    RowPart("12", SIXTEENTH, Some("Strip")),
];

/// A source, a parcel and, fifteen times, a unit, a parcel and a right.
const SIXTEEN_PARTS: &[Step] = &[
    UNIT,
    Row(
        Lodge("A", "Plan 1", Subdivision(6, 7, FIRST_STRIP, NEW_UNITS)),
        STAMP,
        "done 10 made [9, 10] at 1000",
    ),
    Row(
        Approve(10),
        STAMP,
        "done 10 made [11, 12, 13, 14, 15, 16, 17, 18, 19, 20, 21, 22, 23, 24, 25, 26, 27, 28, 29, 30, 31, 32, 33, 34, 35, 36, 37, 38, 39, 40, 41, 42, 43, 44, 45, 46, 47, 48, 49, 50, 51, 52, 53, 54, 55, 56] at 1000",
    ),
    Stands(Parcel, 11, true),
    Stands(Unit, 12, true),
    Stands(Parcel, 13, true),
    Stands(Rrr, 14, true),
    Stands(Unit, 54, true),
    Stands(Parcel, 55, true),
    Stands(Rrr, 56, true),
    Stands(Parcel, 7, false),
    Next(57),
    Sound,
];

#[test]
fn sixteen_parts_go_to_as_many_units(rt: HostRuntime) -> Result<(), Fail> {
    assert_steps(&rt, rt.alloc(), FIRST, SIXTEEN_PARTS)
}

const STRIPS: &[RowPart] = &[
    RowPart("12", SECOND, None),
    RowPart("12", THIRD, None),
    RowPart("12", FOURTH, None),
    RowPart("12", FIFTH, None),
    RowPart("12", SIXTH, None),
    RowPart("12", SEVENTH, None),
    RowPart("12", EIGHTH, None),
    RowPart("12", NINTH, None),
    RowPart("12", TENTH, None),
    RowPart("12", ELEVENTH, None),
    RowPart("12", TWELFTH, None),
    RowPart("12", THIRTEENTH, None),
    RowPart("12", FOURTEENTH, None),
    RowPart("12", FIFTEENTH, None),
    RowPart("12", SIXTEENTH, None),
];

/// Sixteen strips stay in the unit, and are merged again.
const SIXTEEN_PARCELS: &[Step] = &[
    UNIT,
    Row(
        Lodge("A", "Plan 1", Subdivision(6, 7, FIRST_STRIP, STRIPS)),
        STAMP,
        "done 10 made [9, 10] at 1000",
    ),
    Row(
        Approve(10),
        STAMP,
        "done 10 made [11, 12, 13, 14, 15, 16, 17, 18, 19, 20, 21, 22, 23, 24, 25, 26] at 1000",
    ),
    Row(
        Lodge(
            "B",
            "Plan 2",
            Merger(
                6,
                &[],
                &[
                    11, 12, 13, 14, 15, 16, 17, 18, 19, 20, 21, 22, 23, 24, 25, 26,
                ],
                RowParcel("12", SQUARE),
            ),
        ),
        STAMP,
        "done 28 made [27, 28] at 1000",
    ),
    Row(Approve(28), STAMP, "done 28 made [29] at 1000"),
    Stands(Parcel, 11, false),
    Stands(Parcel, 26, false),
    Stands(Parcel, 29, true),
    Sound,
];

#[test]
fn sixteen_parcels_become_one(rt: HostRuntime) -> Result<(), Fail> {
    assert_steps(&rt, rt.alloc(), FIRST, SIXTEEN_PARCELS)
}

/// The ground is checked last: after the counts, and after the stamp.
const OTHER_GROUND: &[Step] = &[
    UNIT,
    Parcels(255),
    Row(
        Lodge(
            "A",
            "Plan 1",
            Subdivision(6, 7, FIRST_HALF, &[RowPart("12b", LEFT, None)]),
        ),
        STAMP,
        "done 1001 made [1000, 1001] at 1000",
    ),
    Row(Approve(1001), STAMP, "refused 210"),
    Row(
        Lodge(
            "B",
            "Plan 1",
            Subdivision(6, 7, FIRST_HALF, &[RowPart("12b", LEFT, Some("Orchard"))]),
        ),
        STAMP,
        "done 1003 made [1002, 1003] at 1000",
    ),
    Row(Approve(1003), None, "refused 217"),
    Row(Approve(1003), STAMP, "refused 220"),
    Row(
        Lodge(
            "C",
            "Plan 2",
            Merger(6, &[], &[20, 22], RowParcel("12", DOUBLE)),
        ),
        STAMP,
        "done 1005 made [1004, 1005] at 1000",
    ),
    Row(Approve(1005), None, "refused 217"),
    Row(Approve(1005), STAMP, "refused 220"),
    Sound,
];

#[test]
fn ground_is_checked_last(rt: HostRuntime) -> Result<(), Fail> {
    assert_steps(&rt, rt.alloc(), FIRST, OTHER_GROUND)
}

const TOO_MANY_STRIPS: &[RowPart] = &[
    RowPart("12", STRIP, None),
    RowPart("12", STRIP, None),
    RowPart("12", STRIP, None),
    RowPart("12", STRIP, None),
    RowPart("12", STRIP, None),
    RowPart("12", STRIP, None),
    RowPart("12", STRIP, None),
    RowPart("12", STRIP, None),
    RowPart("12", STRIP, None),
    RowPart("12", STRIP, None),
    RowPart("12", STRIP, None),
    RowPart("12", STRIP, None),
    RowPart("12", STRIP, None),
    RowPart("12", STRIP, None),
    RowPart("12", STRIP, None),
    RowPart("12", STRIP, None),
];

const OUT_OF_LIMITS: &[Step] = &[
    Row(
        Lodge("A", "Plan 1", Subdivision(6, 7, FIRST_STRIP, &[])),
        STAMP,
        "not well formed",
    ),
    Row(
        Lodge(
            "A",
            "Plan 1",
            Subdivision(6, 7, FIRST_STRIP, TOO_MANY_STRIPS),
        ),
        STAMP,
        "not well formed",
    ),
    Row(
        Lodge(
            "A",
            "Plan 1",
            Subdivision(6, 7, FIRST_HALF, &[RowPart("12b", RIGHT, Some(""))]),
        ),
        STAMP,
        "not well formed",
    ),
    Row(
        Lodge("A", "Plan 2", Merger(6, &[], &[7], RowParcel("12", SQUARE))),
        STAMP,
        "not well formed",
    ),
    Row(
        Lodge(
            "A",
            "Plan 2",
            Merger(
                6,
                &[],
                &[
                    11, 12, 13, 14, 15, 16, 17, 18, 19, 20, 21, 22, 23, 24, 25, 26, 27,
                ],
                RowParcel("12", SQUARE),
            ),
        ),
        STAMP,
        "not well formed",
    ),
    Row(
        Lodge(
            "A",
            "Plan 2",
            Merger(6, &[], &[8, 7], RowParcel("12", SQUARE)),
        ),
        STAMP,
        "not well formed",
    ),
    Row(
        Lodge(
            "A",
            "Plan 2",
            Merger(6, &[], &[7, 7], RowParcel("12", SQUARE)),
        ),
        STAMP,
        "not well formed",
    ),
    Row(
        Lodge(
            "A",
            "Plan 2",
            Merger(6, &[5, 6], &[7, 8], RowParcel("12", SQUARE)),
        ),
        STAMP,
        "not well formed",
    ),
    Row(
        Lodge(
            "A",
            "Plan 2",
            Merger(6, &[9, 8], &[7, 8], RowParcel("12", SQUARE)),
        ),
        STAMP,
        "not well formed",
    ),
    Row(
        Lodge(
            "A",
            "Plan 2",
            Merger(
                20,
                &[1, 2, 3, 4, 5, 6, 7, 8, 9, 10, 11, 12, 13, 14, 15, 16],
                &[7, 8],
                RowParcel("12", SQUARE),
            ),
        ),
        STAMP,
        "not well formed",
    ),
    Row(
        Lodge(
            "A",
            "Plan 2",
            Merger(
                20,
                &[1, 2, 3, 4, 5, 6, 7, 8, 9, 10, 11, 12, 13, 14, 15],
                &[7, 8],
                RowParcel("12", SQUARE),
            ),
        ),
        STAMP,
        "done 6 made [5, 6] at 1000",
    ),
];

#[test]
fn lists_of_parts_units_and_parcels_have_their_limits(rt: HostRuntime) -> Result<(), Fail> {
    assert_steps(&rt, rt.alloc(), FIRST, OUT_OF_LIMITS)
}

const OWNED: Step = Row(
    Register(false, 1, &[(2, Ownership, 1, 1)]),
    STAMP,
    "done 10 made [9, 10, 11, 12] at 1000",
);

/// Units 6 and 10 are not checked, and unit 18, which is a part of unit 6, is.
const MARKS: &[Step] = &[
    UNIT,
    OWNED,
    Row(
        Lodge(
            "A",
            "Plan 1",
            Merger(6, &[10], &[7, 11], RowParcel("12", DOUBLE)),
        ),
        STAMP,
        "done 14 made [13, 14] at 1000",
    ),
    Row(Approve(14), STAMP, "refused 209"),
    Row(
        Lodge(
            "B",
            "Plan 1",
            Subdivision(6, 7, FIRST_HALF, &[RowPart("12b", RIGHT, Some("Orchard"))]),
        ),
        STAMP,
        "done 16 made [15, 16] at 1000",
    ),
    Row(Approve(16), STAMP, "done 16 made [17, 18, 19, 20] at 1000"),
    Row(
        Lodge(
            "C",
            "Plan 1",
            Merger(6, &[18], &[17, 19], RowParcel("12", SQUARE)),
        ),
        STAMP,
        "done 22 made [21, 22] at 1000",
    ),
    Row(Approve(22), STAMP, "done 22 made [23] at 1000"),
    Stands(Unit, 6, true),
    Stands(Unit, 18, false),
    Stands(Rrr, 8, true),
    Stands(Rrr, 20, false),
    Stands(Parcel, 17, false),
    Stands(Parcel, 19, false),
    Stands(Parcel, 23, true),
    Sound,
];

#[test]
fn units_are_merged_if_both_are_checked_or_neither(rt: HostRuntime) -> Result<(), Fail> {
    assert_steps(&rt, rt.alloc(), FIRST, MARKS)
}

/// Unit 999999991 with parcel 999999992. After two lodgings three numbers are left.
const LAST_NUMBERS: &[Step] = &[
    Row(
        Register(true, 1, &[(2, Ownership, 1, 1)]),
        STAMP,
        "done 999999991 made [999999990, 999999991, 999999992, 999999993] at 1000",
    ),
    Row(
        Lodge(
            "A",
            "Plan 1",
            Subdivision(
                999_999_991,
                999_999_992,
                FIRST_HALF,
                &[RowPart("12b", RIGHT, Some("Orchard"))],
            ),
        ),
        STAMP,
        "done 999999995 made [999999994, 999999995] at 1000",
    ),
    Row(
        Lodge(
            "B",
            "Plan 1",
            Subdivision(
                999_999_991,
                999_999_992,
                FIRST_HALF,
                &[RowPart("12b", RIGHT, None)],
            ),
        ),
        STAMP,
        "done 999999997 made [999999996, 999999997] at 1000",
    ),
    Row(Approve(999_999_995), STAMP, "refused 210"),
    Row(
        Approve(999_999_997),
        STAMP,
        "done 999999997 made [999999998, 999999999] at 1000",
    ),
    Row(Approve(999_999_995), STAMP, "refused 203"),
    Sound,
];

#[test]
fn parts_take_numbers_up_to_the_last(rt: HostRuntime) -> Result<(), Fail> {
    assert_steps(&rt, rt.alloc(), 999_999_990, LAST_NUMBERS)
}
