//! The garden is cut into parts.
use super::{FIRST, LEFT, ORCHARD_APPROVED, ORCHARD_LODGED, RIGHT};
use crate::conclusion::conclude;
use land_core::kind::Kind::{Mutation, Parcel, Rrr, Source, Unit};
use std::test::Fail;
use testlib_cases::asked::OFFICE;
use testlib_cases::asked::RowAct::{Approve, Lodge};
use testlib_cases::asked::RowAsk::{self, Do, List, Sheet, View};
use testlib_cases::lodged::RowContent::Subdivision;
use testlib_cases::lodged::RowPart;
use testlib_cases::rows::Row;
use testlib_cases::steps::{BEN, NORA, SAM, SURVEYOR, play_with_sale};

/// The parcel, the unit and the entries of the orchard get the next numbers in this order; the first part
/// stays in the garden.
const CUT: &[Row] = &[
    ORCHARD_LODGED,
    ORCHARD_LODGED,
    Row(
        1000,
        NORA,
        View(Source, 22, None),
        "source 22 Spatial Plan 1",
    ),
    Row(
        1000,
        NORA,
        View(Parcel, 10, None),
        "parcel 10 in 9: 12 of 200000000 from 8: POLYGON ((0 0, 10000 0, 10000 10000, 0 10000, 0 0))",
    ),
    ORCHARD_APPROVED,
    ORCHARD_LODGED,
    Row(1000, NORA, View(Parcel, 10, None), "denied 27"),
    Row(
        1000,
        NORA,
        View(Parcel, 24, None),
        "parcel 24 in 9: 12a of 100000000 from 22: POLYGON ((0 0, 5000 0, 5000 10000, 0 10000, 0 0))",
    ),
    Row(1000, NORA, View(Unit, 25, None), "unit 25 Orchard true"),
    Row(
        1000,
        NORA,
        View(Parcel, 26, None),
        "parcel 26 in 25: 12b of 100000000 from 22: POLYGON ((5000 0, 10000 0, 10000 10000, 5000 10000, 5000 0))",
    ),
    Row(
        1000,
        NORA,
        View(Rrr, 27, None),
        "rrr 27 in 25 of 6: Lease 1/1 from 8",
    ),
    Row(
        1000,
        NORA,
        View(Rrr, 28, None),
        "rrr 28 in 25 of 4: Mortgage 2500000 EUR of rank 1 from 14",
    ),
    Row(
        1000,
        NORA,
        View(Rrr, 29, None),
        "rrr 29 in 25 of 3: Ownership 1/1 from 19",
    ),
    Row(
        1000,
        NORA,
        List(Rrr, None),
        "numbers [13, 16, 21, 27, 28, 29]",
    ),
];

#[test]
fn a_parcel_is_cut_and_a_part_goes_to_a_new_unit(rt: HostRuntime) -> Result<(), Fail> {
    conclude(&rt, play_with_sale(rt.alloc(), CUT))
}

const SEEN: &[Row] = &[
    ORCHARD_LODGED,
    ORCHARD_APPROVED,
    Row(1000, BEN, List(Unit, None), "numbers [9, 25]"),
    Row(1000, SAM, List(Unit, None), "numbers [9, 25]"),
    Row(1000, SAM, List(Rrr, None), "numbers [13, 21, 27, 29]"),
    Row(
        1000,
        BEN,
        Sheet(25, None),
        "sheet 25 Orchard at 1017: parcel 26 rrr 27 Sam rrr 28 Bank, \"North\" rrr 29 Ben",
    ),
    Row(
        1000,
        BEN,
        Sheet(9, Some(1016)),
        "sheet 9 Garden at 1016: parcel 10 rrr 13 Sam rrr 16 Bank, \"North\" rrr 21 Ben",
    ),
    Row(
        1000,
        SURVEYOR,
        View(Mutation, 23, None),
        "mutation 23 S1 of 6 from 22 at 1016: Approved Subdivision 10 in 9: 12a POLYGON ((0 0, 5000 0, 5000 10000, 0 10000, 0 0)) 12b POLYGON ((5000 0, 10000 0, 10000 10000, 5000 10000, 5000 0)) in Orchard",
    ),
];

#[test]
fn holders_see_the_parts_of_a_parcel(rt: HostRuntime) -> Result<(), Fail> {
    conclude(&rt, play_with_sale(rt.alloc(), SEEN))
}

/// The right half is cut again, and each quarter becomes a unit of its own.
const QUARTERS: RowAsk = Do(Lodge(
    "S1",
    "Plan 1",
    Subdivision(
        9,
        10,
        FIRST,
        &[
            RowPart(
                "12b",
                "POLYGON ((5000 0, 7500 0, 7500 10000, 5000 10000, 5000 0))",
                Some("Orchard"),
            ),
            RowPart(
                "12c",
                "POLYGON ((7500 0, 10000 0, 10000 10000, 7500 10000, 7500 0))",
                Some("Meadow"),
            ),
        ],
    ),
));

const TWO_UNITS: &[Row] = &[
    Row(1000, SURVEYOR, QUARTERS, "done 23 made [22, 23] at 1016"),
    Row(
        1000,
        OFFICE,
        Do(Approve(23)),
        "done 23 made [24, 25, 26, 27, 28, 29, 30, 31, 32, 33, 34] at 1017",
    ),
    Row(
        1000,
        NORA,
        View(Parcel, 24, None),
        "parcel 24 in 9: 12a of 100000000 from 22: POLYGON ((0 0, 5000 0, 5000 10000, 0 10000, 0 0))",
    ),
    Row(1000, NORA, View(Unit, 25, None), "unit 25 Orchard true"),
    Row(
        1000,
        NORA,
        View(Parcel, 26, None),
        "parcel 26 in 25: 12b of 50000000 from 22: POLYGON ((5000 0, 7500 0, 7500 10000, 5000 10000, 5000 0))",
    ),
    Row(1000, NORA, View(Unit, 30, None), "unit 30 Meadow true"),
    Row(
        1000,
        NORA,
        View(Parcel, 31, None),
        "parcel 31 in 30: 12c of 50000000 from 22: POLYGON ((7500 0, 10000 0, 10000 10000, 7500 10000, 7500 0))",
    ),
    Row(
        1000,
        NORA,
        View(Rrr, 32, None),
        "rrr 32 in 30 of 6: Lease 1/1 from 8",
    ),
    Row(
        1000,
        NORA,
        View(Rrr, 33, None),
        "rrr 33 in 30 of 4: Mortgage 2500000 EUR of rank 1 from 14",
    ),
    Row(
        1000,
        NORA,
        View(Rrr, 34, None),
        "rrr 34 in 30 of 3: Ownership 1/1 from 19",
    ),
    Row(
        1000,
        NORA,
        List(Rrr, None),
        "numbers [13, 16, 21, 27, 28, 29, 32, 33, 34]",
    ),
];

#[test]
fn parts_go_to_two_new_units(rt: HostRuntime) -> Result<(), Fail> {
    conclude(&rt, play_with_sale(rt.alloc(), TWO_UNITS))
}

/// Both halves stay in the garden.
const HALVES: RowAsk = Do(Lodge(
    "S1",
    "Plan 1",
    Subdivision(9, 10, FIRST, &[RowPart("12b", RIGHT, None)]),
));

const ONE_UNIT: &[Row] = &[
    Row(1000, SURVEYOR, HALVES, "done 23 made [22, 23] at 1016"),
    Row(
        1000,
        OFFICE,
        Do(Approve(23)),
        "done 23 made [24, 25] at 1017",
    ),
    Row(
        1000,
        NORA,
        View(Parcel, 25, None),
        "parcel 25 in 9: 12b of 100000000 from 22: POLYGON ((5000 0, 10000 0, 10000 10000, 5000 10000, 5000 0))",
    ),
    Row(
        1000,
        NORA,
        Sheet(9, None),
        "sheet 9 Garden at 1017: parcel 24 parcel 25 rrr 13 Sam rrr 16 Bank, \"North\" rrr 21 Ben",
    ),
    Row(1000, NORA, List(Unit, None), "numbers [9]"),
];

#[test]
fn parts_stay_in_the_unit(rt: HostRuntime) -> Result<(), Fail> {
    conclude(&rt, play_with_sale(rt.alloc(), ONE_UNIT))
}

/// The right half is cut across: the corners of the quarters lie within an edge of the first part.
const THREE: RowAsk = Do(Lodge(
    "S1",
    "Plan 1",
    Subdivision(
        9,
        10,
        FIRST,
        &[
            RowPart(
                "12b",
                "POLYGON ((5000 0, 10000 0, 10000 5000, 5000 5000, 5000 0))",
                None,
            ),
            RowPart(
                "12c",
                "POLYGON ((5000 5000, 10000 5000, 10000 10000, 5000 10000, 5000 5000))",
                None,
            ),
        ],
    ),
));

const CUT_ACROSS: &[Row] = &[
    Row(1000, SURVEYOR, THREE, "done 23 made [22, 23] at 1016"),
    Row(
        1000,
        OFFICE,
        Do(Approve(23)),
        "done 23 made [24, 25, 26] at 1017",
    ),
    Row(
        1000,
        NORA,
        View(Parcel, 26, None),
        "parcel 26 in 9: 12c of 50000000 from 22: POLYGON ((5000 5000, 10000 5000, 10000 10000, 5000 10000, 5000 5000))",
    ),
    Row(1000, NORA, List(Parcel, None), "numbers [24, 25, 26]"),
    Row(1000, NORA, List(Unit, None), "numbers [9]"),
];

#[test]
fn a_corner_may_lie_within_an_edge(rt: HostRuntime) -> Result<(), Fail> {
    conclude(&rt, play_with_sale(rt.alloc(), CUT_ACROSS))
}

/// The plan again: with the outline written differently, starting at another point, without the orchard, and
/// with one more part.
const REPEATS: &[Row] = &[
    ORCHARD_LODGED,
    Row(
        1000,
        SURVEYOR,
        Do(Lodge(
            "S1",
            "Plan 1",
            Subdivision(
                9,
                10,
                FIRST,
                &[RowPart(
                    "12b",
                    "polygon((5000.0 0,5000 10000,10000 10000,10000 0,5000 0))",
                    Some("Orchard"),
                )],
            ),
        )),
        "done 23 made [22, 23] at 1016",
    ),
    Row(
        1000,
        SURVEYOR,
        Do(Lodge(
            "S1",
            "Plan 1",
            Subdivision(
                9,
                10,
                FIRST,
                &[RowPart(
                    "12b",
                    "POLYGON ((10000 0, 10000 10000, 5000 10000, 5000 0, 10000 0))",
                    Some("Orchard"),
                )],
            ),
        )),
        "refused 214",
    ),
    Row(
        1000,
        SURVEYOR,
        Do(Lodge(
            "S1",
            "Plan 1",
            Subdivision(9, 10, FIRST, &[RowPart("12b", RIGHT, None)]),
        )),
        "refused 214",
    ),
    Row(
        1000,
        SURVEYOR,
        Do(Lodge(
            "S1",
            "Plan 1",
            Subdivision(
                9,
                10,
                FIRST,
                &[
                    RowPart("12b", RIGHT, Some("Orchard")),
                    RowPart("12c", LEFT, None),
                ],
            ),
        )),
        "refused 214",
    ),
    Row(
        1000,
        NORA,
        List(Source, None),
        "numbers [8, 14, 17, 19, 22]",
    ),
    Row(
        1000,
        NORA,
        View(Parcel, 10, None),
        "parcel 10 in 9: 12 of 200000000 from 8: POLYGON ((0 0, 10000 0, 10000 10000, 0 10000, 0 0))",
    ),
];

#[test]
fn a_plan_is_a_repeat_if_its_rings_are_the_same(rt: HostRuntime) -> Result<(), Fail> {
    conclude(&rt, play_with_sale(rt.alloc(), REPEATS))
}
