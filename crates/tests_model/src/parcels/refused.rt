//! Subdivisions and mergers that are denied or refused.
use super::{FIRST, LEFT, ORCHARD, ORCHARD_LODGED, RIGHT, WHOLE};
use crate::conclusion::conclude;
use land_core::kind::Kind::Parcel;
use std::test::Fail;
use testlib_cases::asked::OFFICE;
use testlib_cases::asked::RowAct::{Approve, Lodge};
use testlib_cases::asked::RowAsk::{Do, View};
use testlib_cases::lodged::RowContent::{Merger, Subdivision};
use testlib_cases::lodged::{RowParcel, RowPart};
use testlib_cases::rows::Row;
use testlib_cases::steps::{NORA, SURVEYOR, play_with_sale};

/// The right half with a tip: one square millimetre more.
const DENTED: &str =
    "POLYGON ((5000 0, 10000 0, 10000 10000, 9999 10001, 9998 10000, 5000 10000, 5000 0))";

/// A part with the area of the right half that reaches beyond the garden, and leaves out a strip of it.
const BESIDE: &str = "POLYGON ((6000 0, 11000 0, 11000 10000, 6000 10000, 6000 0))";

const GROUNDS: &[Row] = &[
    Row(
        1000,
        SURVEYOR,
        Do(Lodge(
            "S1",
            "Plan 1",
            Subdivision(9, 10, FIRST, &[RowPart("12b", DENTED, Some("Orchard"))]),
        )),
        "done 23 made [22, 23] at 1016",
    ),
    Row(1000, OFFICE, Do(Approve(23)), "refused 220"),
    Row(
        1000,
        SURVEYOR,
        Do(Lodge(
            "S2",
            "Plan 1",
            Subdivision(
                9,
                10,
                FIRST,
                &[RowPart(
                    "12b",
                    "POLYGON ((5001 0, 10000 0, 10000 10000, 5001 10000, 5001 0))",
                    None,
                )],
            ),
        )),
        "done 25 made [24, 25] at 1017",
    ),
    Row(1000, OFFICE, Do(Approve(25)), "refused 220"),
    Row(
        1000,
        SURVEYOR,
        Do(Lodge(
            "S3",
            "Plan 1",
            Subdivision(9, 10, FIRST, &[RowPart("12b", BESIDE, Some("Orchard"))]),
        )),
        "done 27 made [26, 27] at 1018",
    ),
    Row(1000, OFFICE, Do(Approve(27)), "refused 220"),
    Row(
        1000,
        SURVEYOR,
        Do(Lodge(
            "S4",
            "Plan 1",
            Subdivision(9, 10, FIRST, &[RowPart("12b", LEFT, None)]),
        )),
        "done 29 made [28, 29] at 1019",
    ),
    Row(1000, OFFICE, Do(Approve(29)), "refused 220"),
    Row(
        1000,
        NORA,
        View(Parcel, 10, None),
        "parcel 10 in 9: 12 of 200000000 from 8: POLYGON ((0 0, 10000 0, 10000 10000, 0 10000, 0 0))",
    ),
];

#[test]
fn parts_are_the_ground_of_the_parcel(rt: HostRuntime) -> Result<(), Fail> {
    conclude(&rt, play_with_sale(rt.alloc(), GROUNDS))
}

/// Only surveyors lodge these contents. A lodging does not read the objects to which it refers, and its
/// approval does.
const NAMED: &[Row] = &[
    Row(1000, NORA, ORCHARD, "denied 6"),
    Row(1000, OFFICE, ORCHARD, "denied 6"),
    Row(
        1000,
        NORA,
        Do(Lodge(
            "G1",
            "Plan 2",
            Merger(9, &[25], &[24, 26], RowParcel("12", WHOLE)),
        )),
        "denied 6",
    ),
    Row(
        1000,
        SURVEYOR,
        Do(Lodge(
            "S1",
            "Plan 1",
            Subdivision(8, 10, FIRST, &[RowPart("12b", RIGHT, None)]),
        )),
        "done 23 made [22, 23] at 1016",
    ),
    Row(1000, OFFICE, Do(Approve(23)), "refused 202"),
    Row(
        1000,
        SURVEYOR,
        Do(Lodge(
            "S2",
            "Plan 1",
            Subdivision(9, 11, FIRST, &[RowPart("12b", RIGHT, None)]),
        )),
        "done 25 made [24, 25] at 1017",
    ),
    Row(1000, OFFICE, Do(Approve(25)), "refused 203"),
    Row(
        1000,
        SURVEYOR,
        Do(Lodge(
            "G1",
            "Plan 2",
            Merger(9, &[8], &[10, 24], RowParcel("12", WHOLE)),
        )),
        "done 27 made [26, 27] at 1018",
    ),
    Row(1000, OFFICE, Do(Approve(27)), "refused 202"),
    Row(
        1000,
        SURVEYOR,
        Do(Lodge(
            "G2",
            "Plan 2",
            Merger(9, &[], &[10, 24], RowParcel("12", WHOLE)),
        )),
        "done 29 made [28, 29] at 1019",
    ),
    Row(1000, OFFICE, Do(Approve(29)), "refused 203"),
];

#[test]
fn referenced_objects_exist_at_approval(rt: HostRuntime) -> Result<(), Fail> {
    conclude(&rt, play_with_sale(rt.alloc(), NAMED))
}

/// The right half of the garden is cut into quarters, and the outer one goes to the orchard. A parcel that
/// the orchard would keep is reported before the ground is checked: refusal 220 implies that the units can be
/// merged.
const KEPT: &[Row] = &[
    Row(
        1000,
        SURVEYOR,
        Do(Lodge(
            "S1",
            "Plan 1",
            Subdivision(
                9,
                10,
                FIRST,
                &[
                    RowPart(
                        "12b",
                        "POLYGON ((7500 0, 10000 0, 10000 10000, 7500 10000, 7500 0))",
                        Some("Orchard"),
                    ),
                    RowPart(
                        "12c",
                        "POLYGON ((5000 0, 7500 0, 7500 10000, 5000 10000, 5000 0))",
                        None,
                    ),
                ],
            ),
        )),
        "done 23 made [22, 23] at 1016",
    ),
    Row(
        1000,
        OFFICE,
        Do(Approve(23)),
        "done 23 made [24, 25, 26, 27, 28, 29, 30] at 1017",
    ),
    Row(
        1000,
        SURVEYOR,
        Do(Lodge(
            "G1",
            "Plan 2",
            Merger(9, &[25], &[24, 30], RowParcel("12", LEFT)),
        )),
        "done 32 made [31, 32] at 1018",
    ),
    Row(1000, OFFICE, Do(Approve(32)), "refused 209"),
    Row(
        1000,
        SURVEYOR,
        Do(Lodge(
            "G2",
            "Plan 2",
            Merger(
                9,
                &[25],
                &[24, 30],
                RowParcel("12", "POLYGON ((0 0, 7500 0, 7500 10000, 0 10000, 0 0))"),
            ),
        )),
        "done 34 made [33, 34] at 1019",
    ),
    Row(1000, OFFICE, Do(Approve(34)), "refused 209"),
    Row(
        1000,
        SURVEYOR,
        Do(Lodge(
            "G3",
            "Plan 2",
            Merger(
                9,
                &[],
                &[24, 30],
                RowParcel("12", "POLYGON ((0 0, 10000 0, 10000 7500, 0 7500, 0 0))"),
            ),
        )),
        "done 36 made [35, 36] at 1020",
    ),
    Row(1000, OFFICE, Do(Approve(36)), "refused 220"),
    Row(
        1000,
        SURVEYOR,
        Do(Lodge(
            "G4",
            "Plan 2",
            Merger(
                9,
                &[],
                &[24, 30],
                RowParcel("12", "POLYGON ((0 0, 7500 0, 7500 10000, 0 10000, 0 0))"),
            ),
        )),
        "done 38 made [37, 38] at 1021",
    ),
    Row(1000, OFFICE, Do(Approve(38)), "done 38 made [39] at 1022"),
    Row(
        1000,
        SURVEYOR,
        Do(Lodge(
            "G5",
            "Plan 2",
            Merger(9, &[25], &[26, 39], RowParcel("12", WHOLE)),
        )),
        "done 41 made [40, 41] at 1023",
    ),
    Row(1000, OFFICE, Do(Approve(41)), "done 41 made [42] at 1024"),
];

#[test]
fn a_unit_that_ends_has_no_other_parcel(rt: HostRuntime) -> Result<(), Fail> {
    conclude(&rt, play_with_sale(rt.alloc(), KEPT))
}

/// A parcel is cut once, and a merger is approved once.
const ONCE: &[Row] = &[
    ORCHARD_LODGED,
    Row(
        1000,
        SURVEYOR,
        Do(Lodge(
            "S2",
            "Plan 1",
            Subdivision(9, 10, FIRST, &[RowPart("12b", RIGHT, None)]),
        )),
        "done 25 made [24, 25] at 1017",
    ),
    Row(
        1000,
        OFFICE,
        Do(Approve(23)),
        "done 23 made [26, 27, 28, 29, 30, 31] at 1018",
    ),
    Row(1000, OFFICE, Do(Approve(23)), "refused 201"),
    Row(1000, OFFICE, Do(Approve(25)), "refused 203"),
];

#[test]
fn a_parcel_is_cut_once(rt: HostRuntime) -> Result<(), Fail> {
    conclude(&rt, play_with_sale(rt.alloc(), ONCE))
}
