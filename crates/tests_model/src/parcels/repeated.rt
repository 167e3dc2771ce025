//! Subdivisions and mergers that are repeated: unchanged, and with another content under the reference.
use super::{FIRST, LEFT, ORCHARD_APPROVED, ORCHARD_LODGED, RIGHT, WHOLE};
use crate::conclusion::conclude;
use std::test::Fail;
use testlib_cases::asked::RowAct::Lodge;
use testlib_cases::asked::RowAsk::{self, Do};
use testlib_cases::lodged::RowContent::{Merger, Subdivision};
use testlib_cases::lodged::{RowParcel, RowPart};
use testlib_cases::rows::Row;
use testlib_cases::steps::{SURVEYOR, play_with_sale};

/// The right half from the same point in the opposite direction: the same outline.
const TURNED: &[RowPart] = &[RowPart(
    "12b",
    "POLYGON ((5000 0, 5000 10000, 10000 10000, 10000 0, 5000 0))",
    Some("Orchard"),
)];

/// The right half starting at another point: a different outline.
const BEGUN_ABOVE: &[RowPart] = &[RowPart(
    "12b",
    "POLYGON ((10000 10000, 5000 10000, 5000 0, 10000 0, 10000 10000))",
    Some("Orchard"),
)];

const LABELLED: &[RowPart] = &[RowPart("12c", RIGHT, Some("Orchard"))];

const NAMED: &[RowPart] = &[RowPart("12b", RIGHT, Some("Meadow"))];

const STAYING: &[RowPart] = &[RowPart("12b", RIGHT, None)];

const TWICE: &[RowPart] = &[
    RowPart("12b", RIGHT, Some("Orchard")),
    RowPart("12b", RIGHT, Some("Orchard")),
];

const ORCHARD: &[RowPart] = &[RowPart("12b", RIGHT, Some("Orchard"))];

const CUT_TURNED: RowAsk = Do(Lodge("S1", "Plan 1", Subdivision(9, 10, FIRST, TURNED)));

const CUT_ABOVE: RowAsk = Do(Lodge("S1", "Plan 1", Subdivision(9, 10, FIRST, BEGUN_ABOVE)));

const CUT_LABELLED: RowAsk = Do(Lodge("S1", "Plan 1", Subdivision(9, 10, FIRST, LABELLED)));

const CUT_NAMED: RowAsk = Do(Lodge("S1", "Plan 1", Subdivision(9, 10, FIRST, NAMED)));

const CUT_STAYING: RowAsk = Do(Lodge("S1", "Plan 1", Subdivision(9, 10, FIRST, STAYING)));

const CUT_TWICE: RowAsk = Do(Lodge("S1", "Plan 1", Subdivision(9, 10, FIRST, TWICE)));

const FIRST_LABELLED: RowAsk = Do(Lodge(
    "S1",
    "Plan 1",
    Subdivision(9, 10, RowParcel("12x", LEFT), ORCHARD),
));

const SUBDIVISIONS: &[Row] = &[
    ORCHARD_LODGED,
    Row(1000, SURVEYOR, CUT_TURNED, "done 23 made [22, 23] at 1016"),
    Row(1000, SURVEYOR, CUT_ABOVE, "refused 214"),
    Row(1000, SURVEYOR, CUT_LABELLED, "refused 214"),
    Row(1000, SURVEYOR, CUT_NAMED, "refused 214"),
    Row(1000, SURVEYOR, CUT_STAYING, "refused 214"),
    Row(1000, SURVEYOR, CUT_TWICE, "refused 214"),
    Row(1000, SURVEYOR, FIRST_LABELLED, "refused 214"),
];

#[test]
fn a_repeated_subdivision_gets_its_receipt_and_no_other_does(rt: HostRuntime) -> Result<(), Fail> {
    conclude(&rt, play_with_sale(rt.alloc(), SUBDIVISIONS))
}

const JOINED: RowAsk = Do(Lodge(
    "G1",
    "Plan 2",
    Merger(9, &[25], &[24, 26], RowParcel("12", WHOLE)),
));

const JOINED_ALONE: RowAsk = Do(Lodge(
    "G1",
    "Plan 2",
    Merger(9, &[], &[24, 26], RowParcel("12", WHOLE)),
));

const JOINED_WITH_MORE: RowAsk = Do(Lodge(
    "G1",
    "Plan 2",
    Merger(9, &[25, 77], &[24, 26], RowParcel("12", WHOLE)),
));

const JOINED_OTHERS: RowAsk = Do(Lodge(
    "G1",
    "Plan 2",
    Merger(9, &[25], &[24, 27], RowParcel("12", WHOLE)),
));

const JOINED_LABELLED: RowAsk = Do(Lodge(
    "G1",
    "Plan 2",
    Merger(9, &[25], &[24, 26], RowParcel("13", WHOLE)),
));

const MERGERS: &[Row] = &[
    ORCHARD_LODGED,
    ORCHARD_APPROVED,
    Row(1000, SURVEYOR, JOINED, "done 31 made [30, 31] at 1018"),
    Row(1000, SURVEYOR, JOINED, "done 31 made [30, 31] at 1018"),
    Row(1000, SURVEYOR, JOINED_ALONE, "refused 214"),
    Row(1000, SURVEYOR, JOINED_WITH_MORE, "refused 214"),
    Row(1000, SURVEYOR, JOINED_OTHERS, "refused 214"),
    Row(1000, SURVEYOR, JOINED_LABELLED, "refused 214"),
];

#[test]
fn a_repeated_merger_gets_its_receipt_and_no_other_does(rt: HostRuntime) -> Result<(), Fail> {
    conclude(&rt, play_with_sale(rt.alloc(), MERGERS))
}
