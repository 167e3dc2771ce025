//! The garden and the orchard become one unit again.
use super::{ORCHARD_APPROVED, ORCHARD_LODGED, WHOLE};
use crate::conclusion::conclude;
use land_core::act::BurdenClass::Restriction;
use land_core::kind::Kind::{Mutation, Parcel, Rrr, Source, Unit};
use std::test::Fail;
use testlib_cases::asked::OFFICE;
use testlib_cases::asked::RowAct::{Approve, Burden, Lodge};
use testlib_cases::asked::RowAsk::{self, Do, List, Sheet, View};
use testlib_cases::lodged::RowContent::Merger;
use testlib_cases::lodged::RowParcel;
use testlib_cases::rows::Row;
use testlib_cases::steps::{BEN, NORA, SURVEYOR, play_with_sale};

/// The parcels of the garden and the orchard become one.
const JOINED: RowAsk = Do(Lodge(
    "G1",
    "Plan 2",
    Merger(9, &[25], &[24, 26], RowParcel("12", WHOLE)),
));

const JOINED_LODGED: Row = Row(1000, SURVEYOR, JOINED, "done 31 made [30, 31] at 1018");

const MERGED: &[Row] = &[
    ORCHARD_LODGED,
    ORCHARD_APPROVED,
    JOINED_LODGED,
    JOINED_LODGED,
    Row(1000, OFFICE, Do(Approve(31)), "done 31 made [32] at 1019"),
    JOINED_LODGED,
    Row(1000, NORA, View(Unit, 25, None), "denied 27"),
    Row(
        1000,
        NORA,
        View(Unit, 25, Some(1018)),
        "unit 25 Orchard true",
    ),
    Row(1000, NORA, List(Unit, None), "numbers [9]"),
    Row(1000, NORA, List(Parcel, None), "numbers [32]"),
    Row(1000, NORA, List(Rrr, None), "numbers [13, 16, 21]"),
    Row(
        1000,
        NORA,
        List(Source, None),
        "numbers [8, 14, 17, 19, 22, 30]",
    ),
    Row(
        1000,
        NORA,
        View(Parcel, 32, None),
        "parcel 32 in 9: 12 of 200000000 from 30: POLYGON ((0 0, 10000 0, 10000 10000, 0 10000, 0 0))",
    ),
    Row(
        1000,
        NORA,
        View(Source, 30, None),
        "source 30 Spatial Plan 2",
    ),
    Row(1000, BEN, View(Unit, 25, None), "denied 11"),
    Row(
        1000,
        BEN,
        Sheet(9, None),
        "sheet 9 Garden at 1019: parcel 32 rrr 13 Sam rrr 16 Bank, \"North\" rrr 21 Ben",
    ),
    Row(
        1000,
        SURVEYOR,
        View(Mutation, 31, None),
        "mutation 31 G1 of 6 from 30 at 1018: Approved Merger [24, 26] in 9 and [25]: 12 POLYGON ((0 0, 10000 0, 10000 10000, 0 10000, 0 0))",
    ),
];

#[test]
fn parcels_become_one_and_the_other_unit_ends(rt: HostRuntime) -> Result<(), Fail> {
    conclude(&rt, play_with_sale(rt.alloc(), MERGED))
}

/// The orchard has an entry that the garden does not have.
const BURDENED: &[Row] = &[
    ORCHARD_LODGED,
    ORCHARD_APPROVED,
    Row(
        1000,
        OFFICE,
        Do(Burden(Restriction, 25, 1)),
        "done 31 made [30, 31] at 1018",
    ),
    Row(1000, SURVEYOR, JOINED, "done 33 made [32, 33] at 1019"),
    Row(1000, OFFICE, Do(Approve(33)), "refused 209"),
    Row(1000, NORA, List(Unit, None), "numbers [9, 25]"),
    Row(1000, NORA, List(Parcel, None), "numbers [24, 26]"),
];

#[test]
fn units_with_other_entries_stay_apart(rt: HostRuntime) -> Result<(), Fail> {
    conclude(&rt, play_with_sale(rt.alloc(), BURDENED))
}

/// Both have the same burden: their entries are equal, although the sources differ.
const BURDENED_ALIKE: &[Row] = &[
    ORCHARD_LODGED,
    ORCHARD_APPROVED,
    Row(
        1000,
        OFFICE,
        Do(Burden(Restriction, 25, 1)),
        "done 31 made [30, 31] at 1018",
    ),
    Row(
        1000,
        OFFICE,
        Do(Burden(Restriction, 9, 1)),
        "done 33 made [32, 33] at 1019",
    ),
    Row(1000, SURVEYOR, JOINED, "done 35 made [34, 35] at 1020"),
    Row(1000, OFFICE, Do(Approve(35)), "done 35 made [36] at 1021"),
    Row(1000, NORA, List(Rrr, None), "numbers [13, 16, 21, 33]"),
];

#[test]
fn units_with_the_same_entries_become_one(rt: HostRuntime) -> Result<(), Fail> {
    conclude(&rt, play_with_sale(rt.alloc(), BURDENED_ALIKE))
}
