//! Registrations of units.
use super::Step::{self, Next, Row, Sound, Stands};
use super::{FIRST, STAMP, assert_steps};
use land_core::kind::Kind;
use land_core::rrr::RightType::{Lease, Ownership};
use std::test::Fail;
use testlib_cases::asked::Right;
use testlib_cases::asked::RowAct::Register;

const SHARED: &[Right] = &[(2, Ownership, 1, 4), (3, Ownership, 3, 4), (4, Lease, 1, 1)];

const HALVES: &[Right] = &[(2, Ownership, 1, 2), (3, Ownership, 1, 2)];

/// Afterwards both units exist with all their parcels and rights, and the register is sound.
const WITH_ALL: &[Step] = &[
    Row(
        Register(true, 1, SHARED),
        STAMP,
        "done 6 made [5, 6, 7, 8, 9, 10] at 1000",
    ),
    Row(
        Register(true, 2, HALVES),
        STAMP,
        "done 12 made [11, 12, 13, 14, 15, 16] at 1000",
    ),
    Stands(Kind::Source, 5, true),
    Stands(Kind::Unit, 6, true),
    Stands(Kind::Parcel, 7, true),
    Stands(Kind::Rrr, 8, true),
    Stands(Kind::Rrr, 10, true),
    Stands(Kind::Rrr, 11, false),
    Stands(Kind::Parcel, 14, true),
    Stands(Kind::Rrr, 15, true),
    Next(17),
    Sound,
];

#[test]
fn a_unit_comes_with_its_source_parcels_and_rights(rt: HostRuntime) -> Result<(), Fail> {
    assert_steps(&rt, rt.alloc(), FIRST, WITH_ALL)
}

const PARTS: &[Right] = &[(2, Ownership, 1, 2), (3, Ownership, 1, 3)];

const LEASED: &[Right] = &[(2, Ownership, 1, 1), (3, Lease, 1, 2)];

const FINE: &[Right] = &[
    (2, Ownership, 1, 999_999_999),
    (3, Ownership, 1, 1_000_000_000),
];

const SHARES: &[Step] = &[
    Row(Register(true, 1, PARTS), STAMP, "refused 213"),
    Row(Register(true, 1, LEASED), None, "refused 213"),
    Row(Register(true, 1, FINE), None, "refused 207"),
    Row(Register(false, 1, FINE), None, "refused 217"),
    Row(
        Register(false, 1, PARTS),
        STAMP,
        "done 6 made [5, 6, 7, 8, 9] at 1000",
    ),
    Row(
        Register(false, 1, LEASED),
        STAMP,
        "done 11 made [10, 11, 12, 13, 14] at 1000",
    ),
];

#[test]
fn shares_of_each_type_are_whole_in_a_checked_unit(rt: HostRuntime) -> Result<(), Fail> {
    assert_steps(&rt, rt.alloc(), FIRST, SHARES)
}

const ABSENT: &[Right] = &[(2, Ownership, 1, 2), (9, Ownership, 1, 2)];

const TWICE: &[Right] = &[(2, Ownership, 1, 2), (2, Ownership, 1, 2)];

const BOTH: &[Right] = &[(2, Ownership, 1, 1), (2, Lease, 1, 1)];

const NO_OWNER: &[Right] = &[(2, Lease, 1, 1)];

const PARTIES: &[Step] = &[
    Row(Register(true, 1, ABSENT), None, "refused 205"),
    Row(Register(true, 1, TWICE), STAMP, "refused 219"),
    Row(Register(false, 1, TWICE), None, "refused 217"),
    Row(Register(true, 1, NO_OWNER), STAMP, "not well formed"),
    Row(Register(true, 0, HALVES), STAMP, "not well formed"),
    Row(
        Register(true, 1, BOTH),
        STAMP,
        "done 6 made [5, 6, 7, 8, 9] at 1000",
    ),
];

#[test]
fn parties_exist_and_have_one_right_of_a_type(rt: HostRuntime) -> Result<(), Fail> {
    assert_steps(&rt, rt.alloc(), FIRST, PARTIES)
}

const LAST_NUMBERS: &[Step] = &[
    Row(Register(true, 1, HALVES), STAMP, "refused 210"),
    Row(
        Register(true, 1, &[(2, Ownership, 1, 2), (3, Ownership, 1, 3)]),
        STAMP,
        "refused 210",
    ),
    Row(
        Register(true, 1, &[(2, Ownership, 1, 1)]),
        STAMP,
        "done 999999998 made [999999997, 999999998, 999999999, 1000000000] at 1000",
    ),
];

#[test]
fn the_last_numbers_are_given_and_none_after_them(rt: HostRuntime) -> Result<(), Fail> {
    assert_steps(&rt, rt.alloc(), 999_999_997, LAST_NUMBERS)
}
