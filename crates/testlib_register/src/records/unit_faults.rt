//! Each fault of units, parcels and sources, and the nearest valid cases.
use super::garden::{
    ALL, ANNA, ANNAS, BEN, BENS, DEED, GARDEN, LAWN, LEASE, NOBODY, PATH, POND, SAM, WITH_ORCHARD,
};
use super::{Case, REFERENCE, WITH_GARDEN, WITH_TWO_UNITS, expect_faults};
use crate::facts::facts::{Fact, Held};
use land_core::kind::Kind;
use land_core::kind::PartyKind::NaturalPerson;
use land_core::soundness::Unsound;
use std::alloc::Global;
use testlib_cases::stop::Stop;

const PARCELS: &[Case] = &[
    Case(&[Fact::Parcel(POND, GARDEN, "12b", DEED)], None),
    Case(&[Fact::Parcel(POND, NOBODY, "12b", DEED)], REFERENCE),
    Case(&[Fact::Parcel(POND, LAWN, "12b", DEED)], REFERENCE),
    Case(&[Fact::Parcel(POND, GARDEN, "12b", NOBODY)], REFERENCE),
    Case(&[Fact::Parcel(POND, GARDEN, "12b", GARDEN)], REFERENCE),
];

/// Checks that parcels refer to objects that exist.
pub fn parcels_refer_to_existing_objects(alloc: Global) -> Result<(), Stop> {
    expect_faults(alloc, WITH_GARDEN, PARCELS)
}

const ENTRIES: &[Case] = &[
    Case(
        &[Fact::Rrr(PATH, GARDEN, SAM, DEED, Held::Restriction)],
        None,
    ),
    Case(
        &[Fact::Rrr(PATH, NOBODY, SAM, DEED, Held::Restriction)],
        REFERENCE,
    ),
    Case(
        &[Fact::Rrr(PATH, LAWN, SAM, DEED, Held::Restriction)],
        REFERENCE,
    ),
    Case(
        &[Fact::Rrr(PATH, GARDEN, NOBODY, DEED, Held::Restriction)],
        REFERENCE,
    ),
    Case(
        &[Fact::Rrr(PATH, GARDEN, GARDEN, DEED, Held::Restriction)],
        REFERENCE,
    ),
    Case(
        &[Fact::Rrr(PATH, GARDEN, SAM, NOBODY, Held::Restriction)],
        REFERENCE,
    ),
    Case(
        &[Fact::Rrr(PATH, GARDEN, SAM, LAWN, Held::Restriction)],
        REFERENCE,
    ),
];

/// Checks that entries refer to objects that exist.
pub fn entries_refer_to_existing_objects(alloc: Global) -> Result<(), Stop> {
    expect_faults(alloc, WITH_GARDEN, ENTRIES)
}

const NUMBERS: &[Case] = &[
    Case(
        &[Fact::Party(16, NaturalPerson, "Eva"), Fact::Next(17)],
        None,
    ),
    Case(
        &[Fact::Party(16, NaturalPerson, "Eva"), Fact::Next(16)],
        REFERENCE,
    ),
    Case(
        &[Fact::Party(0, NaturalPerson, "Eva"), Fact::Next(16)],
        REFERENCE,
    ),
    Case(
        &[Fact::Parcel(16, GARDEN, "13", DEED), Fact::Next(17)],
        None,
    ),
    Case(
        &[Fact::Parcel(16, GARDEN, "13", DEED), Fact::Next(16)],
        REFERENCE,
    ),
    Case(
        &[Fact::Parcel(0, GARDEN, "13", DEED), Fact::Next(16)],
        REFERENCE,
    ),
    Case(
        &[
            Fact::Rrr(16, GARDEN, SAM, DEED, Held::Restriction),
            Fact::Next(17),
        ],
        None,
    ),
    Case(
        &[
            Fact::Rrr(16, GARDEN, SAM, DEED, Held::Restriction),
            Fact::Next(16),
        ],
        REFERENCE,
    ),
    Case(
        &[
            Fact::Rrr(0, GARDEN, SAM, DEED, Held::Restriction),
            Fact::Next(16),
        ],
        REFERENCE,
    ),
    Case(&[Fact::Source(16), Fact::Next(17)], None),
    Case(&[Fact::Source(16), Fact::Next(16)], REFERENCE),
    Case(&[Fact::Source(0), Fact::Next(16)], REFERENCE),
];

/// Checks that numbers of each kind are below the next one.
pub fn numbers_of_each_kind_lie_below_the_next_one(alloc: Global) -> Result<(), Stop> {
    expect_faults(alloc, WITH_GARDEN, NUMBERS)
}

/// The orchard with the number 0.
const UNIT_ZERO: &[Fact] = &[
    Fact::Unit(0, "Orchard", true),
    Fact::Parcel(POND, 0, "12b", DEED),
    Fact::Rrr(ANNAS, 0, ANNA, DEED, ALL),
    Fact::Rrr(BENS, GARDEN, BEN, DEED, ALL),
];

const UNITS: &[Case] = &[Case(WITH_ORCHARD, None), Case(UNIT_ZERO, REFERENCE)];

const LATE_UNITS: &[Case] = &[Case(&[], None), Case(&[Fact::Next(16)], REFERENCE)];

/// Checks that numbers of units are below the next one.
pub fn numbers_of_units_lie_below_the_next_one(alloc: Global) -> Result<(), Stop> {
    expect_faults(alloc, WITH_GARDEN, UNITS)?;
    expect_faults(alloc, WITH_TWO_UNITS, LATE_UNITS)
}

const BARE: Option<Unsound> = Some(Unsound::Bare);

const LAWN_ENDS: Fact = Fact::Ended(Kind::Parcel, LAWN);

const POND_ENDS: Fact = Fact::Ended(Kind::Parcel, POND);

const LACKING: &[Case] = &[
    Case(&[], None),
    Case(&[POND_ENDS], None),
    Case(&[LAWN_ENDS, POND_ENDS], BARE),
    Case(&[Fact::Ended(Kind::Rrr, LEASE)], None),
    Case(
        &[Fact::Ended(Kind::Rrr, ANNAS), Fact::Ended(Kind::Rrr, BENS)],
        BARE,
    ),
];

/// Checks that a unit has a parcel and an owner.
pub fn a_unit_has_a_parcel_and_an_owner(alloc: Global) -> Result<(), Stop> {
    expect_faults(alloc, WITH_GARDEN, LACKING)
}

const BESIDE_ANOTHER: &[Case] = &[Case(&[], None), Case(&[LAWN_ENDS], BARE)];

/// Checks that parcels of another unit do not count.
pub fn parcels_of_another_unit_do_not_count(alloc: Global) -> Result<(), Stop> {
    expect_faults(alloc, WITH_TWO_UNITS, BESIDE_ANOTHER)
}
