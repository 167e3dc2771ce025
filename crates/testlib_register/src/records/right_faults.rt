//! Each fault of rights and mortgages, and the nearest valid cases.
use super::garden::{ANNA, BEN, DEED, GARDEN, ORCHARD, SAM};
use super::{Case, Part, WITH_TWO_UNITS, expect_faults, fault_of};
use crate::facts::facts::{Fact, Held, Right};
use land_core::rrr::RightType::{Lease, Ownership, Usufruct};
use land_core::soundness::Unsound;
use std::alloc::{AllocError, Global};
use testlib_cases::stop::{Stop, expect};

/// Returns rights of the garden, with the numbers from 16 on, and the next number.
fn rights_of(alloc: Global, rights: &[Right]) -> Result<Vec<Fact>, AllocError> {
    let mut facts = Vec::new(alloc);
    let mut next = 16;
    for (party, right_type, n, d) in rights {
        let right = Held::Right(*right_type, *n, *d);
        facts.push(Fact::Rrr(next, GARDEN, *party, DEED, right))?;
        next = next.saturating_add(1);
    }
    facts.push(Fact::Next(next))?;
    Ok(facts)
}

const CHECKED_BARE: &[Part] = &[Part::Persons, Part::Garden, Part::WithoutRights];

const UNCHECKED_BARE: &[Part] = &[
    Part::Persons,
    Part::Garden,
    Part::WithoutRights,
    Part::Unchecked,
];

/// Returns the fault of the garden with only these rights.
fn held(alloc: Global, base: &[Part], rights: &[Right]) -> Result<Option<Unsound>, Stop> {
    let facts = rights_of(alloc, rights)?;
    fault_of(alloc, base, facts.as_slice())
}

/// Rights, and the faults of the garden if its shares are checked and if they are not.
struct Holding(&'static [Right], Option<Unsound>, Option<Unsound>);

/// Checks if the garden has the faults of its rights, checked and unchecked.
fn has_faults(alloc: Global, it: &Holding) -> Result<bool, Stop> {
    let checked = held(alloc, CHECKED_BARE, it.0)?;
    Ok(checked == it.1 && held(alloc, UNCHECKED_BARE, it.0)? == it.2)
}

fn expect_held(alloc: Global, holdings: &[Holding]) -> Result<(), Stop> {
    for (place, it) in holdings.iter().enumerate() {
        expect(has_faults(alloc, it)?, "row", place)?;
    }
    Ok(())
}

const HALVES: &[Right] = &[(ANNA, Ownership, 1, 2), (BEN, Ownership, 1, 2)];

const HALF_AND_THIRD: &[Right] = &[(ANNA, Ownership, 1, 2), (BEN, Ownership, 1, 3)];

const TOO_MUCH: &[Right] = &[(ANNA, Ownership, 1, 1), (BEN, Ownership, 1, 3)];

const TOO_FINE: &[Right] = &[
    (ANNA, Ownership, 1, 3),
    (BEN, Ownership, 1, 3),
    (SAM, Ownership, 333_333_333, 1_000_000_000),
];

const LEASED_IN_PART: &[Right] = &[(ANNA, Ownership, 1, 1), (BEN, Lease, 1, 2)];

const USED_IN_PART: &[Right] = &[(ANNA, Ownership, 1, 1), (BEN, Usufruct, 1, 2)];

const OF_TWO_TYPES: &[Right] = &[(ANNA, Ownership, 1, 2), (BEN, Lease, 1, 2)];

const ALL_OF_ANNA: &[Right] = &[
    (ANNA, Ownership, 1, 1),
    (ANNA, Lease, 1, 1),
    (ANNA, Usufruct, 1, 1),
];

const SHARES: Option<Unsound> = Some(Unsound::Shares);

const WHOLES: &[Holding] = &[
    Holding(HALVES, None, None),
    Holding(ALL_OF_ANNA, None, None),
    Holding(HALF_AND_THIRD, SHARES, None),
    Holding(TOO_MUCH, SHARES, None),
    Holding(TOO_FINE, SHARES, None),
    Holding(LEASED_IN_PART, SHARES, None),
    Holding(USED_IN_PART, SHARES, None),
    Holding(OF_TWO_TYPES, SHARES, None),
];

/// Checks that the shares in a checked unit sum to 1.
pub fn shares_make_a_whole_in_a_checked_unit(alloc: Global) -> Result<(), Stop> {
    expect_held(alloc, WHOLES)
}

const OWNED_TWICE: &[Right] = &[(ANNA, Ownership, 1, 2), (ANNA, Ownership, 1, 2)];

const LEASED_TWICE: &[Right] = &[
    (ANNA, Ownership, 1, 1),
    (BEN, Lease, 1, 2),
    (BEN, Lease, 1, 2),
];

const USED_TWICE: &[Right] = &[
    (BEN, Usufruct, 1, 2),
    (ANNA, Ownership, 1, 1),
    (BEN, Usufruct, 1, 2),
];

const LEASED_BY_TWO: &[Right] = &[
    (ANNA, Ownership, 1, 1),
    (BEN, Lease, 1, 2),
    (SAM, Lease, 1, 2),
];

const TWICE: Option<Unsound> = Some(Unsound::Twice);

const TYPES: &[Holding] = &[
    Holding(OWNED_TWICE, TWICE, TWICE),
    Holding(LEASED_TWICE, TWICE, TWICE),
    Holding(USED_TWICE, TWICE, TWICE),
    Holding(LEASED_BY_TWO, None, None),
    Holding(ALL_OF_ANNA, None, None),
];

/// Checks that a party has one right of a type.
pub fn a_party_has_one_right_of_a_type(alloc: Global) -> Result<(), Stop> {
    expect_held(alloc, TYPES)
}

const TWO_UNITS: &[Case] = &[Case(
    &[
        Fact::Rrr(17, ORCHARD, SAM, DEED, Held::Right(Lease, 1, 1)),
        Fact::Next(20),
    ],
    None,
)];

/// Checks that a party has rights of one type in two units.
pub fn a_party_has_rights_of_one_type_in_two_units(alloc: Global) -> Result<(), Stop> {
    expect_faults(alloc, WITH_TWO_UNITS, TWO_UNITS)
}

const RANK: Option<Unsound> = Some(Unsound::Rank);

const RANKS: &[Case] = &[
    Case(
        &[Fact::Rrr(17, GARDEN, BEN, DEED, Held::Mortgage(1))],
        TWICE,
    ),
    Case(&[Fact::Rrr(17, GARDEN, BEN, DEED, Held::Mortgage(2))], None),
    Case(
        &[Fact::Rrr(17, ORCHARD, BEN, DEED, Held::Mortgage(1))],
        None,
    ),
    Case(&[Fact::Rrr(17, GARDEN, BEN, DEED, Held::Mortgage(0))], RANK),
    Case(
        &[Fact::Rrr(17, ORCHARD, BEN, DEED, Held::Mortgage(0))],
        RANK,
    ),
    Case(
        &[Fact::Rrr(17, GARDEN, BEN, DEED, Held::Mortgage(19))],
        None,
    ),
    Case(
        &[Fact::Rrr(17, GARDEN, BEN, DEED, Held::Mortgage(20))],
        RANK,
    ),
];

const UP_TO_20: &[Part] = &[Part::Persons, Part::Garden, Part::Orchard, Part::Next20];

/// Checks that the mortgages of a unit have different ranks.
pub fn mortgages_of_a_unit_have_ranks_of_their_own(alloc: Global) -> Result<(), Stop> {
    expect_faults(alloc, UP_TO_20, RANKS)
}
