//! The objects of a register.
use super::garden::{
    ANNA, ANNAS, BEN, DEED, GARDEN, HALF, HEDGE, LAWN, LEASE, LETTER, LOAN, LOAN_LODGED, NOBODY,
    PATH, POND, SAM, SHARE,
};
use super::{ANNA_A_THIRD, Part, WITH_ALL, WITH_GARDEN, register_with};
use crate::facts::facts::{Held, SQUARE, Share};
use crate::facts::lodged::{Lodged, MOMENT, is_asked};
use land_core::kind::Kind;
use land_core::kind::PartyKind::{self, Group, NaturalPerson, NonNaturalPerson};
use land_core::member::Member;
use land_core::mutation::Mutation;
use land_core::object::Object;
use land_core::parcel::Parcel;
use land_core::party::Party;
use land_core::register::Register;
use land_core::role::Role;
use land_core::rrr::RightType::{self, Lease};
use land_core::rrr::{Class, Rrr};
use land_core::source::{Source, SourceKind};
use land_core::unit::Unit;
use land_fraction::Fraction;
use std::alloc::{AllocError, Global};
use testlib_cases::stop::{Stop, expect};

/// The expected data of an object.
pub(super) enum Look {
    /// It does not exist.
    Nothing,
    /// A party's kind, name, members and roles.
    Party(PartyKind, &'static str, &'static [Share], &'static [Role]),
    /// A unit's name, and whether its shares are checked.
    Unit(&'static str, bool),
    /// A parcel's unit and label, its doubled area, its source and its outline.
    Parcel(u64, &'static str, u64, u64, &'static str),
    /// An entry's unit, party, source and class.
    Rrr(u64, u64, u64, Held),
    /// A source's kind and title.
    Source(SourceKind, &'static str),
    /// How a mutation was lodged.
    Mutation(Lodged),
}

/// A kind, a number, and the expected data.
pub(super) struct Shown(pub Kind, pub u64, pub Look);

fn are_members(members: &[Member], shares: &[Share]) -> bool {
    let mut rows = shares.iter();
    for member in members {
        let shown = (
            member.party,
            member.share.numerator(),
            member.share.denominator(),
        );
        if rows.next() != Some(&shown) {
            return false;
        }
    }
    members.len() == shares.len()
}

fn is_party(it: &Party, kind: PartyKind, name: &str, shares: &[Share], roles: &[Role]) -> bool {
    it.kind == kind
        && it.name.as_str() == name
        && it.roles.as_slice() == roles
        && are_members(it.members.as_slice(), shares)
}

fn is_unit(it: &Unit, name: &str, checked: bool) -> bool {
    it.name.as_str() == name && it.checked == checked
}

/// Checks if a parcel has this outline and doubled area.
fn has_outline(it: &Parcel, area: u64, outline: &str) -> Result<bool, AllocError> {
    let written = it.outline.write_wkt()?;
    Ok(written.as_str() == outline && it.outline.doubled_area() == area)
}

fn is_parcel(it: &Parcel, unit: u64, label: &str, source: u64) -> bool {
    it.unit == unit && it.label.as_str() == label && it.source == source
}

fn is_right(right_type: RightType, share: Fraction, held: &Held) -> bool {
    match held {
        Held::Right(held_type, n, d) => {
            right_type == *held_type && share.numerator() == *n && share.denominator() == *d
        }
        _ => false,
    }
}

fn is_mortgage(amount: u64, currency: &str, rank: u64, held: &Held) -> bool {
    match held {
        Held::Mortgage(held_rank) => {
            amount == 2_500_000 && currency == "EUR" && rank == *held_rank
        }
        _ => false,
    }
}

fn is_class(class: &Class, held: &Held) -> bool {
    match class {
        Class::Right { right_type, share } => is_right(*right_type, *share, held),
        Class::Restriction { words } => {
            matches!(held, Held::Restriction) && words.as_str() == "No fence"
        }
        Class::Responsibility { words } => {
            matches!(held, Held::Responsibility) && words.as_str() == "Cuts the hedge"
        }
        Class::Mortgage {
            amount,
            currency,
            rank,
        } => is_mortgage(*amount, currency.as_str(), *rank, held),
    }
}

fn is_entry(it: &Rrr, unit: u64, party: u64, source: u64, held: &Held) -> bool {
    it.unit == unit && it.party == party && it.source == source && is_class(&it.class, held)
}

fn is_source(it: &Source, kind: SourceKind, title: &str) -> bool {
    it.kind == kind && it.title.as_str() == title
}

fn is_mutation(it: &Mutation, lodged: &Lodged) -> bool {
    it.lodger == lodged.0
        && it.reference.as_str() == lodged.1
        && it.source == lodged.2
        && it.lodged == MOMENT
        && it.state == lodged.3
        && is_asked(&it.content, &lodged.4)
}

/// Checks if an object has this number and the expected data.
fn looks(object: &Object, number: u64, look: &Look) -> Result<bool, AllocError> {
    match (object, look) {
        (Object::Party(it), Look::Party(kind, name, shares, roles)) => {
            Ok(it.number == number && is_party(it, *kind, name, shares, roles))
        }
        (Object::Unit(it), Look::Unit(name, checked)) => {
            Ok(it.number == number && is_unit(it, name, *checked))
        }
        (Object::Parcel(it), Look::Parcel(unit, label, area, source, outline)) => {
            if it.number == number && is_parcel(it, *unit, label, *source) {
                has_outline(it, *area, outline)
            } else {
                Ok(false)
            }
        }
        (Object::Rrr(it), Look::Rrr(unit, party, source, held)) => {
            Ok(it.number == number && is_entry(it, *unit, *party, *source, held))
        }
        (Object::Source(it), Look::Source(kind, title)) => {
            Ok(it.number == number && is_source(it, *kind, title))
        }
        (Object::Mutation(it), Look::Mutation(lodged)) => {
            Ok(it.number == number && is_mutation(it, lodged))
        }
        _ => Ok(false),
    }
}

/// Checks if an object of a register is as its row expects.
pub(super) fn is_shown(
    alloc: Global,
    register: &Register,
    row: &Shown,
) -> Result<bool, AllocError> {
    match register.object(alloc, row.0, row.1)? {
        Some(object) => looks(&object, row.1, &row.2),
        None => Ok(matches!(&row.2, Look::Nothing)),
    }
}

/// Returns the number of rows before the first that a register does not satisfy.
pub(super) fn shown_rows(
    alloc: Global,
    register: &Register,
    rows: &[Shown],
) -> Result<usize, Stop> {
    for (place, row) in rows.iter().enumerate() {
        if !is_shown(alloc, register, row)? {
            return Ok(place);
        }
    }
    Ok(rows.len())
}

/// Returns the number of rows before the first that a register with these facts does not satisfy.
fn rows_of(alloc: Global, base: &[Part], rows: &[Shown]) -> Result<usize, Stop> {
    let register = register_with(alloc, base)?;
    shown_rows(alloc, &register, rows)
}

fn expect_shown(alloc: Global, base: &[Part], rows: &[Shown]) -> Result<(), Stop> {
    let shown = rows_of(alloc, base, rows)?;
    expect(shown == rows.len(), "row", shown)
}

/// The office of a new register.
pub(super) const OFFICE: Shown = Shown(
    Kind::Party,
    1,
    Look::Party(
        NonNaturalPerson,
        "Land Office",
        &[],
        &[Role::StateAdministrator],
    ),
);

const OBJECTS: &[Shown] = &[
    OFFICE,
    Shown(
        Kind::Party,
        ANNA,
        Look::Party(NaturalPerson, "Anna", &[], &[]),
    ),
    Shown(
        Kind::Party,
        5,
        Look::Party(Group, "Anna and Ben", ANNA_A_THIRD, &[]),
    ),
    Shown(Kind::Unit, GARDEN, Look::Unit("Garden", true)),
    Shown(
        Kind::Parcel,
        POND,
        Look::Parcel(GARDEN, "12b", 200, DEED, SQUARE),
    ),
    Shown(
        Kind::Source,
        DEED,
        Look::Source(SourceKind::Administrative, "Deed 1"),
    ),
    Shown(Kind::Rrr, ANNAS, Look::Rrr(GARDEN, ANNA, DEED, HALF)),
    Shown(
        Kind::Rrr,
        LEASE,
        Look::Rrr(GARDEN, SAM, DEED, Held::Right(Lease, 1, 1)),
    ),
    Shown(
        Kind::Rrr,
        PATH,
        Look::Rrr(GARDEN, ANNA, DEED, Held::Restriction),
    ),
    Shown(
        Kind::Rrr,
        HEDGE,
        Look::Rrr(GARDEN, BEN, DEED, Held::Responsibility),
    ),
    Shown(
        Kind::Rrr,
        LOAN,
        Look::Rrr(GARDEN, SAM, DEED, Held::Mortgage(1)),
    ),
    Shown(Kind::Mutation, 16, Look::Mutation(SHARE)),
    Shown(Kind::Mutation, 17, Look::Mutation(LOAN_LODGED)),
    Shown(Kind::Mutation, 18, Look::Mutation(LETTER)),
];

/// Checks the objects of a register.
pub fn objects_are_shown(alloc: Global) -> Result<(), Stop> {
    expect_shown(alloc, WITH_ALL, OBJECTS)
}

const NOTHING: &[Shown] = &[
    Shown(Kind::Party, 0, Look::Nothing),
    Shown(Kind::Party, GARDEN, Look::Nothing),
    Shown(Kind::Party, NOBODY, Look::Nothing),
    Shown(Kind::Unit, 0, Look::Nothing),
    Shown(Kind::Unit, LAWN, Look::Nothing),
    Shown(Kind::Unit, NOBODY, Look::Nothing),
    Shown(Kind::Parcel, 0, Look::Nothing),
    Shown(Kind::Parcel, ANNAS, Look::Nothing),
    Shown(Kind::Parcel, NOBODY, Look::Nothing),
    Shown(Kind::Rrr, 0, Look::Nothing),
    Shown(Kind::Rrr, DEED, Look::Nothing),
    Shown(Kind::Rrr, NOBODY, Look::Nothing),
    Shown(Kind::Source, 0, Look::Nothing),
    Shown(Kind::Source, ANNA, Look::Nothing),
    Shown(Kind::Source, NOBODY, Look::Nothing),
    Shown(Kind::Mutation, 0, Look::Nothing),
    Shown(Kind::Mutation, DEED, Look::Nothing),
    Shown(Kind::Mutation, NOBODY, Look::Nothing),
];

/// Checks that an object that does not exist is not returned.
pub fn missing_objects_are_not_shown(alloc: Global) -> Result<(), Stop> {
    expect_shown(alloc, WITH_GARDEN, NOTHING)
}
