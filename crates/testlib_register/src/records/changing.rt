//! Changes, and the register after an injected allocation failure.
use super::copies::fields;
use super::garden::{
    ALL, ANNA, ANNAS, BEN, BENS, DEED, GARDEN, HEDGE, LAWN, LEASE, LETTER, LOAN, LOAN_LODGED, PATH,
    POND, SHARE,
};
use super::objects::{Look, Shown, shown_rows};
use super::{OFFICE_ALONE, Part, WITH_GARDEN, WITH_GROUP, WITH_LODGED, register_with};
use crate::facts::changes::change_all;
use crate::facts::facts::{Fact, SQUARE, Share};
use crate::facts::registers::fault;
use land_core::change::Change;
use land_core::kind::Kind;
use land_core::kind::PartyKind::{Group, NaturalPerson};
use land_core::records::Records;
use land_core::register::{Register, apply};
use land_core::role::Role;
use std::alloc::{AllocError, Global};
use testlib_cases::stop::{Stop, expect};

/// How a change was made.
#[derive(Drop)]
enum Made {
    AtOnce,
    /// An allocation failed, the register was unchanged, and the change was made at the second attempt.
    Late,
    /// An allocation failed, and the register was changed.
    Broken,
}

fn is_as_before(alloc: Global, register: &Register, before: &str) -> Result<bool, AllocError> {
    Ok(fields(alloc, register)?.as_str() == before)
}

/// Makes a change at the second attempt.
fn make_late(
    alloc: Global,
    register: &mut Register,
    change: &Change,
    before: &str,
) -> Result<Made, AllocError> {
    if !is_as_before(alloc, register, before)? {
        return Ok(Made::Broken);
    }
    apply(alloc, register, change)?;
    Ok(Made::Late)
}

/// Makes a change of a register, whose fields are given in one line.
fn make_from(
    alloc: Global,
    register: &mut Register,
    change: &Change,
    before: &str,
) -> Result<Made, AllocError> {
    match apply(alloc, register, change) {
        Ok(()) => Ok(Made::AtOnce),
        Err(AllocError) => make_late(alloc, register, change, before),
    }
}

fn make(alloc: Global, register: &mut Register, change: &Change) -> Result<Made, AllocError> {
    let before = fields(alloc, register)?;
    make_from(alloc, register, change, before.as_str())
}

/// The numbers of all objects by kind: parties, units, parcels, entries and sources.
struct Standing(
    &'static [u64],
    &'static [u64],
    &'static [u64],
    &'static [u64],
    &'static [u64],
);

/// Checks if records have these numbers.
fn have<V>(records: &Records<V>, numbers: &[u64]) -> bool {
    let mut rows = numbers.iter();
    let mut count = 0usize;
    for (number, _) in records.iter() {
        if rows.next() != Some(number) {
            return false;
        }
        count = count.saturating_add(1);
    }
    count == numbers.len()
}

fn stands(register: &Register, standing: &Standing) -> bool {
    have(&register.parties, standing.0)
        && have(&register.units, standing.1)
        && have(&register.parcels, standing.2)
        && have(&register.rrrs, standing.3)
        && have(&register.sources, standing.4)
}

/// The facts of a register, a change of it, and the expected next number, numbers and some objects after it.
struct Changing {
    base: &'static [Part],
    facts: &'static [Fact],
    next: u64,
    standing: Standing,
    shown: &'static [Shown],
}

/// Checks if the numbers of a register and some of its objects are as expected, and the register is sound.
fn is_changed(alloc: Global, register: &Register, it: &Changing) -> Result<bool, Stop> {
    Ok(
        register.next == it.next
            && stands(register, &it.standing)
            && fault(alloc, register)? == None
            && shown_rows(alloc, register, it.shown)? == it.shown.len(),
    )
}

fn make_by(
    alloc: Global,
    register: &mut Register,
    change: &mut Change,
    facts: &[Fact],
) -> Result<Made, Stop> {
    change_all(alloc, change, facts)?;
    Ok(make(alloc, register, change)?)
}

fn change(alloc: Global, register: &mut Register, it: &Changing) -> Result<Made, Stop> {
    let mut change = Change::empty(alloc, it.next);
    make_by(alloc, register, &mut change, it.facts)
}

/// Checks if a change was made correctly. One that was made at the second attempt returns out of memory,
/// since an allocation failed.
fn is_well_made(made: Made, good: bool) -> Result<bool, Stop> {
    match made {
        Made::AtOnce => Ok(good),
        Made::Late if good => Err(AllocError.into()),
        _ => Ok(false),
    }
}

/// Makes a change, and returns whether the result is as expected.
fn change_well(alloc: Global, register: &mut Register, it: &Changing) -> Result<bool, Stop> {
    let made = change(alloc, register, it)?;
    is_well_made(made, is_changed(alloc, register, it)?)
}

/// Checks if the result of a change is as expected.
fn changes(alloc: Global, it: &Changing) -> Result<bool, Stop> {
    let mut register = register_with(alloc, it.base)?;
    change_well(alloc, &mut register, it)
}

/// Enters Anna as party 2, a citizen.
const ENTERING: &Changing = &Changing {
    base: OFFICE_ALONE,
    facts: &[
        Fact::Party(2, NaturalPerson, "Anna"),
        Fact::Grant(2, Role::Citizen),
    ],
    next: 3,
    standing: Standing(&[1, 2], &[], &[], &[], &[]),
    shown: &[Shown(
        Kind::Party,
        2,
        Look::Party(NaturalPerson, "Anna", &[], &[Role::Citizen]),
    )],
};

/// Checks that running out of memory leaves the register unchanged, or the change made.
pub fn out_of_memory_leaves_the_changed_register(alloc: Global) -> Result<(), Stop> {
    expect(changes(alloc, ENTERING)?, "the change", 0)
}

const BENS_AND_SAMS: &[Share] = &[(3, 1, 2), (4, 1, 2)];

/// Replaces the members of group 5 by Ben and Sam.
const REGROUPING: &Changing = &Changing {
    base: WITH_GROUP,
    facts: &[Fact::Members(5, BENS_AND_SAMS)],
    next: 6,
    standing: Standing(&[1, 2, 3, 4, 5], &[], &[], &[], &[]),
    shown: &[Shown(
        Kind::Party,
        5,
        Look::Party(Group, "Anna and Ben", BENS_AND_SAMS, &[]),
    )],
};

/// Checks that a change replaces the members of a group.
pub fn a_group_gets_other_members(alloc: Global) -> Result<(), Stop> {
    expect(changes(alloc, REGROUPING)?, "the change", 0)
}

/// Whether Anna, Ben and Sam are members of the group 5, whether that is a group, and whether Sam has a
/// member.
type Membership = (bool, bool, bool, bool, bool);

fn members_of(register: &Register) -> Membership {
    (
        register.is_member(5, 2),
        register.is_member(5, 3),
        register.is_member(5, 4),
        register.has_group(5),
        register.is_member(4, 3),
    )
}

/// Makes a change, and returns the members after it.
fn change_members(
    alloc: Global,
    register: &mut Register,
    it: &Changing,
) -> Result<Membership, Stop> {
    match change(alloc, register, it)? {
        Made::AtOnce => Ok(members_of(register)),
        _ => Err(AllocError.into()),
    }
}

/// Returns the members after a change.
fn members_after(alloc: Global, it: &Changing) -> Result<Membership, Stop> {
    let mut register = register_with(alloc, it.base)?;
    change_members(alloc, &mut register, it)
}

/// Leaves the group unchanged.
const KEEPING: &Changing = &Changing {
    base: WITH_GROUP,
    facts: &[],
    next: 6,
    standing: Standing(&[1, 2, 3, 4, 5], &[], &[], &[], &[]),
    shown: &[],
};

const MEMBERS: &[(&Changing, Membership)] = &[
    (KEEPING, (true, true, false, true, false)),
    (REGROUPING, (false, true, true, true, false)),
    (UNGROUPING, (false, false, false, false, false)),
];

/// Checks that members are those of the change.
pub fn members_are_those_of_the_change(alloc: Global) -> Result<(), Stop> {
    for (place, row) in MEMBERS.iter().enumerate() {
        expect(members_after(alloc, row.0)? == row.1, "row", place)?;
    }
    Ok(())
}

/// Removes group 5.
const UNGROUPING: &Changing = &Changing {
    base: WITH_GROUP,
    facts: &[Fact::Ended(Kind::Party, 5)],
    next: 6,
    standing: Standing(&[1, 2, 3, 4], &[], &[], &[], &[]),
    shown: &[Shown(Kind::Party, 5, Look::Nothing)],
};

/// Checks that a removed group has no members.
pub fn an_ended_group_has_no_members(alloc: Global) -> Result<(), Stop> {
    expect(changes(alloc, UNGROUPING)?, "the change", 0)
}

/// Enters a source and an orchard with a parcel, which Anna owns.
const PLANTING: &Changing = &Changing {
    base: WITH_GARDEN,
    facts: &[
        Fact::Source(16),
        Fact::Unit(17, "Orchard", true),
        Fact::Parcel(18, 17, "13", 16),
        Fact::Rrr(19, 17, ANNA, 16, ALL),
    ],
    next: 20,
    standing: Standing(
        &[1, 2, 3, 4],
        &[7, 17],
        &[8, 9, 18],
        &[10, 11, 12, 13, 14, 15, 19],
        &[6, 16],
    ),
    shown: &[Shown(Kind::Rrr, 19, Look::Rrr(17, ANNA, 16, ALL))],
};

/// Checks that a unit is inserted.
pub fn a_unit_is_entered(alloc: Global) -> Result<(), Stop> {
    expect(changes(alloc, PLANTING)?, "the change", 0)
}

/// Removes the garden with its parcels, its entries and its source.
const CLEARING: &Changing = &Changing {
    base: WITH_GARDEN,
    facts: &[
        Fact::Ended(Kind::Unit, GARDEN),
        Fact::Ended(Kind::Source, DEED),
        Fact::Ended(Kind::Parcel, LAWN),
        Fact::Ended(Kind::Parcel, POND),
        Fact::Ended(Kind::Rrr, ANNAS),
        Fact::Ended(Kind::Rrr, BENS),
        Fact::Ended(Kind::Rrr, LEASE),
        Fact::Ended(Kind::Rrr, PATH),
        Fact::Ended(Kind::Rrr, HEDGE),
        Fact::Ended(Kind::Rrr, LOAN),
    ],
    next: 16,
    standing: Standing(&[1, 2, 3, 4], &[], &[], &[], &[]),
    shown: &[],
};

/// Checks that a unit is removed.
pub fn a_unit_is_ended(alloc: Global) -> Result<(), Stop> {
    expect(changes(alloc, CLEARING)?, "the change", 0)
}

/// Replaces a right, so that Ben owns all of the garden, and the label of the pond.
const REPLACING: &Changing = &Changing {
    base: WITH_GARDEN,
    facts: &[
        Fact::Ended(Kind::Rrr, ANNAS),
        Fact::Rrr(BENS, GARDEN, BEN, DEED, ALL),
        Fact::Parcel(POND, GARDEN, "13", DEED),
    ],
    next: 16,
    standing: Standing(&[1, 2, 3, 4], &[7], &[8, 9], &[11, 12, 13, 14, 15], &[6]),
    shown: &[
        Shown(Kind::Rrr, BENS, Look::Rrr(GARDEN, BEN, DEED, ALL)),
        Shown(
            Kind::Parcel,
            POND,
            Look::Parcel(GARDEN, "13", 200, DEED, SQUARE),
        ),
    ],
};

/// Checks that records are replaced.
pub fn records_are_replaced(alloc: Global) -> Result<(), Stop> {
    expect(changes(alloc, REPLACING)?, "the change", 0)
}

/// Lodges a share of Anna's half for Sam, with its document.
const LODGING: Changing = Changing {
    base: WITH_GARDEN,
    facts: &[Fact::Source(17), Fact::Mutation(16, SHARE)],
    next: 18,
    standing: Standing(
        &[1, 2, 3, 4],
        &[7],
        &[8, 9],
        &[10, 11, 12, 13, 14, 15],
        &[6, 17],
    ),
    shown: &[Shown(Kind::Mutation, 16, Look::Mutation(SHARE))],
};

/// Replaces the record of the share, and removes the approved mutation.
const DECIDING: Changing = Changing {
    base: WITH_LODGED,
    facts: &[
        Fact::Mutation(16, LOAN_LODGED),
        Fact::Ended(Kind::Mutation, 17),
    ],
    next: 19,
    standing: Standing(
        &[1, 2, 3, 4],
        &[7],
        &[8, 9],
        &[10, 11, 12, 13, 14, 15],
        &[6],
    ),
    shown: &[
        Shown(Kind::Mutation, 16, Look::Mutation(LOAN_LODGED)),
        Shown(Kind::Mutation, 17, Look::Nothing),
        Shown(Kind::Mutation, 18, Look::Mutation(LETTER)),
    ],
};

/// Checks that mutations are inserted, replaced and removed.
pub fn mutations_are_entered_replaced_and_ended(alloc: Global) -> Result<(), Stop> {
    expect(
        changes(alloc, &LODGING)? && changes(alloc, &DECIDING)?,
        "the change",
        0,
    )
}
