//! The register at a moment, and valid lifespans.
use crate::versions::cell::Cell;
use crate::versions::histories::{OPEN, Span, add, empty_history, history_of};
use crate::versions::table::Table;
use land_core::mandates::Mandate;
use land_core::member::Members;
use land_core::register::Register;
use land_core::role::Role;
use land_core::roles::Grant;
use land_tables_history::intervals::has_intervals;
use land_tables_history::moment::Moment;
use land_tables_history::register::register_at;
use sqlite::{Alter, Connection, Error};
use std::alloc::Global;
use testlib_scenario::stop::{Stop, expect};

/// Samples that are current together, and a later version of one of them.
const SPANS: &[Span] = &[
    Span(Table::Party, &[], 1000, 1005),
    Span(Table::Party, &[(1, Cell::Words("Anna Stone"))], 1005, OPEN),
    Span(Table::Role, &[], 1000, 1005),
    Span(Table::Member, &[], 1000, 1005),
    Span(Table::Member, &[(1, Cell::Number(3))], 1000, 1005),
    Span(Table::Unit, &[], 1000, 1005),
    Span(Table::Parcel, &[], 1000, 1005),
    Span(Table::Right, &[], 1000, 1005),
    Span(Table::Burden, &[], 1000, 1005),
    Span(Table::Mortgage, &[], 1000, 1005),
    Span(Table::Source, &[], 1000, 1005),
    Span(Table::Mutation, &[], 1000, 1005),
    Span(Table::Mandate, &[], 1000, 1005),
];

fn are_two(members: &Members) -> bool {
    members.get(2).is_some() && members.get(3).is_some() && members.get(4).is_none()
}

const NOTARY: Grant = Grant {
    party: 5,
    role: Role::Notary,
};

const MANDATE: Mandate = Mandate {
    principal: 2,
    agent: 5,
};

/// Returns the number of samples in a register, without its party and the members of its group.
fn count(register: &Register) -> usize {
    usize::from(register.roles.contains(NOTARY))
        + usize::from(register.units.get(9).is_some())
        + usize::from(register.parcels.get(10).is_some())
        + usize::from(register.rrrs.get(11).is_some())
        + usize::from(register.rrrs.get(13).is_some())
        + usize::from(register.rrrs.get(16).is_some())
        + usize::from(register.sources.get(8).is_some())
        + usize::from(register.mutations.get(18).is_some())
        + usize::from(register.mandates.contains(MANDATE))
}

/// Returns whether the party of the sample has this name, or does not exist.
fn is_called(register: &Register, name: &str) -> bool {
    match register.parties.get(2) {
        Some(party) => party.name.as_str() == name,
        None => name.is_empty(),
    }
}

/// Returns whether the group of the sample has its two members, or does not exist.
fn is_group(register: &Register, stands: bool) -> bool {
    match register.members.get(7) {
        Some(members) => stands && are_two(members),
        None => !stands,
    }
}

/// A moment, the name of the party then, and whether the other samples exist.
struct At(i64, &'static str, bool);

const AT: &[At] = &[
    At(0, "", false),
    At(999, "", false),
    At(1000, "Anna", true),
    At(1004, "Anna", true),
    At(1005, "Anna Stone", false),
    At(4_102_444_799_999, "Anna Stone", false),
    At(4_102_444_800_000, "", false),
];

fn is_as_said(register: &Register, at: &At) -> bool {
    let samples = if at.2 { 9 } else { 0 };
    is_called(register, at.1)
        && is_group(register, at.2)
        && count(register) == samples
        && register.next == 19
}

/// Returns whether the register at each moment is the expected one.
fn are_as_said<S: Alter>(alloc: Global, conn: &mut Connection<S>) -> Result<bool, Error> {
    let history = history_of(alloc, conn, SPANS)?;
    for at in AT {
        if !is_as_said(&register_at(alloc, &history, at.0, 19)?, at) {
            return Ok(false);
        }
    }
    Ok(true)
}

/// A lifespan includes its start, and not its end.
pub fn a_lifespan_has_its_beginning_and_not_its_end(alloc: Global) -> Result<(), Stop> {
    let mut conn = Connection::open_in_memory(alloc)?;
    expect(are_as_said(alloc, &mut conn)?, "register", 0)
}

/// The commits.
const MOMENTS: &[Moment] = &[
    Moment {
        stamp: 1005,
        next: 19,
    },
    Moment { stamp: 0, next: 2 },
    Moment {
        stamp: 1003,
        next: 19,
    },
    Moment {
        stamp: 1000,
        next: 19,
    },
];

const VERSIONED: &[Table] = &[
    Table::Party,
    Table::Role,
    Table::Member,
    Table::Unit,
    Table::Parcel,
    Table::Right,
    Table::Source,
    Table::Mutation,
    Table::Names,
    Table::Mandate,
];

/// Lifespans of one key, and whether they are valid in a history.
struct Lives(&'static [(i64, i64)], bool);

const LIVES: &[Lives] = &[
    Lives(&[], true),
    Lives(&[(1000, 1005)], true),
    Lives(&[(0, OPEN)], true),
    Lives(&[(1003, OPEN), (1000, 1003)], true),
    // one ends after the other starts
    Lives(&[(1000, 1005), (1003, OPEN)], false),
    Lives(&[(1003, OPEN), (1000, 1005)], false),
    Lives(&[(1000, 1003), (1000, 1003)], false),
    Lives(&[(0, OPEN), (1000, 1003)], false),
    Lives(&[(0, 1000), (1003, 1005), (1000, OPEN)], false),
    // its start or its end is not a stamp
    Lives(&[(1001, 1005)], false),
    Lives(&[(1001, OPEN)], false),
    Lives(&[(1000, 1004)], false),
    Lives(&[(1000, 4_102_444_799_999)], false),
    // its end is not after its start
    Lives(&[(1003, 1003)], false),
    Lives(&[(1003, 1000)], false),
];

/// Returns whether a history may have these lifespans of the sample of a table.
fn may_have_lifespans<S: Alter>(
    alloc: Global,
    conn: &mut Connection<S>,
    table: Table,
    lives: &[(i64, i64)],
) -> Result<bool, Error> {
    let mut history = empty_history(alloc);
    for (since, until) in lives {
        add(alloc, conn, &mut history, &Span(table, &[], *since, *until))?;
    }
    Ok(has_intervals(alloc, &history, MOMENTS)?)
}

/// Lifespans of one key do not overlap, in any table.
pub fn lifespans_of_one_key_do_not_overlap(alloc: Global) -> Result<(), Stop> {
    let mut conn = Connection::open_in_memory(alloc)?;
    for table in VERSIONED {
        for (place, lives) in LIVES.iter().enumerate() {
            let may_have_lifespans = may_have_lifespans(alloc, &mut conn, *table, lives.0)?;
            expect(may_have_lifespans == lives.1, "row", place)?;
        }
    }
    Ok(())
}

/// A table, the column of another version that differs from the sample, and whether both may be current
/// together.
struct Beside(Table, &'static [(usize, Cell)], bool);

const BESIDE: &[Beside] = &[
    Beside(Table::Party, &[(0, Cell::Number(3))], true),
    Beside(Table::Party, &[(1, Cell::Words("Ben"))], false),
    Beside(Table::Role, &[(0, Cell::Number(4))], true),
    Beside(Table::Role, &[(1, Cell::Words("bank"))], true),
    Beside(Table::Member, &[(0, Cell::Number(6))], true),
    Beside(Table::Member, &[(1, Cell::Number(3))], true),
    Beside(Table::Member, &[(3, Cell::Number(3))], false),
    Beside(Table::Unit, &[(0, Cell::Number(8))], true),
    Beside(Table::Unit, &[(2, Cell::Number(0))], false),
    Beside(Table::Parcel, &[(0, Cell::Number(11))], true),
    Beside(Table::Parcel, &[(1, Cell::Number(8))], false),
    Beside(Table::Right, &[(0, Cell::Number(12))], true),
    Beside(Table::Right, &[(2, Cell::Number(3))], false),
    Beside(Table::Source, &[(0, Cell::Number(9))], true),
    Beside(Table::Source, &[(1, Cell::Words("spatial"))], false),
    Beside(Table::Mutation, &[(0, Cell::Number(19))], true),
    Beside(Table::Mutation, &[(7, Cell::Words("approved"))], false),
    Beside(Table::Names, &[(0, Cell::Number(19))], true),
    Beside(Table::Names, &[(1, Cell::Number(10))], true),
    Beside(Table::Mandate, &[(0, Cell::Number(3))], true),
    Beside(Table::Mandate, &[(1, Cell::Number(4))], true),
];

/// Returns whether a sample and another version may be current together.
fn may_be_current<S: Alter>(
    alloc: Global,
    conn: &mut Connection<S>,
    beside: &Beside,
) -> Result<bool, Error> {
    let both = [
        Span(beside.0, &[], 1000, 1005),
        Span(beside.0, beside.1, 1003, OPEN),
    ];
    let history = history_of(alloc, conn, &both)?;
    Ok(has_intervals(alloc, &history, MOMENTS)?)
}

/// Other keys have lifespans of their own.
pub fn other_keys_have_their_own_lifespans(alloc: Global) -> Result<(), Stop> {
    let mut conn = Connection::open_in_memory(alloc)?;
    for (place, beside) in BESIDE.iter().enumerate() {
        let may_be_current = may_be_current(alloc, &mut conn, beside)?;
        expect(may_be_current == beside.2, "row", place)?;
    }
    Ok(())
}
