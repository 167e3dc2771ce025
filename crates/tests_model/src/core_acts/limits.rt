//! The limits of acts and of requests.
use super::drafts::{Draft, burden, registration};
use super::{ANNA, GARDEN, PATH, Right, is_good};
use crate::core_types::text;
use Tried::{Burden, Lift, Register};
use land_core::act::BurdenClass::{Responsibility, Restriction};
use land_core::act::{Act, BurdenClass, Enrol, NewGroup, NewMandate, Regroup};
use land_core::ask::{Ask, Request};
use land_core::caller::Caller;
use land_core::kind::{Kind, PartyKind};
use land_core::mandates::Mandate;
use land_core::member::Member;
use land_core::role::Role;
use land_core::roles::Grant;
use land_core::rrr::RightType::{Lease, Ownership, Usufruct};
use land_core::sequence::Sequence;
use land_fraction::Fraction;
use std::alloc::{AllocError, Global};
use std::process::Abort;
use std::test::Fail;

/// Returns `count` members with numbers from `first`, each with a share.
fn members(alloc: Global, first: u64, count: u64) -> Result<Sequence<Member>, Fail> {
    let share = Fraction::new(1, 64)?;
    let mut members = Sequence::new(alloc);
    for place in 0..count {
        members.push(Member {
            party: first.saturating_add(place),
            share,
        })?;
    }
    Ok(members)
}

/// Returns the act that creates a group of `count` members with numbers from `first`.
fn group(alloc: Global, first: u64, count: u64) -> Result<Act, Fail> {
    Ok(Act::Group(NewGroup {
        name: text(alloc, "Anna and Ben")?,
        members: members(alloc, first, count)?,
    }))
}

/// Returns the act that gives a group `count` other members.
fn regroup(alloc: Global, group: u64, count: u64) -> Result<Act, Fail> {
    Ok(Act::Regroup(Regroup {
        group,
        members: members(alloc, 2, count)?,
    }))
}

/// A number, a count of members, and whether the act is well formed.
struct Numbered(u64, u64, bool);

fn keeps_group(alloc: Global, row: &Numbered) -> Result<bool, Fail> {
    Ok(is_good(group(alloc, row.0, row.1)?) == row.2)
}

fn keeps_regroup(alloc: Global, row: &Numbered) -> Result<bool, Fail> {
    Ok(is_good(regroup(alloc, row.0, row.1)?) == row.2)
}

const GROUPS: &[Numbered] = &[
    Numbered(2, 1, false),
    Numbered(2, 2, true),
    Numbered(2, 64, true),
    Numbered(2, 65, false),
    Numbered(0, 2, false),
    Numbered(1, 2, true),
    Numbered(999_999_999, 2, true),
    Numbered(1_000_000_000, 2, false),
];

#[test]
fn groups_keep_their_limits(rt: HostRuntime) -> Result<(), Fail> {
    for (place, row) in GROUPS.iter().enumerate() {
        assert!(&rt; keeps_group(rt.alloc(), row)?, "row {place}");
    }
    Ok(())
}

const REGROUPINGS: &[Numbered] = &[
    Numbered(0, 2, false),
    Numbered(1, 2, true),
    Numbered(1_000_000_000, 64, true),
    Numbered(1_000_000_001, 2, false),
    Numbered(5, 1, false),
    Numbered(5, 65, false),
];

#[test]
fn regroupings_keep_their_limits(rt: HostRuntime) -> Result<(), Fail> {
    for (place, row) in REGROUPINGS.iter().enumerate() {
        assert!(&rt; keeps_regroup(rt.alloc(), row)?, "row {place}");
    }
    Ok(())
}

/// An act to check.
enum Tried {
    /// The kind of a party.
    Enrol(PartyKind),
    /// A unit with this number of parcels and these rights.
    Register(usize, &'static [Right]),
    /// The class of a burden, its unit and its party.
    Burden(BurdenClass, u64, u64),
    /// The number of an entry.
    Lift(u64),
}

/// An act, and whether it is well formed.
struct Limit(Tried, bool);

fn enrols(alloc: Global, kind: PartyKind) -> Result<bool, Fail> {
    let name = text(alloc, "Anna")?;
    Ok(is_good(Act::Enrol(Enrol { kind, name })))
}

fn registers(alloc: Global, parcels: usize, rights: &[Right]) -> Result<bool, Fail> {
    let draft = Draft {
        name: "Garden",
        document: "Deed 1",
        label: "12",
        parcels,
    };
    Ok(is_good(Act::Register(registration(alloc, &draft, rights)?)))
}

fn burdens(alloc: Global, class: BurdenClass, unit: u64, party: u64) -> Result<bool, Fail> {
    let mut burden = burden(alloc, class, "No well", "Order")?;
    burden.unit = unit;
    burden.party = party;
    Ok(is_good(Act::Burden(burden)))
}

fn may_be_asked(alloc: Global, it: &Tried) -> Result<bool, Fail> {
    match it {
        Tried::Enrol(kind) => enrols(alloc, *kind),
        Tried::Register(parcels, rights) => registers(alloc, *parcels, rights),
        Tried::Burden(class, unit, party) => burdens(alloc, *class, *unit, *party),
        Tried::Lift(rrr) => Ok(is_good(Act::Lift(land_core::act::Lift { rrr: *rrr }))),
    }
}

fn assert_limits(rt: &impl Abort, alloc: Global, limits: &[Limit]) -> Result<(), Fail> {
    for (place, limit) in limits.iter().enumerate() {
        assert!(rt; may_be_asked(alloc, &limit.0)? == limit.1, "row {place}");
    }
    Ok(())
}

const GROUP: &[Limit] = &[Limit(Tried::Enrol(PartyKind::Group), false)];

#[test]
fn a_group_is_not_enrolled(rt: HostRuntime) -> Result<(), Fail> {
    assert_limits(&rt, rt.alloc(), GROUP)
}

const OWNED: &[Right] = &[(ANNA, Ownership, 1, 1)];

const LEASED: &[Right] = &[(ANNA, Lease, 1, 1)];

const USED: &[Right] = &[(ANNA, Usufruct, 1, 1)];

const PARCELS: &[Limit] = &[
    Limit(Register(0, OWNED), false),
    Limit(Register(1, OWNED), true),
    Limit(Register(64, OWNED), true),
    Limit(Register(65, OWNED), false),
];

#[test]
fn first_registrations_have_1_to_64_parcels(rt: HostRuntime) -> Result<(), Fail> {
    assert_limits(&rt, rt.alloc(), PARCELS)
}

const OWNERSHIPS: &[Limit] = &[
    Limit(Register(1, OWNED), true),
    Limit(Register(1, LEASED), false),
    Limit(Register(1, USED), false),
    Limit(Register(1, &[]), false),
];

#[test]
fn first_registrations_have_an_ownership(rt: HostRuntime) -> Result<(), Fail> {
    assert_limits(&rt, rt.alloc(), OWNERSHIPS)
}

const HOLDERS: &[Limit] = &[
    Limit(
        Register(1, &[(0, Lease, 1, 1), (0, Ownership, 1, 1)]),
        false,
    ),
    Limit(Register(1, &[(1, Lease, 1, 1), (1, Ownership, 1, 1)]), true),
    Limit(
        Register(
            1,
            &[
                (1_000_000_000, Lease, 1, 1),
                (1_000_000_000, Ownership, 1, 1),
            ],
        ),
        true,
    ),
    Limit(
        Register(
            1,
            &[
                (1_000_000_001, Lease, 1, 1),
                (1_000_000_001, Ownership, 1, 1),
            ],
        ),
        false,
    ),
];

#[test]
fn rights_are_of_parties_with_numbers(rt: HostRuntime) -> Result<(), Fail> {
    assert_limits(&rt, rt.alloc(), HOLDERS)
}

fn add_leases(rights: &mut Vec<Right>, count: usize) -> Result<(), AllocError> {
    for _ in 0..count {
        rights.push((ANNA, Lease, 1, 1))?;
    }
    rights.push((ANNA, Ownership, 1, 1))?;
    Ok(())
}

/// Returns whether a registration with `count` leases and an ownership is well formed.
fn leases(alloc: Global, count: usize) -> Result<bool, Fail> {
    let mut rights = Vec::new(alloc);
    add_leases(&mut rights, count)?;
    registers(alloc, 1, rights.as_slice())
}

const LEASES: &[(usize, bool)] = &[(0, true), (1, true), (63, true), (64, false)];

#[test]
fn first_registrations_have_1_to_64_rights(rt: HostRuntime) -> Result<(), Fail> {
    for row in LEASES {
        assert!(&rt; leases(rt.alloc(), row.0)? == row.1, "{} leases", row.0);
    }
    Ok(())
}

const BURDENS: &[Limit] = &[
    Limit(Burden(Restriction, 0, ANNA), false),
    Limit(Burden(Restriction, 1, ANNA), true),
    Limit(Burden(Restriction, 1_000_000_000, ANNA), true),
    Limit(Burden(Restriction, 1_000_000_001, ANNA), false),
    Limit(Burden(Responsibility, GARDEN, 0), false),
    Limit(Burden(Responsibility, GARDEN, 1), true),
    Limit(Burden(Responsibility, GARDEN, 1_000_000_000), true),
    Limit(Burden(Responsibility, GARDEN, 1_000_000_001), false),
];

#[test]
fn burdens_name_units_and_parties_by_numbers(rt: HostRuntime) -> Result<(), Fail> {
    assert_limits(&rt, rt.alloc(), BURDENS)
}

const LIFTS: &[Limit] = &[
    Limit(Lift(0), false),
    Limit(Lift(1), true),
    Limit(Lift(1_000_000_000), true),
    Limit(Lift(1_000_000_001), false),
];

#[test]
fn lifts_name_an_entry_by_a_number(rt: HostRuntime) -> Result<(), Fail> {
    assert_limits(&rt, rt.alloc(), LIFTS)
}

/// Returns whether a request of the Land Office is well formed.
fn is_good_ask(ask: Ask) -> bool {
    let caller = Caller {
        party: 1,
        role: Role::StateAdministrator,
    };
    Request { caller, ask }.is_well_formed()
}

fn grants(party: u64) -> bool {
    let role = Role::Bank;
    is_good_ask(Ask::Do(Act::Grant(Grant { party, role })))
}

#[test]
fn requests_keep_the_limits_of_their_acts(rt: HostRuntime) {
    assert!(&rt; !grants(0) && grants(1) && grants(1_000_000_000) && !grants(1_000_000_001));
}

fn mandates(agent: u64) -> bool {
    is_good_ask(Ask::Do(Act::Mandate(NewMandate { agent })))
}

fn withdrawals(principal: u64, agent: u64) -> bool {
    is_good_ask(Ask::Do(Act::Withdraw(Mandate { principal, agent })))
}

#[test]
fn mandates_name_parties_by_numbers(rt: HostRuntime) {
    assert!(&rt;
        !mandates(0) && mandates(1) && mandates(1_000_000_000) && !mandates(1_000_000_001)
    );
    assert!(&rt;
        withdrawals(1, 1_000_000_000)
            && !withdrawals(0, 1)
            && !withdrawals(1, 0)
            && !withdrawals(1_000_000_001, 1)
    );
}

fn views(kind: Kind, number: u64, at: Option<i64>) -> bool {
    is_good_ask(Ask::View { kind, number, at })
}

fn lists(kind: Kind, at: Option<i64>) -> bool {
    is_good_ask(Ask::List { kind, at })
}

fn shows_sheet(unit: u64, at: Option<i64>) -> bool {
    is_good_ask(Ask::Sheet { unit, at })
}

fn lifts(rrr: u64) -> bool {
    is_good_ask(Ask::Do(Act::Lift(land_core::act::Lift { rrr })))
}

#[test]
fn reads_have_no_limits(rt: HostRuntime) {
    let (party, rrr, at) = (Kind::Party, Kind::Rrr, Some(-1));
    assert!(&rt; views(party, 0, at) && lists(rrr, at) && shows_sheet(0, None) && lifts(PATH));
}
