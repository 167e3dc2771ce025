//! Who may lodge and decide mutations, and who sees them and the objects to which they refer.
use super::lists::{Row as Shown, shown_rows};
use super::standing::{Row, told_of};
use super::{
    ABSENT, ANNA, DEED, FARM, HOUSE, LENA, NORA, NORTH, OFFICE, SAM, SOUTH, farm_and_house_with,
};
use crate::facts::facts::Fact;
use crate::facts::lodged::{Asked, Lodged, content};
use crate::facts::making::text;
use crate::facts::registers::fault;
use land_core::act::{Act, Decision, Lodging};
use land_core::ask::Ask;
use land_core::kind::Kind::{Mutation, Party, Rrr, Unit};
use land_core::mutation::MutationState::{Approved, Lodged as Open, Refused};
use land_core::register::Register;
use land_core::role::Role::{
    Bank, CertifiedSurveyor, Citizen, Conveyancer, Notary, StateAdministrator,
};
use land_core::soundness::Unsound;
use std::alloc::Global;
use testlib_cases::stop::{Stop, expect};

/// Lodged by the bank North on the farm (21); by Lena on the house (22), and on the farm, approved (23) and
/// refused (24); by Nora on no unit (25); and by the office on the house (26).
const MUTATIONS: &[Fact] = &[
    Fact::Mutation(
        21,
        Lodged(
            NORTH,
            "M1",
            DEED,
            Open,
            Asked::Mortgage(FARM, NORTH, 100, "EUR"),
        ),
    ),
    Fact::Mutation(
        22,
        Lodged(
            LENA,
            "T1",
            DEED,
            Open,
            Asked::Transfer(HOUSE, 20, ANNA, 1, 2),
        ),
    ),
    Fact::Mutation(
        23,
        Lodged(
            LENA,
            "T2",
            DEED,
            Approved,
            Asked::Transfer(FARM, 16, ANNA, 1, 2),
        ),
    ),
    Fact::Mutation(
        24,
        Lodged(
            LENA,
            "T3",
            DEED,
            Refused,
            Asked::Transfer(FARM, 15, ANNA, 1, 2),
        ),
    ),
    Fact::Mutation(
        25,
        Lodged(
            NORA,
            "T1",
            DEED,
            Open,
            Asked::Transfer(ABSENT, 15, ANNA, 1, 2),
        ),
    ),
    Fact::Mutation(
        26,
        Lodged(OFFICE, "D1", DEED, Open, Asked::Discharge(HOUSE, 18)),
    ),
    Fact::Next(27),
];

const SEEN: &[Shown] = &[
    Shown(ANNA, Citizen, Mutation, &[21, 23, 24]),
    Shown(LENA, Citizen, Mutation, &[21, 23, 24]),
    Shown(NORA, Citizen, Mutation, &[22, 26]),
    Shown(OFFICE, Citizen, Mutation, &[]),
    Shown(NORTH, Citizen, Mutation, &[]),
    Shown(NORTH, Bank, Mutation, &[21]),
    Shown(SOUTH, Bank, Mutation, &[]),
    Shown(LENA, Conveyancer, Mutation, &[22, 23, 24]),
    Shown(SAM, CertifiedSurveyor, Mutation, &[]),
    Shown(NORA, Notary, Mutation, &[21, 22, 23, 24, 25, 26]),
    Shown(
        OFFICE,
        StateAdministrator,
        Mutation,
        &[21, 22, 23, 24, 25, 26],
    ),
    Shown(LENA, Conveyancer, Unit, &[HOUSE]),
    Shown(LENA, Conveyancer, Rrr, &[20]),
    Shown(LENA, Conveyancer, Party, &[NORA, LENA]),
    Shown(SAM, Conveyancer, Unit, &[]),
];

/// Returns the register with the farm, the house and their mutations.
fn with_mutations(alloc: Global) -> Result<Register, Stop> {
    farm_and_house_with(alloc, MUTATIONS)
}

fn fault_of_all(alloc: Global) -> Result<Option<Unsound>, Stop> {
    let register = with_mutations(alloc)?;
    fault(alloc, &register)
}

/// Checks that the register with the mutations is sound.
pub fn the_mutations_are_soundly_registered(alloc: Global) -> Result<(), Stop> {
    expect(fault_of_all(alloc)? == None, "the register", 0)
}

fn seen_of_all(alloc: Global, rows: &[Shown]) -> Result<usize, Stop> {
    let at = with_mutations(alloc)?;
    shown_rows(alloc, &at, rows)
}

fn expect_seen(alloc: Global, rows: &[Shown]) -> Result<(), Stop> {
    let shown = seen_of_all(alloc, rows)?;
    expect(shown == rows.len(), "row", shown)
}

/// Checks that lodgers and holders see mutations.
pub fn lodgers_and_holders_see_mutations(alloc: Global) -> Result<(), Stop> {
    expect_seen(alloc, SEEN)
}

fn lodging(alloc: Global, it: &Asked) -> Result<Ask, Stop> {
    Ok(Ask::Do(Act::Lodge(Lodging {
        reference: text(alloc, "X1")?,
        document: text(alloc, "Deed 2")?,
        content: content(alloc, it)?,
    })))
}

/// Returns the number of callers before the first with an unexpected verdict on a request, for the farm and
/// the house with their mutations.
fn told_rows(alloc: Global, ask: &Ask, rows: &[Row]) -> Result<usize, Stop> {
    let register = with_mutations(alloc)?;
    Ok(told_of(&register, ask, false, rows))
}

fn told_of_lodging(alloc: Global, it: &Asked, rows: &[Row]) -> Result<usize, Stop> {
    let ask = lodging(alloc, it)?;
    told_rows(alloc, &ask, rows)
}

/// A content, and the callers who may lodge it.
struct Lodgers(Asked, &'static [Row]);

const LODGERS: &[Lodgers] = &[
    Lodgers(
        Asked::Transfer(FARM, 15, SAM, 1, 2),
        &[
            Row(ANNA, Citizen, 5),
            Row(NORTH, Bank, 5),
            Row(SAM, CertifiedSurveyor, 5),
            Row(OFFICE, StateAdministrator, 5),
            Row(LENA, Conveyancer, 0),
            Row(NORA, Notary, 0),
        ],
    ),
    Lodgers(
        Asked::Mortgage(FARM, NORTH, 100, "EUR"),
        &[
            Row(NORTH, Citizen, 7),
            Row(LENA, Conveyancer, 7),
            Row(SAM, CertifiedSurveyor, 7),
            Row(OFFICE, StateAdministrator, 7),
            Row(NORTH, Bank, 0),
            Row(SOUTH, Bank, 8),
            Row(NORA, Notary, 0),
        ],
    ),
    Lodgers(
        Asked::Discharge(HOUSE, 18),
        &[
            Row(NORTH, Citizen, 7),
            Row(LENA, Conveyancer, 7),
            Row(OFFICE, StateAdministrator, 7),
            Row(NORTH, Bank, 0),
            Row(SOUTH, Bank, 9),
            Row(NORA, Notary, 0),
        ],
    ),
    Lodgers(
        Asked::Discharge(FARM, 17),
        &[Row(NORTH, Bank, 9), Row(NORA, Notary, 0)],
    ),
    Lodgers(
        Asked::Discharge(FARM, ABSENT),
        &[Row(NORTH, Bank, 9), Row(NORA, Notary, 0)],
    ),
];

/// Checks which callers may lodge each content.
pub fn roles_lodge_their_contents(alloc: Global) -> Result<(), Stop> {
    for (place, it) in LODGERS.iter().enumerate() {
        let told = told_of_lodging(alloc, &it.0, it.1)?;
        expect(told == it.1.len(), "row", told)?;
    }
    Ok(())
}

/// A mutation, and the callers who may approve it.
struct Deciders(u64, &'static [Row]);

const DECIDERS: &[Deciders] = &[
    Deciders(
        21,
        &[
            Row(NORTH, Bank, 4),
            Row(NORA, Notary, 4),
            Row(OFFICE, StateAdministrator, 0),
        ],
    ),
    Deciders(
        26,
        &[Row(NORA, Notary, 4), Row(OFFICE, StateAdministrator, 10)],
    ),
    Deciders(
        ABSENT,
        &[Row(NORA, Notary, 4), Row(OFFICE, StateAdministrator, 0)],
    ),
];

/// Returns the number of callers before the first with an unexpected verdict on a decision.
fn told_of_deciding(alloc: Global, act: Act, rows: &[Row]) -> Result<usize, Stop> {
    told_rows(alloc, &Ask::Do(act), rows)
}

/// Checks if the verdicts on an approval and on a refusal are as expected.
fn are_told(alloc: Global, it: &Deciders) -> Result<bool, Stop> {
    let decision = Decision { mutation: it.0 };
    let approving = told_of_deciding(alloc, Act::Approve(decision), it.1)?;
    let refusing = told_of_deciding(alloc, Act::Refuse(decision), it.1)?;
    Ok(approving == it.1.len() && refusing == it.1.len())
}

/// Checks that no party decides its own mutation.
pub fn no_party_decides_on_its_own_lodging(alloc: Global) -> Result<(), Stop> {
    for (place, it) in DECIDERS.iter().enumerate() {
        expect(are_told(alloc, it)?, "mutation", place)?;
    }
    Ok(())
}
