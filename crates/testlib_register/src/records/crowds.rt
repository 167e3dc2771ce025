//! How many members a group has, and how many parcels and entries a unit: at the limit, and just above it.
use super::garden::{DEED, GARDEN, SAM};
use super::{Part, WITH_GARDEN, fault_of};
use crate::facts::facts::{Fact, Held};
use land_core::kind::PartyKind::NaturalPerson;
use land_core::soundness::Unsound;
use std::alloc::{AllocError, Global};
use testlib_cases::stop::{Stop, expect};

/// The kind of object of which a register has many.
#[derive(Clone, Copy)]
enum Crowd {
    Parties,
    Parcels,
    Entries,
}

/// Returns one of many: a party, or a parcel or an entry of the garden.
fn one(crowd: Crowd, number: u64) -> Fact {
    match crowd {
        Crowd::Parties => Fact::Party(number, NaturalPerson, "Anna"),
        Crowd::Parcels => Fact::Parcel(number, GARDEN, "13", DEED),
        Crowd::Entries => Fact::Rrr(number, GARDEN, SAM, DEED, Held::Restriction),
    }
}

fn add_crowd(facts: &mut Vec<Fact>, crowd: Crowd, count: u64) -> Result<(), AllocError> {
    for place in 0..count {
        facts.push(one(crowd, place.saturating_add(20)))?;
    }
    facts.push(Fact::Next(1000))?;
    Ok(())
}

/// Returns this number of objects, with the numbers from 20 on, and 1000 as the next number.
fn crowd_of(alloc: Global, crowd: Crowd, count: u64) -> Result<Vec<Fact>, AllocError> {
    let mut facts = Vec::new(alloc);
    add_crowd(&mut facts, crowd, count)?;
    Ok(facts)
}

/// Returns the fault of a register with this number of further objects.
fn crowded(
    alloc: Global,
    base: &[Part],
    crowd: Crowd,
    count: u64,
) -> Result<Option<Unsound>, Stop> {
    let facts = crowd_of(alloc, crowd, count)?;
    fault_of(alloc, base, facts.as_slice())
}

const OF_64: &[Part] = &[Part::Of64];

const OF_65: &[Part] = &[Part::Of65];

/// Checks that a group has at most 64 members.
pub fn a_group_has_at_most_64_members(alloc: Global) -> Result<(), Stop> {
    let full = crowded(alloc, OF_64, Crowd::Parties, 64)?;
    let beyond = crowded(alloc, OF_65, Crowd::Parties, 65)?;
    expect(full == None && beyond == Some(Unsound::Group), "a crowd", 0)
}

/// Checks that a unit has at most 256 parcels. The garden has two parcels and six entries.
pub fn a_unit_has_at_most_256_parcels(alloc: Global) -> Result<(), Stop> {
    let full = crowded(alloc, WITH_GARDEN, Crowd::Parcels, 254)?;
    let beyond = crowded(alloc, WITH_GARDEN, Crowd::Parcels, 255)?;
    expect(
        full == None && beyond == Some(Unsound::Crowded),
        "a crowd",
        0,
    )
}

/// Checks that a unit has at most 256 entries.
pub fn a_unit_has_at_most_256_entries(alloc: Global) -> Result<(), Stop> {
    let full = crowded(alloc, WITH_GARDEN, Crowd::Entries, 250)?;
    let beyond = crowded(alloc, WITH_GARDEN, Crowd::Entries, 251)?;
    expect(
        full == None && beyond == Some(Unsound::Crowded),
        "a crowd",
        0,
    )
}
