//! Who may lodge subdivisions and mergers, and who sees them and their units.
use super::lists::{Row as Shown, shown_rows};
use super::standing::{Row, told_of};
use super::{
    ANNA, DEED, FARM, HOUSE, LENA, NORA, NORTH, OFFICE, SAM, farm_and_house, farm_and_house_with,
};
use crate::facts::facts::{Fact, SQUARE};
use crate::facts::lodged::MOMENT;
use crate::facts::making::text;
use crate::facts::registers::fault;
use land_core::act::{Act, Lodging, NewParcel};
use land_core::ask::Ask;
use land_core::content::Content;
use land_core::kind::Kind::{Mutation, Party, Rrr, Unit};
use land_core::merger::Merger;
use land_core::mutation::{MutationRecord, MutationState};
use land_core::register::Register;
use land_core::role::Role::{
    Bank, CertifiedSurveyor, Citizen, Conveyancer, Notary, StateAdministrator,
};
use land_core::sequence::{NumberList, Sequence};
use land_core::subdivision::{Part, Subdivision};
use land_shape::read_wkt;
use std::alloc::{AllocError, Global};
use testlib_cases::stop::{Stop, expect};

/// A content that a surveyor lodges.
enum Surveyed {
    /// A unit and a parcel, which is divided into a part that stays and one for a new unit.
    Subdivision(u64, u64),
    /// A unit, other units, and the parcels that become one.
    Merger(u64, &'static [u64], &'static [u64]),
}

fn first(alloc: Global) -> Result<NewParcel, Stop> {
    Ok(NewParcel {
        label: text(alloc, "1/1a")?,
        outline: read_wkt(alloc, SQUARE)?,
    })
}

fn part(alloc: Global) -> Result<Part, Stop> {
    Ok(Part {
        label: text(alloc, "1/1b")?,
        outline: read_wkt(alloc, SQUARE)?,
        unit: Some(text(alloc, "Orchard")?),
    })
}

fn subdivision(alloc: Global, unit: u64, parcel: u64) -> Result<Subdivision, Stop> {
    Ok(Subdivision {
        unit,
        parcel,
        first: first(alloc)?,
        rest: Sequence::of_one(alloc, part(alloc)?)?,
    })
}

fn numbers(alloc: Global, numbers: &[u64]) -> Result<NumberList, AllocError> {
    let mut list = Sequence::new(alloc);
    for number in numbers {
        list.push(*number)?;
    }
    Ok(list)
}

fn merger(alloc: Global, unit: u64, others: &[u64], parcels: &[u64]) -> Result<Merger, Stop> {
    Ok(Merger {
        unit,
        others: numbers(alloc, others)?,
        parcels: numbers(alloc, parcels)?,
        label: text(alloc, "1/1c")?,
        outline: read_wkt(alloc, SQUARE)?,
    })
}

fn content(alloc: Global, it: &Surveyed) -> Result<Content, Stop> {
    Ok(match it {
        Surveyed::Subdivision(unit, parcel) => {
            Content::Subdivision(subdivision(alloc, *unit, *parcel)?)
        }
        Surveyed::Merger(unit, others, parcels) => {
            Content::Merger(merger(alloc, *unit, others, parcels)?)
        }
    })
}

// ---- lodging

fn lodging(alloc: Global, it: &Surveyed) -> Result<Ask, Stop> {
    Ok(Ask::Do(Act::Lodge(Lodging {
        reference: text(alloc, "S1")?,
        document: text(alloc, "Plan 1")?,
        content: content(alloc, it)?,
    })))
}

const LODGED: &[Surveyed] = &[
    Surveyed::Subdivision(HOUSE, 13),
    Surveyed::Merger(HOUSE, &[FARM], &[12, 13]),
];

const LODGERS: &[Row] = &[
    Row(ANNA, Citizen, 6),
    Row(LENA, Conveyancer, 6),
    Row(NORA, Notary, 6),
    Row(NORTH, Bank, 6),
    Row(OFFICE, StateAdministrator, 6),
    Row(SAM, CertifiedSurveyor, 0),
];

/// Returns the number of callers before the first with an unexpected verdict on a request, for the farm and
/// the house.
fn told_rows(alloc: Global, ask: &Ask, rows: &[Row]) -> Result<usize, Stop> {
    let register = farm_and_house(alloc)?;
    Ok(told_of(&register, ask, false, rows))
}

fn told_of_lodging(alloc: Global, it: &Surveyed, rows: &[Row]) -> Result<usize, Stop> {
    let ask = lodging(alloc, it)?;
    told_rows(alloc, &ask, rows)
}

fn expect_lodged(alloc: Global, contents: &[Surveyed], rows: &[Row]) -> Result<(), Stop> {
    for (place, it) in contents.iter().enumerate() {
        let told = told_of_lodging(alloc, it, rows)?;
        expect(told == rows.len(), "row", told)?;
    }
    Ok(())
}

/// Checks that surveyors lodge subdivisions and mergers.
pub fn surveyors_lodge_subdivisions_and_mergers(alloc: Global) -> Result<(), Stop> {
    expect_lodged(alloc, LODGED, LODGERS)
}

// ---- visibility

/// The house is subdivided (21), merged with the farm (22), and merged with no other unit (23); the last has
/// the farm's number as that of a parcel.
const SURVEYED: &[(u64, &str, Surveyed)] = &[
    (21, "S1", Surveyed::Subdivision(HOUSE, 13)),
    (22, "S2", Surveyed::Merger(HOUSE, &[FARM], &[12, 13])),
    (23, "S3", Surveyed::Merger(HOUSE, &[], &[FARM, 13])),
];

fn mutation(alloc: Global, reference: &str, it: &Surveyed) -> Result<MutationRecord, Stop> {
    Ok(MutationRecord {
        lodger: SAM,
        reference: text(alloc, reference)?,
        source: DEED,
        lodged: MOMENT,
        state: MutationState::Lodged,
        content: content(alloc, it)?,
    })
}

fn lodge_all(alloc: Global, register: &mut Register) -> Result<(), Stop> {
    for (number, reference, it) in SURVEYED {
        register
            .mutations
            .insert(*number, mutation(alloc, reference, it)?)?;
    }
    Ok(())
}

/// Returns the farm and the house, with Sam's mutations.
fn farm_and_house_surveyed(alloc: Global) -> Result<Register, Stop> {
    let mut register = farm_and_house_with(alloc, &[Fact::Next(24)])?;
    lodge_all(alloc, &mut register)?;
    Ok(register)
}

fn is_sound(alloc: Global) -> Result<bool, Stop> {
    let register = farm_and_house_surveyed(alloc)?;
    Ok(fault(alloc, &register)? == None)
}

/// Checks that the register with Sam's mutations is sound.
pub fn surveyed_parcels_are_soundly_registered(alloc: Global) -> Result<(), Stop> {
    expect(is_sound(alloc)?, "the register", 0)
}

const SEEN: &[Shown] = &[
    Shown(SAM, CertifiedSurveyor, Mutation, &[21, 22, 23]),
    Shown(SAM, CertifiedSurveyor, Unit, &[]),
    Shown(SAM, Conveyancer, Unit, &[FARM, HOUSE]),
    Shown(SAM, Conveyancer, Rrr, &[15, 16, 17, 18, 19, 20]),
    Shown(SAM, Conveyancer, Party, &[1, 4, 5, 6, 7, 8, SAM]),
    Shown(LENA, Conveyancer, Mutation, &[]),
    Shown(LENA, Conveyancer, Unit, &[]),
    Shown(ANNA, Citizen, Mutation, &[22]),
    Shown(LENA, Citizen, Mutation, &[22]),
    Shown(NORA, Citizen, Mutation, &[21, 22, 23]),
    Shown(OFFICE, Citizen, Mutation, &[]),
    Shown(NORTH, Bank, Mutation, &[]),
    Shown(NORA, Notary, Mutation, &[21, 22, 23]),
];

fn seen_of_all(alloc: Global, rows: &[Shown]) -> Result<usize, Stop> {
    let at = farm_and_house_surveyed(alloc)?;
    shown_rows(alloc, &at, rows)
}

fn expect_seen(alloc: Global, rows: &[Shown]) -> Result<(), Stop> {
    let shown = seen_of_all(alloc, rows)?;
    expect(shown == rows.len(), "row", shown)
}

/// Checks that holders in the other units see mergers.
pub fn holders_in_other_units_see_mergers(alloc: Global) -> Result<(), Stop> {
    expect_seen(alloc, SEEN)
}

/// A mutation, and the callers who see it.
const TOLD: &[(u64, &[Row])] = &[
    (
        21,
        &[
            Row(ANNA, Citizen, 14),
            Row(NORA, Citizen, 0),
            Row(SAM, CertifiedSurveyor, 0),
        ],
    ),
    (
        22,
        &[
            Row(ANNA, Citizen, 0),
            Row(LENA, Citizen, 0),
            Row(NORA, Citizen, 0),
            Row(OFFICE, Citizen, 14),
            Row(NORTH, Bank, 18),
            Row(LENA, Conveyancer, 22),
            Row(SAM, CertifiedSurveyor, 0),
        ],
    ),
    (23, &[Row(ANNA, Citizen, 14), Row(NORA, Citizen, 0)]),
];

fn view(number: u64) -> Ask {
    Ask::View {
        kind: Mutation,
        number,
        at: None,
    }
}

/// Checks if the verdicts on the view of a mutation are as expected.
fn are_told(register: &Register, number: u64, rows: &[Row]) -> bool {
    let ask = view(number);
    told_of(register, &ask, false, rows) == rows.len()
}

fn all_are_told(alloc: Global) -> Result<bool, Stop> {
    let register = farm_and_house_surveyed(alloc)?;
    Ok(TOLD.iter().all(|it| are_told(&register, it.0, it.1)))
}

/// Checks that a merger is visible by each unit to which it refers.
pub fn a_merger_is_shown_by_each_unit_that_it_names(alloc: Global) -> Result<(), Stop> {
    expect(all_are_told(alloc)?, "mergers", 0)
}
