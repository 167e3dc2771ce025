//! A unit of 64 parcels and 64 rights, the maximum of a first registration.
use crate::conclusion::conclude;
use land_core::act::{Act, NewRight, NewUnit};
use land_core::ask::{Ask, Request};
use land_core::change::Done;
use land_core::kind::PartyKind::NaturalPerson;
use land_core::rrr::RightType;
use land_core::sequence::Sequence;
use land_fraction::Fraction;
use land_keep::reply::Reply;
use land_keep::view::{NamedRrr, View};
use std::alloc::{AllocError, Global};
use std::test::Fail;
use testlib_cases::asked::RowAct::Enrol;
use testlib_cases::asked::RowAsk::{Do, Sheet};
use testlib_cases::asked::{GARDEN, OFFICE, RowAsk, new_unit};
use testlib_cases::rows::{answered, request};
use testlib_cases::stop::{Stop, expect};

const ENROL: RowAsk = Do(Enrol(NaturalPerson, "Anna"));

/// The number of parties with rights: each has an ownership and a lease, and all but two have a usufruct.
const HOLDERS: u64 = 22;

/// Adds rights of one type whose shares sum to one.
fn add_rights(
    rights: &mut Sequence<NewRight>,
    right_type: RightType,
    count: u64,
) -> Result<(), Stop> {
    let share = Fraction::new(1, count)?;
    for place in 0..count {
        rights.push(NewRight {
            party: place.saturating_add(2),
            right_type,
            share,
        })?;
    }
    Ok(())
}

fn rights(alloc: Global) -> Result<Sequence<NewRight>, Stop> {
    let mut rights = Sequence::new(alloc);
    add_rights(&mut rights, RightType::Ownership, HOLDERS)?;
    add_rights(&mut rights, RightType::Lease, HOLDERS)?;
    add_rights(&mut rights, RightType::Usufruct, 20)?;
    Ok(rights)
}

fn registration(alloc: Global) -> Result<NewUnit, Stop> {
    let mut unit = new_unit(alloc, &GARDEN, true, 64, &[])?;
    unit.rights = rights(alloc)?;
    Ok(unit)
}

/// Returns the requests: the Land Office enrols the parties, registers the unit, and requests its title
/// sheet.
fn requests(alloc: Global) -> Result<Vec<Request>, Stop> {
    let mut requests = Vec::new(alloc);
    for _ in 0..HOLDERS {
        requests.push(request(alloc, OFFICE, &ENROL)?)?;
    }
    requests.push(Request {
        caller: OFFICE,
        ask: Ask::Do(Act::Register(registration(alloc)?)),
    })?;
    requests.push(request(alloc, OFFICE, &Sheet(25, None))?)?;
    Ok(requests)
}

/// Returns whether numbers are consecutive from the first one.
fn count_on(numbers: &[u64], first: u64) -> bool {
    let mut next = first;
    for number in numbers {
        if *number != next {
            return false;
        }
        next = next.saturating_add(1);
    }
    true
}

/// After parties 2 to 23: the source, the unit, the parcels 26 to 89, and the rights 90 to 153.
fn is_made(done: &Done) -> bool {
    let made = done.made.as_slice();
    done.number == 25 && done.stamp == 23 && made.len() == 130 && count_on(made, 24)
}

/// Returns whether the entries are those of the list, in its order: numbers from 90, of the parties 2 to 23,
/// repeatedly.
fn are_held(entries: &[NamedRrr]) -> bool {
    let mut number = 90u64;
    let mut party = 2u64;
    for entry in entries {
        if entry.rrr.number != number || entry.rrr.party != party {
            return false;
        }
        number = number.saturating_add(1);
        party = if party == 23 {
            2
        } else {
            party.saturating_add(1)
        };
    }
    true
}

fn is_shown(view: &View) -> bool {
    let entries = view.rrrs.as_slice();
    view.parcels.as_slice().len() == 64 && entries.len() == 64 && are_held(entries)
}

/// Returns whether the last two replies are the receipt and the sheet. If a reply is 501, memory ran out.
fn are_told(replies: &[Reply]) -> Result<bool, AllocError> {
    for reply in replies {
        if let Reply::Store(501) = reply {
            return Err(AllocError);
        }
    }
    match replies {
        [.., Reply::Done(done), Reply::Sheet(view)] => Ok(is_made(done) && is_shown(view)),
        _ => Ok(false),
    }
}

fn is_large(alloc: Global, requests: &[Request]) -> Result<bool, Stop> {
    let replies = answered(alloc, &[], requests)?;
    Ok(are_told(replies.as_slice())?)
}

fn is_registered(alloc: Global) -> Result<bool, Stop> {
    let requests = requests(alloc)?;
    is_large(alloc, requests.as_slice())
}

fn register(alloc: Global) -> Result<(), Stop> {
    expect(is_registered(alloc)?, "registration", 0)
}

#[test]
fn a_unit_has_64_parcels_and_64_rights(rt: HostRuntime) -> Result<(), Fail> {
    conclude(&rt, register(rt.alloc()))
}
