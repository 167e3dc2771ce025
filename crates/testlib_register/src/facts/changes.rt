//! Changes that are built from facts.
use crate::facts::facts::Fact;
use crate::facts::lodged::mutation;
use crate::facts::making::{members, parcel, party, rrr, source, unit};
use land_core::change::{Change, Ended, Put};
use land_core::kind::Kind;
use land_core::mandates::Mandate;
use land_core::role::Role;
use land_core::roles::Grant;
use land_core::sequence::{NumberList, Sequence};
use std::alloc::Global;
use testlib_cases::stop::Stop;

/// Adds a record to a change, if it could be allocated.
fn add<V: Drop>(
    list: &mut Sequence<(u64, V)>,
    number: u64,
    record: Result<V, Stop>,
) -> Result<(), Stop> {
    Ok(list.push((number, record?))?)
}

/// Adds a role of a party to a change.
fn begin(roles: &mut Sequence<Grant>, party: u64, role: Role) -> Result<(), Stop> {
    Ok(roles.push(Grant { party, role })?)
}

/// Adds a mandate to the given or to the withdrawn ones of a change.
fn name(mandates: &mut Sequence<Mandate>, principal: u64, agent: u64) -> Result<(), Stop> {
    Ok(mandates.push(Mandate { principal, agent })?)
}

/// Adds the record of a fact to a change.
fn put(alloc: Global, put: &mut Put, fact: &Fact) -> Result<(), Stop> {
    match fact {
        Fact::Party(number, kind, name) => {
            add(&mut put.parties, *number, party(alloc, *kind, name))
        }
        Fact::Grant(party, role) => begin(&mut put.roles, *party, *role),
        Fact::Members(group, shares) => add(&mut put.members, *group, members(alloc, shares)),
        Fact::Source(number) => add(&mut put.sources, *number, source(alloc)),
        Fact::Unit(number, name, checked) => {
            add(&mut put.units, *number, unit(alloc, name, *checked))
        }
        Fact::Parcel(number, unit, label, source) => {
            let parcel = parcel(alloc, *unit, label, *source);
            add(&mut put.parcels, *number, parcel)
        }
        Fact::Rrr(number, unit, party, source, held) => {
            let entry = rrr(alloc, *unit, *party, *source, held);
            add(&mut put.rrrs, *number, entry)
        }
        Fact::Mutation(number, lodged) => {
            add(&mut put.mutations, *number, mutation(alloc, lodged))
        }
        Fact::Mandate(principal, agent) => name(&mut put.mandates, *principal, *agent),
        _ => Err(Stop::Unmade("a change")),
    }
}

/// Adds a number to the removed ones of a change.
fn end_number(numbers: &mut NumberList, number: u64) -> Result<(), Stop> {
    Ok(numbers.push(number)?)
}

/// Adds a group and its members to the removed ones of a change.
fn end_group(ended: &mut Ended, number: u64) -> Result<(), Stop> {
    ended.members.push(number)?;
    end_number(&mut ended.parties, number)
}

/// Adds an object to the removed ones of a change; a party is a group.
fn ending(ended: &mut Ended, kind: Kind, number: u64) -> Result<(), Stop> {
    match kind {
        Kind::Party => end_group(ended, number),
        Kind::Unit => end_number(&mut ended.units, number),
        Kind::Parcel => end_number(&mut ended.parcels, number),
        Kind::Rrr => end_number(&mut ended.rrrs, number),
        Kind::Source => end_number(&mut ended.sources, number),
        Kind::Mutation => end_number(&mut ended.mutations, number),
    }
}

/// Adds a fact to a change.
fn change_by(alloc: Global, change: &mut Change, fact: &Fact) -> Result<(), Stop> {
    match fact {
        Fact::Ended(kind, number) => ending(&mut change.ended, *kind, *number),
        Fact::Withdrawn(principal, agent) => name(&mut change.ended.mandates, *principal, *agent),
        fact => put(alloc, &mut change.put, fact),
    }
}

/// Adds facts to a change.
pub fn change_all(alloc: Global, change: &mut Change, facts: &[Fact]) -> Result<(), Stop> {
    for fact in facts {
        change_by(alloc, change, fact)?;
    }
    Ok(())
}
