//! Registers that are built from facts.
use crate::facts::facts::Fact;
use crate::facts::lodged::mutation;
use crate::facts::making::{crowd, members, parcel, party, rrr, source, unit};
use land_core::kind::Kind;
use land_core::mandates::{Mandate, Mandates};
use land_core::records::Records;
use land_core::register::Register;
use land_core::role::Role;
use land_core::roles::{Grant, Roles};
use land_core::soundness::Unsound;
use land_core::soundness::check::check;
use std::alloc::Global;
use testlib_cases::stop::Stop;

/// Inserts a record, if it could be allocated. Takes the result of the allocation, so that callers need no
/// early return.
fn enter<V: Drop>(
    records: &mut Records<V>,
    number: u64,
    record: Result<V, Stop>,
) -> Result<(), Stop> {
    Ok(records.insert(number, record?)?)
}

/// Inserts a role of a party.
fn grant(roles: &mut Roles, party: u64, role: Role) -> Result<(), Stop> {
    Ok(roles.insert(Grant { party, role })?)
}

/// Removes a role of a party.
fn revoke(roles: &mut Roles, party: u64, role: Role) -> Result<(), Stop> {
    roles.remove(Grant { party, role });
    Ok(())
}

/// Inserts a mandate.
fn give(mandates: &mut Mandates, principal: u64, agent: u64) -> Result<(), Stop> {
    Ok(mandates.insert(Mandate { principal, agent })?)
}

/// Removes a mandate.
fn withdraw(mandates: &mut Mandates, principal: u64, agent: u64) -> Result<(), Stop> {
    mandates.remove(Mandate { principal, agent });
    Ok(())
}

/// Sets the next number.
fn go_on_from(register: &mut Register, next: u64) -> Result<(), Stop> {
    register.next = next;
    Ok(())
}

/// Inserts a fact into a register.
fn tell(alloc: Global, register: &mut Register, fact: &Fact) -> Result<(), Stop> {
    match fact {
        Fact::Next(next) => go_on_from(register, *next),
        Fact::Party(number, kind, name) => {
            enter(&mut register.parties, *number, party(alloc, *kind, name))
        }
        Fact::Grant(party, role) => grant(&mut register.roles, *party, *role),
        Fact::Revoke(party, role) => revoke(&mut register.roles, *party, *role),
        Fact::Members(group, shares) => {
            enter(&mut register.members, *group, members(alloc, shares))
        }
        Fact::Crowd(group, count) => enter(&mut register.members, *group, crowd(alloc, *count)),
        Fact::Source(number) => enter(&mut register.sources, *number, source(alloc)),
        Fact::Unit(number, name, checked) => {
            enter(&mut register.units, *number, unit(alloc, name, *checked))
        }
        Fact::Parcel(number, unit, label, source) => {
            let parcel = parcel(alloc, *unit, label, *source);
            enter(&mut register.parcels, *number, parcel)
        }
        Fact::Rrr(number, unit, party, source, held) => {
            let entry = rrr(alloc, *unit, *party, *source, held);
            enter(&mut register.rrrs, *number, entry)
        }
        Fact::Mutation(number, lodged) => {
            enter(&mut register.mutations, *number, mutation(alloc, lodged))
        }
        Fact::Mandate(principal, agent) => give(&mut register.mandates, *principal, *agent),
        Fact::Withdrawn(principal, agent) => withdraw(&mut register.mandates, *principal, *agent),
        Fact::Ended(kind, number) => end(register, *kind, *number),
    }
}

/// Removes a parcel or an entry.
fn end(register: &mut Register, kind: Kind, number: u64) -> Result<(), Stop> {
    match kind {
        Kind::Parcel => register.parcels.remove(number),
        Kind::Rrr => register.rrrs.remove(number),
        _ => return Err(Stop::Unmade("an end")),
    }
    Ok(())
}

/// Inserts facts into a register, in order.
pub fn tell_all(alloc: Global, register: &mut Register, facts: &[Fact]) -> Result<(), Stop> {
    for fact in facts {
        tell(alloc, register, fact)?;
    }
    Ok(())
}

/// Returns the fault of a register, or `None`.
pub fn fault(alloc: Global, register: &Register) -> Result<Option<Unsound>, Stop> {
    match check(alloc, register) {
        Ok(()) => Ok(None),
        Err(Unsound::Memory) => Err(Stop::Memory),
        Err(fault) => Ok(Some(fault)),
    }
}
