//! The check that a register is sound.
ghost use Rattle.std.specs.Prelude.{◌≡◌, ◌≢◌, true, IfOk, OnOk, IfErr};
ghost use Rattle.land_core.specs.Members.{are_group_shares};
ghost use Rattle.land_core.specs.Register.{shares_of};
ghost use Rattle.land_core.specs.Soundness.{IsSound, has_fault, has_unused, has_unused_number};
ghost use Rattle.land_core.specs.Soundness.{has_dangling_grant, has_dangling_mandate, has_dangling_members};
ghost use Rattle.land_core.specs.Soundness.{has_dangling_parcel, has_dangling_rrr, is_dangling_mandate};
ghost use Rattle.land_core.specs.Soundness.{are_dangling_members};
ghost use Rattle.land_core.specs.Soundness.{has_dangling_member, has_broken_group, has_administrator};
ghost use Rattle.land_core.specs.Soundness.{is_used};

use crate::kind::{Kind, PartyKind};
use crate::limits::LAST_NEXT;
use crate::mandates::Mandate;
use crate::member::{Members, shares_of};
use crate::records::Records;
use crate::register::Register;
use crate::role::Role;
use crate::soundness::Unsound;
use crate::soundness::mutations::{has_dangling_mutation, has_reused_reference};
use crate::soundness::units::check_units;
use land_fraction::{Fraction, Whole, is_whole};
use std::alloc::{AllocError, Global};

/// Checks that the register is sound. The error is a fault that it has, or `Memory` if out of memory.
pub fn check(alloc: Global, register: &Register) -> Result<(), Unsound>
    ensures ok { OnOk result (IsSound register.now) }
    ensures fault { IfErr result (λ fault. fault ≢ Unsound.Memory → has_fault fault register.now ≡ true) }
{
    if has_reference_fault(register) {
        return Err(Unsound::Reference);
    }
    if has_broken_group(alloc, register)? {
        return Err(Unsound::Group);
    }
    if !has_administrator(register) {
        return Err(Unsound::Administrator);
    }
    if has_reused_reference(alloc, register)? {
        return Err(Unsound::Reused);
    }
    check_units(alloc, register)
}

fn has_reference_fault(register: &Register) -> bool
    ensures { result ≡ has_fault Unsound.Reference register.now }
{
    register.next > LAST_NEXT
        || has_unused_number(register)
        || has_dangling_grant(register)
        || has_dangling_members(register)
        || has_dangling_parcel(register)
        || has_dangling_rrr(register)
        || has_dangling_mutation(register)
        || has_dangling_mandate(register)
}

fn has_unused_number(register: &Register) -> bool
    ensures { result ≡ has_unused_number register.now }
{
    has_unused(register, &register.parties)
        || has_unused(register, &register.units)
        || has_unused(register, &register.parcels)
        || has_unused(register, &register.rrrs)
        || has_unused(register, &register.sources)
        || has_unused(register, &register.mutations)
}

fn has_unused<T>(register: &Register, records: &Records<T>) -> bool
    ensures { result ≡ has_unused register.now records.now }
{
    records
        .iter()
        .any(|(number, _)| !is_used(register, *number))
}

fn has_dangling_parcel(register: &Register) -> bool
    ensures { result ≡ has_dangling_parcel register.now }
{
    register.parcels.iter().any(|(_, parcel)| {
        !(register.stands(Kind::Unit, parcel.unit) && register.stands(Kind::Source, parcel.source))
    })
}

fn has_dangling_rrr(register: &Register) -> bool
    ensures { result ≡ has_dangling_rrr register.now }
{
    register.rrrs.iter().any(|(_, entry)| {
        !(register.stands(Kind::Unit, entry.unit)
            && register.stands(Kind::Party, entry.party)
            && register.stands(Kind::Source, entry.source))
    })
}

fn has_dangling_grant(register: &Register) -> bool
    ensures { result ≡ has_dangling_grant register.now }
{
    register
        .roles
        .iter()
        .any(|grant| !register.has_single_party(grant.party))
}

fn has_dangling_mandate(register: &Register) -> bool
    ensures { result ≡ has_dangling_mandate register.now }
{
    register
        .mandates
        .iter()
        .any(|mandate| is_dangling_mandate(register, *mandate))
}

/// Checks if a mandate is not between two different single parties that exist.
fn is_dangling_mandate(register: &Register, mandate: Mandate) -> bool
    ensures { result ≡ is_dangling_mandate register.now mandate }
{
    !(register.has_single_party(mandate.principal)
        && register.has_single_party(mandate.agent)
        && mandate.principal != mandate.agent)
}

fn has_dangling_members(register: &Register) -> bool
    ensures { result ≡ has_dangling_members register.now }
{
    register.members.iter().any(|(group, members)| are_dangling_members(register, *group, members))
}

fn are_dangling_members(register: &Register, group: u64, members: &Members) -> bool
    ensures { result ≡ are_dangling_members register.now group members.now }
{
    !register.has_group(group) || has_dangling_member(register, members)
}

fn has_dangling_member(register: &Register, members: &Members) -> bool
    ensures { result ≡ has_dangling_member register.now members.now }
{
    members
        .iter()
        .any(|(party, _)| !register.has_single_party(*party))
}

fn has_broken_group(alloc: Global, register: &Register) -> Result<bool, AllocError>
    ensures { IfOk result (λ it. it ≡ has_broken_group register.now) }
{
    for (number, party) in register.parties.iter() {
        if party.kind == PartyKind::Group && !is_whole_group(alloc, register, *number)? {
            return Ok(true);
        }
    }
    Ok(false)
}

/// Checks if a group has 2 to 64 members whose shares sum to 1.
fn is_whole_group(alloc: Global, register: &Register, group: u64) -> Result<bool, AllocError>
    ensures { IfOk result (λ it. it ≡ are_group_shares (shares_of register.now group)) }
{
    match register.members.get(group) {
        Some(members) => {
            let shares = shares_of(alloc, members)?;
            Ok(are_group_shares(shares.as_slice()))
        }
        None => Ok(false),
    }
}

/// Checks if these are 2 to 64 shares that sum to 1.
fn are_group_shares(shares: &[Fraction]) -> bool
    ensures { result ≡ are_group_shares shares.now }
{
    2 <= shares.len() && shares.len() <= 64 && is_whole(shares) == Whole::Yes
}

fn has_administrator(register: &Register) -> bool
    ensures { result ≡ has_administrator register.now }
{
    register
        .roles
        .iter()
        .any(|grant| grant.role == Role::StateAdministrator)
}

pub(crate) fn is_used(register: &Register, number: u64) -> bool
    ensures { result ≡ is_used register.now number }
{
    0 < number && number < register.next
}
