//! Slices: the records that planning an act may read.
ghost use Rattle.std.specs.Prelude.{◌≡◌, ◌&&◌, nat_eq, IfOk};
ghost use Rattle.land_acts.specs.Slices.{content_names_party, includes_party, includes_rrr, includes_unit};
ghost use Rattle.land_acts.specs.Slices.{is_same_mandate, mutations_in_slice, names_mandate, names_party};
ghost use Rattle.land_acts.specs.Slices.{names_rrr, names_unit, needed_slice_of, reads_mutation};
ghost use Rattle.land_acts.specs.Slices.{slice_of, slice_with};
ghost use Rattle.land_core.specs.Entries.{entries_where, some};

use crate::first_rights::rights_list_party;
use crate::mandate::mandate_of_caller;
pub use crate::mutations::planning::Slice;
use crate::sharing::lists_party;
use crate::slice_parts::{SliceParts, needed_parts};
use land_core::act::Act;
use land_core::caller::Caller;
use land_core::content::Content;
use land_core::duplicate::Duplicate;
use land_core::mandates::{Mandate, Mandates};
use land_core::mutation::MutationRecord;
use land_core::parcel::ParcelRecord;
use land_core::records::Records;
use land_core::register::Register;
use land_core::role::Role;
use land_core::roles::Roles;
use land_core::rrr::RrrRecord;
use land_core::source::SourceRecord;
use land_core::unit::UnitRecord;
use std::alloc::{AllocError, Global};

/// Returns the slice of a register for an act: the parties to which the act or the mutation that it decides
/// refers, and all state administrators, each with its roles and members; the units to which it refers, with
/// their parcels and entries; the entry of a lift; the mutation that the act decides, or that its caller
/// lodged under its reference, with its source; the mandate that it gives or withdraws; and the next number.
/// The only error is out of memory.
pub fn slice_of(
    alloc: Global,
    register: &Register,
    caller: Caller,
    act: &Act,
) -> Result<Slice, AllocError>
    ensures { IfOk result (λ it. it ≡ slice_of register.now caller act.now) }
{
    let mutations = mutations_in_slice(alloc, register, caller, act)?;
    slice_with(alloc, register, caller, act, SliceParts::all(), mutations)
}

/// Returns the part of the slice on which the outcome of the act depends. The only error is out of memory.
pub fn needed_slice_of(
    alloc: Global,
    register: &Register,
    caller: Caller,
    act: &Act,
) -> Result<Slice, AllocError>
    ensures { IfOk result (λ it. it ≡ needed_slice_of register.now caller act.now) }
{
    let mutations = mutations_in_slice(alloc, register, caller, act)?;
    let parts = needed_parts(&mutations, act);
    slice_with(alloc, register, caller, act, parts, mutations)
}

/// Returns these parts of the slice, whose mutations are known.
fn slice_with(
    alloc: Global,
    register: &Register,
    caller: Caller,
    act: &Act,
    parts: SliceParts,
    mutations: Records<MutationRecord>,
) -> Result<Slice, AllocError>
    ensures { mutations ≡ mutations_in_slice register.now caller act.now
        → IfOk result (λ it. it ≡ slice_with parts register.now caller act.now) }
{
    Ok(Register {
        parties: records_in_slice(alloc, &register.parties, register, act, parts, true)?,
        roles: roles_in_slice(alloc, register, act, parts)?,
        members: records_in_slice(
            alloc,
            &register.members,
            register,
            act,
            parts,
            parts.members,
        )?,
        units: units_in_slice(alloc, register, act, parts)?,
        parcels: parcels_in_slice(alloc, register, act, parts)?,
        rrrs: rrrs_in_slice(alloc, register, act, parts)?,
        sources: sources_of(alloc, register, &mutations, parts.sources)?,
        mutations,
        mandates: mandates_in_slice(alloc, register, caller, act)?,
        next: register.next,
    })
}

/// Returns the records in the slice, of a map by the numbers of parties; none of them if `is_included` is
/// false.
fn records_in_slice<T: Duplicate>(
    alloc: Global,
    records: &Records<T>,
    register: &Register,
    act: &Act,
    parts: SliceParts,
    is_included: bool,
) -> Result<Records<T>, AllocError>
    ensures { IfOk result (λ it. it ≡ entries_where
        (λ n value. is_included && includes_party parts register.now act.now n) records.now) }
{
    let mut kept = Records::new(alloc);
    for (number, record) in records.iter() {
        if is_included && includes_party(register, act, *number, parts) {
            kept.insert(*number, record.copy(alloc)?)?;
        }
    }
    Ok(kept)
}

fn roles_in_slice(
    alloc: Global,
    register: &Register,
    act: &Act,
    parts: SliceParts,
) -> Result<Roles, AllocError>
    ensures { IfOk result (λ it. it ≡ entries_where
        (λ grant u. parts.roles && includes_party parts register.now act.now grant.party)
        register.now.roles) }
{
    let mut kept = Roles::new(alloc);
    for grant in register.roles.iter() {
        if parts.roles && includes_party(register, act, grant.party, parts) {
            kept.insert(*grant)?;
        }
    }
    Ok(kept)
}

fn units_in_slice(
    alloc: Global,
    register: &Register,
    act: &Act,
    parts: SliceParts,
) -> Result<Records<UnitRecord>, AllocError>
    ensures { IfOk result (λ it. it ≡ entries_where
        (λ n u. includes_unit parts register.now act.now n) register.now.units) }
{
    let mut kept = Records::new(alloc);
    for (number, unit) in register.units.iter() {
        if includes_unit(register, act, *number, parts) {
            kept.insert(*number, unit.copy(alloc)?)?;
        }
    }
    Ok(kept)
}

fn parcels_in_slice(
    alloc: Global,
    register: &Register,
    act: &Act,
    parts: SliceParts,
) -> Result<Records<ParcelRecord>, AllocError>
    ensures { IfOk result (λ it. it ≡ entries_where
        (λ n p. parts.parcels && includes_unit parts register.now act.now p.unit) register.now.parcels) }
{
    let mut kept = Records::new(alloc);
    for (number, parcel) in register.parcels.iter() {
        if parts.parcels && includes_unit(register, act, parcel.unit, parts) {
            kept.insert(*number, parcel.copy(alloc)?)?;
        }
    }
    Ok(kept)
}

fn rrrs_in_slice(
    alloc: Global,
    register: &Register,
    act: &Act,
    parts: SliceParts,
) -> Result<Records<RrrRecord>, AllocError>
    ensures { IfOk result (λ it. it ≡ entries_where
        (λ n e. includes_rrr parts register.now act.now n e) register.now.rrrs) }
{
    let mut kept = Records::new(alloc);
    for (number, entry) in register.rrrs.iter() {
        if includes_rrr(register, act, *number, entry, parts) {
            kept.insert(*number, entry.copy(alloc)?)?;
        }
    }
    Ok(kept)
}

fn mutations_in_slice(
    alloc: Global,
    register: &Register,
    caller: Caller,
    act: &Act,
) -> Result<Records<MutationRecord>, AllocError>
    ensures { IfOk result (λ it. it ≡ mutations_in_slice register.now caller act.now) }
{
    let mut kept = Records::new(alloc);
    for (number, mutation) in register.mutations.iter() {
        if reads_mutation(caller, act, *number, mutation) {
            kept.insert(*number, mutation.copy(alloc)?)?;
        }
    }
    Ok(kept)
}

/// Returns the sources of these mutations; none of them if `is_included` is false.
fn sources_of(
    alloc: Global,
    register: &Register,
    mutations: &Records<MutationRecord>,
    is_included: bool,
) -> Result<Records<SourceRecord>, AllocError>
    ensures { IfOk result (λ it. it ≡ entries_where
        (λ n s. is_included && some (λ k m. nat_eq m.source n) mutations.now) register.now.sources) }
{
    let mut kept = Records::new(alloc);
    for (number, source) in register.sources.iter() {
        if is_included && is_source_of(mutations, *number) {
            kept.insert(*number, source.copy(alloc)?)?;
        }
    }
    Ok(kept)
}

/// Returns whether one of these mutations has this source.
fn is_source_of(mutations: &Records<MutationRecord>, source: u64) -> bool
    ensures { result ≡ some (λ k m. nat_eq m.source source) mutations.now }
{
    mutations
        .iter()
        .any(|(_, mutation)| mutation.source == source)
}

/// Returns the mandate that an act gives or withdraws, if it exists.
fn mandates_in_slice(
    alloc: Global,
    register: &Register,
    caller: Caller,
    act: &Act,
) -> Result<Mandates, AllocError>
    ensures { IfOk result
        (λ it. it ≡ entries_where (λ mandate u. names_mandate caller act.now mandate) register.now.mandates) }
{
    let mut kept = Mandates::new(alloc);
    for mandate in register.mandates.iter() {
        if names_mandate(caller, act, *mandate) {
            kept.insert(*mandate)?;
        }
    }
    Ok(kept)
}

fn names_mandate(caller: Caller, act: &Act, mandate: Mandate) -> bool
    ensures { result ≡ names_mandate caller act.now mandate }
{
    match act {
        Act::Mandate(it) => is_same_mandate(mandate_of_caller(caller, it), mandate),
        Act::Withdraw(it) => is_same_mandate(*it, mandate),
        _ => false,
    }
}

/// Returns whether two mandates have the same principal and the same agent.
fn is_same_mandate(it: Mandate, mandate: Mandate) -> bool
    ensures { result ≡ is_same_mandate it mandate }
{
    mandate.principal == it.principal && mandate.agent == it.agent
}

fn reads_mutation(caller: Caller, act: &Act, number: u64, mutation: &MutationRecord) -> bool
    ensures { result ≡ reads_mutation caller act.now number mutation.now }
{
    match act {
        Act::Lodge(it) => mutation.is_lodged_as(caller.party, it.reference.as_str()),
        Act::Approve(it) | Act::Refuse(it) => number == it.mutation,
        _ => false,
    }
}

/// Returns whether these parts of the slice include a party.
fn includes_party(register: &Register, act: &Act, party: u64, parts: SliceParts) -> bool
    ensures { result ≡ includes_party parts register.now act.now party }
{
    parts.parties && names_party(register, act, party)
        || parts.administrators && register.holds(party, Role::StateAdministrator)
}

fn names_party(register: &Register, act: &Act, party: u64) -> bool
    ensures { result ≡ names_party register.now act.now party }
{
    match act {
        Act::Enrol(_) => false,
        Act::Group(it) => lists_party(it.members.as_slice(), party),
        Act::Regroup(it) => party == it.group || lists_party(it.members.as_slice(), party),
        Act::Grant(it) | Act::Revoke(it) => party == it.party,
        Act::Mandate(it) => party == it.agent,
        Act::Withdraw(it) => party == it.principal || party == it.agent,
        Act::Register(it) => rights_list_party(it.rights.as_slice(), party),
        Act::Burden(it) => party == it.party,
        Act::Lift(_) => false,
        Act::Lodge(it) => content_names_party(&it.content, party),
        Act::Approve(it) | Act::Refuse(it) => match register.mutations.get(it.mutation) {
            Some(mutation) => content_names_party(&mutation.content, party),
            None => false,
        },
    }
}

/// Returns whether a content refers to a party: the receiver of a transfer, or the creditor of a mortgage.
fn content_names_party(content: &Content, party: u64) -> bool
    ensures { result ≡ content_names_party party content.now }
{
    match content {
        Content::Transfer(it) => party == it.receiver,
        Content::Mortgage(it) => party == it.creditor,
        Content::Subdivision(_) | Content::Merger(_) | Content::Discharge(_) => false,
    }
}

/// Returns whether these parts of the slice include an entry.
fn includes_rrr(
    register: &Register,
    act: &Act,
    number: u64,
    entry: &RrrRecord,
    parts: SliceParts,
) -> bool
    ensures { result ≡ includes_rrr parts register.now act.now number entry.now }
{
    includes_unit(register, act, entry.unit, parts) || names_rrr(register, act, number)
}

/// Returns whether these parts of the slice include a unit.
fn includes_unit(register: &Register, act: &Act, unit: u64, parts: SliceParts) -> bool
    ensures { result ≡ includes_unit parts register.now act.now unit }
{
    parts.units && names_unit(register, act, unit)
}

fn names_unit(register: &Register, act: &Act, unit: u64) -> bool
    ensures { result ≡ names_unit register.now act.now unit }
{
    match act {
        Act::Burden(it) => unit == it.unit,
        Act::Lodge(it) => it.content.names_unit(unit),
        Act::Approve(it) | Act::Refuse(it) => match register.mutations.get(it.mutation) {
            Some(mutation) => mutation.content.names_unit(unit),
            None => false,
        },
        _ => false,
    }
}

fn names_rrr(register: &Register, act: &Act, number: u64) -> bool
    ensures { result ≡ names_rrr register.now act.now number }
{
    match act {
        Act::Lift(it) => number == it.rrr,
        _ => false,
    }
}
