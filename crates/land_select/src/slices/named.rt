//! The numbers that an act refers to.
ghost use Rattle.std.specs.Prelude.{◌≡◌, [], ◌∷◌, map as map_list, IfOk};
ghost use Rattle.land_select.specs.Slices.Named.{of_mutation, parties_of, parties_of_content, sources_of};
ghost use Rattle.land_select.specs.Slices.Named.{units_of, units_of_content};

use land_core::act::{Act, NewRight};
use land_core::content::Content;
use land_core::mandates::Mandate;
use land_core::member::Member;
use land_core::mutation::MutationRecord;
use land_core::records::Records;
use land_core::sequence::NumberList;
use std::alloc::{AllocError, Global};

/// Returns the parties of members.
fn parties_of_members(alloc: Global, members: &[Member]) -> Result<NumberList, AllocError>
    ensures { IfOk result (λ it. it ≡ map_list (λ member. member.party) members.now) }
{
    let mut parties = NumberList::new(alloc);
    for member in members {
        parties.push(member.party)?;
    }
    Ok(parties)
}

/// Returns a group and the parties of its new members.
fn group_and_members(
    alloc: Global,
    group: u64,
    members: &[Member],
) -> Result<NumberList, AllocError>
    ensures { IfOk result (λ it. it ≡ group ∷ map_list (λ member. member.party) members.now) }
{
    let mut parties = NumberList::of_one(alloc, group)?;
    for member in members {
        parties.push(member.party)?;
    }
    Ok(parties)
}

/// Returns the parties of first rights.
fn parties_of_rights(alloc: Global, rights: &[NewRight]) -> Result<NumberList, AllocError>
    ensures { IfOk result (λ it. it ≡ map_list (λ right. right.party) rights.now) }
{
    let mut parties = NumberList::new(alloc);
    for right in rights {
        parties.push(right.party)?;
    }
    Ok(parties)
}

/// Returns the two parties of a mandate.
fn principal_and_agent(alloc: Global, mandate: Mandate) -> Result<NumberList, AllocError>
    ensures { IfOk result (λ it. it ≡ mandate.principal ∷ mandate.agent ∷ []) }
{
    let mut parties = NumberList::of_one(alloc, mandate.principal)?;
    parties.push(mandate.agent)?;
    Ok(parties)
}

/// Returns the party that a content refers to, if any.
fn parties_of_content(alloc: Global, content: &Content) -> Result<NumberList, AllocError>
    ensures { IfOk result (λ it. it ≡ parties_of_content content.now) }
{
    match content {
        Content::Transfer(it) => NumberList::of_one(alloc, it.receiver),
        Content::Mortgage(it) => NumberList::of_one(alloc, it.creditor),
        Content::Subdivision(_) | Content::Merger(_) | Content::Discharge(_) => {
            Ok(NumberList::new(alloc))
        }
    }
}

/// Returns a unit and others.
fn unit_and_others(alloc: Global, unit: u64, others: &[u64]) -> Result<NumberList, AllocError>
    ensures { IfOk result (λ it. it ≡ unit ∷ others.now) }
{
    let mut units = NumberList::of_one(alloc, unit)?;
    for other in others {
        units.push(*other)?;
    }
    Ok(units)
}

/// Returns the units that a content refers to.
fn units_of_content(alloc: Global, content: &Content) -> Result<NumberList, AllocError>
    ensures { IfOk result (λ it. it ≡ units_of_content content.now) }
{
    match content {
        Content::Transfer(it) => NumberList::of_one(alloc, it.unit),
        Content::Subdivision(it) => NumberList::of_one(alloc, it.unit),
        Content::Merger(it) => unit_and_others(alloc, it.unit, it.others.as_slice()),
        Content::Mortgage(it) => NumberList::of_one(alloc, it.unit),
        Content::Discharge(it) => NumberList::of_one(alloc, it.unit),
    }
}

/// Returns the parties that an act refers to, itself or by the mutation that it decides. Fails if out of
/// memory.
pub(crate) fn parties_of(
    alloc: Global,
    act: &Act,
    mutations: &Records<MutationRecord>,
) -> Result<NumberList, AllocError>
    ensures { IfOk result (λ it. it ≡ parties_of act.now mutations.now) }
{
    match act {
        Act::Enrol(_) | Act::Lift(_) => Ok(NumberList::new(alloc)),
        Act::Group(it) => parties_of_members(alloc, it.members.as_slice()),
        Act::Regroup(it) => group_and_members(alloc, it.group, it.members.as_slice()),
        Act::Grant(it) | Act::Revoke(it) => NumberList::of_one(alloc, it.party),
        Act::Mandate(it) => NumberList::of_one(alloc, it.agent),
        Act::Withdraw(it) => principal_and_agent(alloc, *it),
        Act::Register(it) => parties_of_rights(alloc, it.rights.as_slice()),
        Act::Burden(it) => NumberList::of_one(alloc, it.party),
        Act::Lodge(it) => parties_of_content(alloc, &it.content),
        Act::Approve(it) | Act::Refuse(it) => match mutations.get(it.mutation) {
            Some(mutation) => parties_of_content(alloc, &mutation.content),
            None => Ok(NumberList::new(alloc)),
        },
    }
}

/// Returns the units that an act refers to, itself or by the mutation that it decides. Fails if out of
/// memory.
pub(crate) fn units_of(
    alloc: Global,
    act: &Act,
    mutations: &Records<MutationRecord>,
) -> Result<NumberList, AllocError>
    ensures { IfOk result (λ it. it ≡ units_of act.now mutations.now) }
{
    match act {
        Act::Burden(it) => NumberList::of_one(alloc, it.unit),
        Act::Lodge(it) => units_of_content(alloc, &it.content),
        Act::Approve(it) | Act::Refuse(it) => match mutations.get(it.mutation) {
            Some(mutation) => units_of_content(alloc, &mutation.content),
            None => Ok(NumberList::new(alloc)),
        },
        _ => Ok(NumberList::new(alloc)),
    }
}

/// Returns the sources of mutations. Fails if out of memory.
pub(crate) fn sources_of(
    alloc: Global,
    mutations: &Records<MutationRecord>,
) -> Result<NumberList, AllocError>
    ensures { IfOk result (λ it. it ≡ sources_of mutations.now) }
{
    let mut sources = NumberList::new(alloc);
    for (_, mutation) in mutations.iter() {
        sources.push(mutation.source)?;
    }
    Ok(sources)
}
