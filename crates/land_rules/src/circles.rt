//! The circle of a party: the party itself and its principals, which are the parties whose mandates it has as
//! agent. Most functions here return whether one member of the circle has a relation to an object of the
//! register.
ghost use Rattle.std.specs.Prelude.{◌≡◌, ℕ, nat_eq, IfOk};
ghost use Rattle.std.specs.List.{list_any};
ghost use Rattle.land_rules.specs.Circles.{circle_of, is_group_of, is_held_by, is_in_circle, is_owned_by};
ghost use Rattle.land_rules.specs.Circles.{is_visible_to_circle, names_held_by, principals_of};
ghost use Rattle.land_rules.specs.Holdings.{has_number};

use crate::relations::{is_holder, is_member_of, is_mortgage, is_owner};
use land_core::content::Content;
use land_core::mandates::Mandate;
use land_core::mutation::MutationRecord;
use land_core::register::Register;
use land_core::rrr::RrrRecord;
use std::alloc::{AllocError, Global};
use std::collections::BTreeSet;

/// Returns the circle of a party, in one pass over the mandates. The only error is out of memory.
pub(crate) fn circle_of(
    alloc: Global,
    at: &Register,
    party: u64,
) -> Result<BTreeSet<u64>, AllocError>
    ensures { IfOk result (λ it. (number : ℕ) → has_number it number ≡ is_in_circle at.now party number) }
{
    let mut circle = BTreeSet::new(alloc);
    circle.insert(party)?;
    for mandate in at.mandates.iter() {
        if mandate.agent == party {
            circle.insert(mandate.principal)?;
        }
    }
    Ok(circle)
}

/// Returns whether `number` has given a mandate to `party`.
fn is_principal(at: &Register, party: u64, number: u64) -> bool
    ensures { result ≡ list_any (nat_eq number) (principals_of at.now party) }
{
    at.mandates.contains(Mandate {
        principal: number,
        agent: party,
    })
}

/// Returns whether a number belongs to a member of the circle of a party.
pub(crate) fn is_in_circle(at: &Register, party: u64, number: u64) -> bool
    ensures { result ≡ is_in_circle at.now party number }
{
    number == party || is_principal(at, party, number)
}

fn has_member_principal(at: &Register, party: u64, group: u64) -> bool
    ensures { result ≡ is_group_of at.now (principals_of at.now party) group }
{
    at.mandates.iter().any(|mandate| mandate.agent == party
        && is_member_of(at, mandate.principal, group))
}

/// Returns whether a member of the circle of a party is a member of a group.
pub(crate) fn is_group_of(at: &Register, party: u64, group: u64) -> bool
    ensures { result ≡ is_group_of at.now (circle_of at.now party) group }
{
    is_member_of(at, party, group) || has_member_principal(at, party, group)
}

fn has_holding_principal(at: &Register, party: u64, unit: u64) -> bool
    ensures { result ≡ is_held_by at.now (principals_of at.now party) unit }
{
    at.mandates.iter().any(|mandate| mandate.agent == party
        && is_holder(at, mandate.principal, unit))
}

/// Returns whether a member of the circle of a party is a holder in a unit.
pub(crate) fn is_held_by(at: &Register, party: u64, unit: u64) -> bool
    ensures { result ≡ is_held_by at.now (circle_of at.now party) unit }
{
    is_holder(at, party, unit) || has_holding_principal(at, party, unit)
}

fn has_owning_principal(at: &Register, party: u64, unit: u64) -> bool
    ensures { result ≡ is_owned_by at.now (principals_of at.now party) unit }
{
    at.mandates.iter().any(|mandate| mandate.agent == party
        && is_owner(at, mandate.principal, unit))
}

/// Returns whether a member of the circle of a party is an owner in a unit.
fn is_owned_by(at: &Register, party: u64, unit: u64) -> bool
    ensures { result ≡ is_owned_by at.now (circle_of at.now party) unit }
{
    is_owner(at, party, unit) || has_owning_principal(at, party, unit)
}

/// Returns whether the circle of a party sees an entry: a member of it is a holder in the entry's unit and,
/// if the entry is a mortgage, a member is an owner there.
pub(crate) fn is_visible_to_circle(at: &Register, party: u64, entry: &RrrRecord) -> bool
    ensures { result ≡ is_visible_to_circle at.now (circle_of at.now party) entry.now }
{
    is_held_by(at, party, entry.unit)
        && (!is_mortgage(&entry.class) || is_owned_by(at, party, entry.unit))
}

/// Returns whether a member of the circle of a party is a holder in one of these units.
fn is_any_held_by(at: &Register, party: u64, units: &[u64]) -> bool
    ensures { result ≡ list_any (is_held_by at.now (circle_of at.now party)) units.now }
{
    units.iter().any(|unit| is_held_by(at, party, *unit))
}

/// Returns whether a mutation refers to a unit in which a member of the circle of a party is a holder.
pub(crate) fn names_held_by(at: &Register, party: u64, mutation: &MutationRecord) -> bool
    ensures { result ≡ names_held_by at.now (circle_of at.now party) mutation.now }
{
    match &mutation.content {
        Content::Transfer(it) => is_held_by(at, party, it.unit),
        Content::Subdivision(it) => is_held_by(at, party, it.unit),
        Content::Merger(it) => {
            is_held_by(at, party, it.unit) || is_any_held_by(at, party, it.others.as_slice())
        }
        Content::Mortgage(it) => is_held_by(at, party, it.unit),
        Content::Discharge(it) => is_held_by(at, party, it.unit),
    }
}
