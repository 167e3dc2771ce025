//! The relations between a party and the objects of a register: holder, owner, creditor, lodger.
ghost use Rattle.std.specs.Prelude.{◌≡◌};
ghost use Rattle.land_core.specs.Entries.{some};
ghost use Rattle.land_rules.specs.Relations.{has_lodged, holds_under_name, is_held_mortgage, is_creditor_on};
ghost use Rattle.land_rules.specs.Relations.{is_held_ownership, is_held_right, is_holder, is_lodger_of};
ghost use Rattle.land_rules.specs.Relations.{has_pending_mutation_on, is_member_of, is_mortgage_class};
ghost use Rattle.land_rules.specs.Relations.{is_owner};
ghost use Rattle.land_rules.specs.Relations.{is_pending_of, is_pending_on, is_right, is_visible_to_creditor};

use land_core::kind::Kind;
use land_core::mutation::MutationRecord;
use land_core::register::Register;
use land_core::rrr::{Class, RightType, RrrRecord};

pub(crate) fn is_right(class: &Class) -> bool
    ensures { result ≡ is_right class.now }
{
    class.right_type().is_some()
}

pub(crate) fn is_mortgage(class: &Class) -> bool
    ensures { result ≡ is_mortgage_class class.now }
{
    class.rank().is_some()
}

/// Returns whether a party is a member of a group.
pub(crate) fn is_member_of(at: &Register, party: u64, group: u64) -> bool
    ensures { result ≡ is_member_of at.now party group }
{
    at.is_member(group, party)
}

/// Returns whether a party has the rights that are registered under a name: the name is its own, or that of a
/// group of which it is a member.
fn holds_under_name(at: &Register, party: u64, named: u64) -> bool
    ensures { result ≡ holds_under_name at.now party named }
{
    named == party || is_member_of(at, party, named)
}

fn is_held_right(at: &Register, party: u64, unit: u64, entry: &RrrRecord) -> bool
    ensures { result ≡ is_held_right at.now party unit entry.now }
{
    entry.unit == unit && is_right(&entry.class) && holds_under_name(at, party, entry.party)
}

fn is_held_ownership(at: &Register, party: u64, unit: u64, entry: &RrrRecord) -> bool
    ensures { result ≡ is_held_ownership at.now party unit entry.now }
{
    entry.is_right_in(unit, RightType::Ownership) && holds_under_name(at, party, entry.party)
}

fn is_held_mortgage(party: u64, unit: u64, entry: &RrrRecord) -> bool
    ensures { result ≡ is_held_mortgage party unit entry.now }
{
    entry.unit == unit && is_mortgage(&entry.class) && entry.party == party
}

fn has_held_right(at: &Register, party: u64, unit: u64) -> bool
    ensures { result ≡ some (λ n e. is_held_right at.now party unit e) at.now.rrrs }
{
    at.rrrs
        .iter()
        .any(|(_, entry)| is_held_right(at, party, unit, entry))
}

fn has_held_ownership(at: &Register, party: u64, unit: u64) -> bool
    ensures { result ≡ some (λ n e. is_held_ownership at.now party unit e) at.now.rrrs }
{
    at.rrrs
        .iter()
        .any(|(_, entry)| is_held_ownership(at, party, unit, entry))
}

fn has_held_mortgage(at: &Register, party: u64, unit: u64) -> bool
    ensures { result ≡ some (λ n e. is_held_mortgage party unit e) at.now.rrrs }
{
    at.rrrs
        .iter()
        .any(|(_, entry)| is_held_mortgage(party, unit, entry))
}

/// Returns whether a party has a right in a unit, directly or as a member of a group.
pub(crate) fn is_holder(at: &Register, party: u64, unit: u64) -> bool
    ensures { result ≡ is_holder at.now party unit }
{
    at.stands(Kind::Unit, unit) && has_held_right(at, party, unit)
}

/// Returns whether a party owns a unit or a share of it, directly or as a member of a group.
pub(crate) fn is_owner(at: &Register, party: u64, unit: u64) -> bool
    ensures { result ≡ is_owner at.now party unit }
{
    at.stands(Kind::Unit, unit) && has_held_ownership(at, party, unit)
}

/// Returns whether a party is the creditor of a mortgage on a unit.
pub(crate) fn is_creditor_on(at: &Register, party: u64, unit: u64) -> bool
    ensures { result ≡ is_creditor_on at.now party unit }
{
    at.stands(Kind::Unit, unit) && has_held_mortgage(at, party, unit)
}

/// Returns whether a party lodged a mutation.
fn is_lodger_of(party: u64, mutation: &MutationRecord) -> bool
    ensures { result ≡ is_lodger_of party mutation.now }
{
    mutation.lodger == party
}

/// Returns whether a mutation exists and a party lodged it. It may be decided.
pub(crate) fn has_lodged(at: &Register, party: u64, number: u64) -> bool
    ensures { result ≡ has_lodged at.now party number }
{
    at.mutations
        .get(number)
        .is_some_and(|mutation| is_lodger_of(party, mutation))
}

/// Returns whether a mutation is undecided and a party lodged it.
pub(crate) fn is_pending_of(party: u64, mutation: &MutationRecord) -> bool
    ensures { result ≡ is_pending_of party mutation.now }
{
    mutation.is_undecided() && is_lodger_of(party, mutation)
}

fn is_pending_on(party: u64, unit: u64, mutation: &MutationRecord) -> bool
    ensures { result ≡ is_pending_on party unit mutation.now }
{
    is_pending_of(party, mutation) && mutation.content.names_unit(unit)
}

/// Returns whether an undecided mutation of a party refers to a unit. The unit may have ended, or may never
/// have existed.
pub(crate) fn has_pending_mutation_on(at: &Register, party: u64, unit: u64) -> bool
    ensures { result ≡ has_pending_mutation_on at.now party unit }
{
    at.mutations
        .iter()
        .any(|(_, mutation)| is_pending_on(party, unit, mutation))
}

/// Returns whether a creditor sees an entry: it is not a mortgage, or the party is its creditor.
pub(crate) fn is_visible_to_creditor(party: u64, entry: &RrrRecord) -> bool
    ensures { result ≡ is_visible_to_creditor party entry.now }
{
    !is_mortgage(&entry.class) || entry.party == party
}
