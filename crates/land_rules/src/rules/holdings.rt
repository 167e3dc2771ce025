//! The holdings and lodgings of a caller in a register. A list collects them once, in passes over the entries
//! and the mutations; then it decides on each object with lookups.
ghost use Rattle.std.specs.Prelude.{◌≡◌, ℕ, ◌||◌, nat_eq, IfOk, OnOk};
ghost use Rattle.land_core.specs.Contents.{content_names_unit};
ghost use Rattle.land_core.specs.Mergers.{lists_number};
ghost use Rattle.land_rules.specs.Holdings.{AreHoldings, AreLodgedOn, AreNames, AreOfInterest};
ghost use Rattle.land_rules.specs.Holdings.{gives_interest, has_interest_by, has_member_among, has_number};
ghost use Rattle.land_rules.specs.Holdings.{is_name_among};
ghost use Rattle.land_rules.specs.declared.rules.holdings.Interest.TheVariants as interests;

use crate::circles::circle_of;
use crate::relations::{is_mortgage, is_pending_of, is_right};
use land_core::caller::Caller;
use land_core::content::Content;
use land_core::kind::Kind;
use land_core::member::Members;
use land_core::register::Register;
use land_core::role::Role;
use land_core::rrr::{Class, RightType, RrrRecord};
use std::alloc::{AllocError, Global};
use std::collections::BTreeSet;

/// The kind of interest of a party in a unit.
#[derive(Clone, Copy)]
enum Interest {
    /// The party has a right in it.
    Holder,
    /// The party has an ownership in it.
    Owner,
    /// The party is the creditor of a mortgage on it.
    Creditor,
}

/// The units in which a caller has an interest, or to which its mutations refer. Only the sets that the
/// caller's role needs are filled.
#[derive(Drop)]
pub(crate) struct Holdings {
    /// Of a citizen: the members of its circle, and the groups of which one of them is a member.
    pub(crate) names: BTreeSet<u64>,
    /// Of a citizen: the units in which a member of its circle is a holder.
    pub(crate) held: BTreeSet<u64>,
    /// Of a citizen: the units in which a member of its circle is an owner.
    pub(crate) owned: BTreeSet<u64>,
    /// Of a bank: the units on which it is a creditor.
    pub(crate) credited: BTreeSet<u64>,
    /// Of a conveyancer: the units to which its undecided mutations refer. They need not exist.
    pub(crate) lodged_on: BTreeSet<u64>,
}

impl Holdings {
    /// Collects the holdings of a caller. The only error is out of memory.
    pub(crate) fn of(alloc: Global, at: &Register, caller: Caller) -> Result<Holdings, AllocError>
        ensures { IfOk result (λ it. AreHoldings at.now caller it) }
    {
        let mut holdings = Holdings {
            names: BTreeSet::new(alloc),
            held: BTreeSet::new(alloc),
            owned: BTreeSet::new(alloc),
            credited: BTreeSet::new(alloc),
            lodged_on: BTreeSet::new(alloc),
        };
        if caller.role == Role::Citizen {
            let names = names_of_citizen(alloc, at, caller.party)?;
            holdings.held = units_of_interest(alloc, at, &names, Interest::Holder)?;
            holdings.owned = units_of_interest(alloc, at, &names, Interest::Owner)?;
            holdings.names = names;
        }
        if caller.role == Role::Bank {
            let names = names_of_bank(alloc, caller.party)?;
            holdings.credited = units_of_interest(alloc, at, &names, Interest::Creditor)?;
        }
        if caller.role == Role::Conveyancer {
            holdings.lodged_on = lodged_units(alloc, at, caller.party)?;
        }
        Ok(holdings)
    }
}

/// Returns the names under which a citizen has rights: the members of its circle, and the groups of which one
/// of them is a member.
fn names_of_citizen(alloc: Global, at: &Register, party: u64) -> Result<BTreeSet<u64>, AllocError>
    ensures { IfOk result (λ it. AreNames interests.Holder at.now party it) }
{
    let circle = circle_of(alloc, at, party)?;
    names_of(at, &circle)
}

/// Returns some parties, and the groups of which one of them is a member.
fn names_of(at: &Register, parties: &BTreeSet<u64>) -> Result<BTreeSet<u64>, AllocError>
    ensures { IfOk result (λ it. (named : ℕ)
        → has_number it named ≡ is_name_among at.now (has_number parties.now) named) }
{
    let mut names = parties.clone()?;
    for (group, members) in at.members.iter() {
        if has_member_among(members, parties) {
            names.insert(*group)?;
        }
    }
    Ok(names)
}

/// Returns whether one of these parties is a member of a group.
fn has_member_among(members: &Members, parties: &BTreeSet<u64>) -> bool
    ensures { result ≡ has_member_among (has_number parties.now) members.now }
{
    members.iter().any(|(party, _)| parties.contains(party))
}

/// Returns the name under which a bank is a creditor: its own.
fn names_of_bank(alloc: Global, party: u64) -> Result<BTreeSet<u64>, AllocError>
    ensures { IfOk result (λ it. (named : ℕ) → has_number it named ≡ nat_eq named party) }
{
    let mut names = BTreeSet::new(alloc);
    names.insert(party)?;
    Ok(names)
}

/// Returns the units that exist and in which an entry under one of these names gives the interest.
fn units_of_interest(
    alloc: Global,
    at: &Register,
    names: &BTreeSet<u64>,
    interest: Interest,
) -> Result<BTreeSet<u64>, AllocError>
    ensures { IfOk result (λ it. (party : ℕ) → AreNames interest at.now party names.now
        → AreOfInterest interest at.now party it) }
{
    let mut units = BTreeSet::new(alloc);
    for (_, entry) in at.rrrs.iter() {
        if has_interest_by(at, names, interest, entry) {
            units.insert(entry.unit)?;
        }
    }
    Ok(units)
}

/// Returns whether the unit of an entry exists and the entry gives the interest under one of these names.
fn has_interest_by(
    at: &Register,
    names: &BTreeSet<u64>,
    interest: Interest,
    entry: &RrrRecord,
) -> bool
    ensures { result ≡ has_interest_by interest at.now (has_number names.now) entry.now.unit entry.now }
{
    at.stands(Kind::Unit, entry.unit)
        && gives_interest(interest, &entry.class)
        && names.contains(&entry.party)
}

/// Returns whether entries of a class give the interest.
fn gives_interest(interest: Interest, class: &Class) -> bool
    ensures { result ≡ gives_interest interest class.now }
{
    match interest {
        Interest::Holder => is_right(class),
        Interest::Owner => class.is_right_of(RightType::Ownership),
        Interest::Creditor => is_mortgage(class),
    }
}

/// Returns the units to which the undecided mutations of a party refer.
fn lodged_units(alloc: Global, at: &Register, party: u64) -> Result<BTreeSet<u64>, AllocError>
    ensures { IfOk result (λ it. AreLodgedOn at.now party it) }
{
    let mut units = BTreeSet::new(alloc);
    for (_, mutation) in at.mutations.iter() {
        if is_pending_of(party, mutation) {
            insert_named(&mut units, &mutation.content)?;
        }
    }
    Ok(units)
}

/// Inserts the units to which a content refers.
fn insert_named(units: &mut BTreeSet<u64>, content: &Content) -> Result<(), AllocError>
    ensures { OnOk result ((unit : ℕ) → has_number units.new unit
        ≡ (has_number units.old unit || content_names_unit unit content.now)) }
{
    match content {
        Content::Transfer(it) => insert_unit(units, it.unit),
        Content::Subdivision(it) => insert_unit(units, it.unit),
        Content::Merger(it) => {
            insert_unit(units, it.unit)?;
            insert_units(units, it.others.as_slice())
        }
        Content::Mortgage(it) => insert_unit(units, it.unit),
        Content::Discharge(it) => insert_unit(units, it.unit),
    }
}

/// Inserts a unit.
fn insert_unit(units: &mut BTreeSet<u64>, unit: u64) -> Result<(), AllocError>
    ensures { OnOk result ((other : ℕ) → has_number units.new other
        ≡ (has_number units.old other || nat_eq unit other)) }
{
    units.insert(unit)?;
    Ok(())
}

/// Inserts these units.
fn insert_units(units: &mut BTreeSet<u64>, more: &[u64]) -> Result<(), AllocError>
    ensures { OnOk result ((unit : ℕ) → has_number units.new unit
        ≡ (has_number units.old unit || lists_number more.now unit)) }
{
    for unit in more {
        insert_unit(units, *unit)?;
    }
    Ok(())
}
