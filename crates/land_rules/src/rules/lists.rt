//! The lists of units, entries, parties and mutations that a caller sees. The holdings of the caller are
//! collected once, then each object takes only lookups.
ghost use Rattle.std.specs.Prelude.{◌≡◌, IfOk, true};
ghost use Rattle.std.specs.List.{list_any};
ghost use Rattle.land_core.specs.Contents.{refers_to_unit_where};
ghost use Rattle.land_core.specs.declared.kind.Kind.TheVariants as kind;
ghost use Rattle.land_rules.specs.Circles.{circle_of, is_held_by};
ghost use Rattle.land_rules.specs.Holdings.{AreHoldings, ArePartiesOfEntries, AreOfInterest};
ghost use Rattle.land_rules.specs.Holdings.{is_name_of_caller, sees_parties_of_entries};
ghost use Rattle.land_rules.specs.Rules.{sees, seen_of};
ghost use Rattle.land_rules.specs.declared.rules.holdings.Interest.TheVariants.{Holder};

use crate::relations::{is_mortgage, is_visible_to_creditor};
use crate::rules::holdings::Holdings;
use crate::rules::{seen_among, sees};
use land_core::caller::Caller;
use land_core::content::Content;
use land_core::kind::Kind;
use land_core::register::Register;
use land_core::role::Role;
use land_core::sequence::{NumberList, Sequence};
use std::alloc::{AllocError, Global};
use std::collections::BTreeSet;

/// Returns the units that a caller sees, ascending. The only error is out of memory.
pub(crate) fn units(alloc: Global, at: &Register, caller: Caller) -> Result<NumberList, AllocError>
    ensures { IfOk result (λ it. it ≡ seen_of at.now caller kind.Unit) }
{
    let holdings = Holdings::of(alloc, at, caller)?;
    let mut seen = Sequence::new(alloc);
    for (number, _) in at.units.iter() {
        if sees_unit(at, caller, &holdings, *number) {
            seen.push(*number)?;
        }
    }
    Ok(seen)
}

/// Returns the entries that a caller sees, ascending. The only error is out of memory.
pub(crate) fn entries(
    alloc: Global,
    at: &Register,
    caller: Caller,
) -> Result<NumberList, AllocError>
    ensures { IfOk result (λ it. it ≡ seen_of at.now caller kind.Rrr) }
{
    let holdings = Holdings::of(alloc, at, caller)?;
    let mut seen = Sequence::new(alloc);
    for (number, _) in at.rrrs.iter() {
        if sees_entry(at, caller, &holdings, *number) {
            seen.push(*number)?;
        }
    }
    Ok(seen)
}

/// Returns the parties that a caller sees, ascending. The only error is out of memory.
pub(crate) fn parties(
    alloc: Global,
    at: &Register,
    caller: Caller,
) -> Result<NumberList, AllocError>
    ensures { IfOk result (λ it. it ≡ seen_of at.now caller kind.Party) }
{
    if !sees_parties_of_entries(caller) {
        return seen_among(alloc, &at.parties, at, caller, Kind::Party);
    }
    let holdings = Holdings::of(alloc, at, caller)?;
    let met = parties_of_entries(alloc, at, caller, &holdings)?;
    visible_parties(alloc, at, caller, &holdings, &met)
}

/// Returns whether a role sees the parties of the entries that it sees.
fn sees_parties_of_entries(caller: Caller) -> bool
    ensures { result ≡ sees_parties_of_entries caller }
{
    caller.role == Role::Citizen || caller.role == Role::Bank || caller.role == Role::Conveyancer
}

/// Returns the parties of the entries that a caller with these holdings sees.
fn parties_of_entries(
    alloc: Global,
    at: &Register,
    caller: Caller,
    holdings: &Holdings,
) -> Result<BTreeSet<u64>, AllocError>
    requires { AreHoldings at.now caller holdings.now }
    ensures { IfOk result (λ it. ArePartiesOfEntries at.now caller it) }
{
    let mut met = BTreeSet::new(alloc);
    for (number, entry) in at.rrrs.iter() {
        if sees_entry(at, caller, holdings, *number) {
            met.insert(entry.party)?;
        }
    }
    Ok(met)
}

/// Returns the parties that a caller sees, ascending. `met` are the parties of the entries that it sees.
fn visible_parties(
    alloc: Global,
    at: &Register,
    caller: Caller,
    holdings: &Holdings,
    met: &BTreeSet<u64>,
) -> Result<NumberList, AllocError>
    requires holdings { AreHoldings at.now caller holdings.now }
    requires met { ArePartiesOfEntries at.now caller met.now }
    requires role { sees_parties_of_entries caller ≡ true }
    ensures { IfOk result (λ it. it ≡ seen_of at.now caller kind.Party) }
{
    let mut seen = Sequence::new(alloc);
    for (number, _) in at.parties.iter() {
        if sees_party(at, caller, holdings, met, *number) {
            seen.push(*number)?;
        }
    }
    Ok(seen)
}

/// Returns the mutations that a caller sees, ascending. The only error is out of memory.
pub(crate) fn mutations(
    alloc: Global,
    at: &Register,
    caller: Caller,
) -> Result<NumberList, AllocError>
    ensures { IfOk result (λ it. it ≡ seen_of at.now caller kind.Mutation) }
{
    let holdings = Holdings::of(alloc, at, caller)?;
    let mut seen = Sequence::new(alloc);
    for (number, _) in at.mutations.iter() {
        if sees_mutation(at, caller, &holdings, *number) {
            seen.push(*number)?;
        }
    }
    Ok(seen)
}

/// Returns whether a caller sees a unit. Roles without holdings need no search.
fn sees_unit(at: &Register, caller: Caller, holdings: &Holdings, number: u64) -> bool
    requires { AreHoldings at.now caller holdings.now }
    ensures { result ≡ sees at.now caller kind.Unit number }
{
    match caller.role {
        Role::Citizen => holdings.held.contains(&number),
        Role::Bank => holdings.credited.contains(&number),
        Role::Conveyancer => {
            holdings.lodged_on.contains(&number) && at.stands(Kind::Unit, number)
        }
        _ => sees(at, caller, Kind::Unit, number),
    }
}

/// Returns whether a caller sees an entry. Roles without holdings need no search.
fn sees_entry(at: &Register, caller: Caller, holdings: &Holdings, number: u64) -> bool
    requires { AreHoldings at.now caller holdings.now }
    ensures { result ≡ sees at.now caller kind.Rrr number }
{
    match caller.role {
        Role::Citizen => citizen_sees_entry(at, caller, holdings, number),
        Role::Bank => bank_sees_entry(at, caller, holdings, number),
        Role::Conveyancer => conveyancer_sees_entry(at, caller, holdings, number),
        _ => sees(at, caller, Kind::Rrr, number),
    }
}

fn citizen_sees_entry(at: &Register, caller: Caller, holdings: &Holdings, number: u64) -> bool
    requires holdings { AreHoldings at.now caller holdings.now }
    requires role { caller.role ≡ Role.Citizen }
    ensures { result ≡ sees at.now caller kind.Rrr number }
{
    match at.rrrs.get(number) {
        Some(entry) => {
            holdings.held.contains(&entry.unit)
                && (!is_mortgage(&entry.class) || holdings.owned.contains(&entry.unit))
        }
        None => false,
    }
}

fn bank_sees_entry(at: &Register, caller: Caller, holdings: &Holdings, number: u64) -> bool
    requires holdings { AreHoldings at.now caller holdings.now }
    requires role { caller.role ≡ Role.Bank }
    ensures { result ≡ sees at.now caller kind.Rrr number }
{
    match at.rrrs.get(number) {
        Some(entry) => {
            holdings.credited.contains(&entry.unit) && is_visible_to_creditor(caller.party, entry)
        }
        None => false,
    }
}

fn conveyancer_sees_entry(at: &Register, caller: Caller, holdings: &Holdings, number: u64) -> bool
    requires holdings { AreHoldings at.now caller holdings.now }
    requires role { caller.role ≡ Role.Conveyancer }
    ensures { result ≡ sees at.now caller kind.Rrr number }
{
    match at.rrrs.get(number) {
        Some(entry) => {
            holdings.lodged_on.contains(&entry.unit) && at.stands(Kind::Unit, entry.unit)
        }
        None => false,
    }
}

/// Returns whether a caller sees a mutation. Only a citizen needs its holdings.
fn sees_mutation(at: &Register, caller: Caller, holdings: &Holdings, number: u64) -> bool
    requires { AreHoldings at.now caller holdings.now }
    ensures { result ≡ sees at.now caller kind.Mutation number }
{
    match caller.role {
        Role::Citizen => citizen_sees_mutation(at, caller, holdings, number),
        _ => sees(at, caller, Kind::Mutation, number),
    }
}

fn citizen_sees_mutation(at: &Register, caller: Caller, holdings: &Holdings, number: u64) -> bool
    requires holdings { AreHoldings at.now caller holdings.now }
    requires role { caller.role ≡ Role.Citizen }
    ensures { result ≡ sees at.now caller kind.Mutation number }
{
    match at.mutations.get(number) {
        Some(mutation) => content_names_held_unit(
            at,
            caller.party,
            &holdings.held,
            &mutation.content,
        ),
        None => false,
    }
}

/// Returns whether a member of the circle of a party is a holder in one of these units.
fn holds_any(at: &Register, party: u64, held: &BTreeSet<u64>, units: &[u64]) -> bool
    requires { AreOfInterest Holder at.now party held.now }
    ensures { result ≡ list_any (is_held_by at.now (circle_of at.now party)) units.now }
{
    units.iter().any(|unit| held.contains(unit))
}

/// Returns whether a content refers to a unit in which a member of the circle of a party is a holder.
fn content_names_held_unit(
    at: &Register,
    party: u64,
    held: &BTreeSet<u64>,
    content: &Content,
) -> bool
    requires { AreOfInterest Holder at.now party held.now }
    ensures { result ≡ refers_to_unit_where (is_held_by at.now (circle_of at.now party)) content.now }
{
    match content {
        Content::Transfer(it) => held.contains(&it.unit),
        Content::Subdivision(it) => held.contains(&it.unit),
        Content::Merger(it) => {
            held.contains(&it.unit) || holds_any(at, party, held, it.others.as_slice())
        }
        Content::Mortgage(it) => held.contains(&it.unit),
        Content::Discharge(it) => held.contains(&it.unit),
    }
}

/// Returns whether a number is a name of the caller: of a citizen a name under which its circle has rights,
/// in another role its own.
fn is_name_of_caller(at: &Register, caller: Caller, holdings: &Holdings, number: u64) -> bool
    requires { AreHoldings at.now caller holdings.now }
    ensures { result ≡ is_name_of_caller caller.role at.now caller.party number }
{
    match caller.role {
        Role::Citizen => holdings.names.contains(&number),
        Role::Conveyancer
        | Role::Notary
        | Role::Bank
        | Role::CertifiedSurveyor
        | Role::StateAdministrator => number == caller.party,
    }
}

/// Returns whether a caller sees a party. `met` are the parties of the entries that it sees.
fn sees_party(
    at: &Register,
    caller: Caller,
    holdings: &Holdings,
    met: &BTreeSet<u64>,
    number: u64,
) -> bool
    requires holdings { AreHoldings at.now caller holdings.now }
    requires met { ArePartiesOfEntries at.now caller met.now }
    requires role { sees_parties_of_entries caller ≡ true }
    ensures { result ≡ sees at.now caller kind.Party number }
{
    at.stands(Kind::Party, number)
        && (is_name_of_caller(at, caller, holdings, number) || met.contains(&number))
}
