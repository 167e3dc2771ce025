//! Standing rules on acts, by the register now: 4 to 10, 28 and 29.
ghost use Rattle.std.specs.Prelude.{◌≡◌};
ghost use Rattle.land_rules.specs.Acts.{decides, is_between_others, is_discharge_of_another, is_mortgage_of};
ghost use Rattle.land_rules.specs.Acts.{is_mortgage_of_another, changes_mortgages, is_mandate_act};
ghost use Rattle.land_rules.specs.Acts.{may_lodge_mortgages, changes_outlines, may_lodge_transfers};
ghost use Rattle.land_rules.specs.Acts.{is_office_act};
ghost use Rattle.land_rules.specs.Acts.{is_transfer_content, lodges, withdraws};
ghost use Rattle.land_rules.specs.Relations.{has_lodged, is_rrr_where};
ghost use Rattle.land_rules.specs.Rules.{first_denial, act_rules};

use crate::relations::{has_lodged, is_mortgage};
use crate::verdict::Verdict;
use land_core::act::Act;
use land_core::caller::Caller;
use land_core::content::Content;
use land_core::mandates::Mandate;
use land_core::register::Register;
use land_core::role::Role;

/// Returns the first rule that denies an act.
pub(crate) fn verdict(now: &Register, caller: Caller, act: &Act) -> Verdict
    ensures { result ≡ first_denial (act_rules now.now caller act.now) }
{
    if is_office_act(act) && caller.role != Role::StateAdministrator {
        Verdict::Denied(4)
    } else if lodges_transfer(act) && !may_lodge_transfers(caller) {
        Verdict::Denied(5)
    } else if lodges_outline_change(act) && caller.role != Role::CertifiedSurveyor {
        Verdict::Denied(6)
    } else if lodges_mortgage_change(act) && !may_lodge_mortgages(caller) {
        Verdict::Denied(7)
    } else if caller.role == Role::Bank && lodges_mortgage_of_another(caller.party, act) {
        Verdict::Denied(8)
    } else if caller.role == Role::Bank && lodges_discharge_of_another(now, caller.party, act) {
        Verdict::Denied(9)
    } else if decides_own(now, caller.party, act) {
        Verdict::Denied(10)
    } else if is_mandate_act(act) && caller.role != Role::Citizen {
        Verdict::Denied(28)
    } else if withdraws_between_others(caller.party, act) {
        Verdict::Denied(29)
    } else {
        Verdict::Allowed
    }
}

fn is_office_act(act: &Act) -> bool
    ensures { result ≡ is_office_act act.now }
{
    match act {
        Act::Enrol(_)
        | Act::Group(_)
        | Act::Regroup(_)
        | Act::Grant(_)
        | Act::Revoke(_)
        | Act::Register(_)
        | Act::Burden(_)
        | Act::Lift(_)
        | Act::Approve(_)
        | Act::Refuse(_) => true,
        Act::Mandate(_) | Act::Withdraw(_) | Act::Lodge(_) => false,
    }
}

/// Returns whether an act gives or withdraws a mandate.
fn is_mandate_act(act: &Act) -> bool
    ensures { result ≡ is_mandate_act act.now }
{
    matches!(act, Act::Mandate(_) | Act::Withdraw(_))
}

fn withdraws_between_others(party: u64, act: &Act) -> bool
    ensures { result ≡ withdraws (is_between_others party) act.now }
{
    match act {
        Act::Withdraw(it) => is_between_others(party, *it),
        _ => false,
    }
}

/// Returns whether a party is neither the principal nor the agent of a mandate.
fn is_between_others(party: u64, mandate: Mandate) -> bool
    ensures { result ≡ is_between_others party mandate }
{
    !(mandate.principal == party || mandate.agent == party)
}

/// Returns whether the caller's role may lodge transfers.
fn may_lodge_transfers(caller: Caller) -> bool
    ensures { result ≡ may_lodge_transfers caller }
{
    caller.role == Role::Conveyancer || caller.role == Role::Notary
}

/// Returns whether the caller's role may lodge mortgages and discharges.
fn may_lodge_mortgages(caller: Caller) -> bool
    ensures { result ≡ may_lodge_mortgages caller }
{
    caller.role == Role::Bank || caller.role == Role::Notary
}

fn lodges_transfer(act: &Act) -> bool
    ensures { result ≡ lodges is_transfer_content act.now }
{
    match act {
        Act::Lodge(it) => is_transfer(&it.content),
        _ => false,
    }
}

fn is_transfer(content: &Content) -> bool
    ensures { result ≡ is_transfer_content content.now }
{
    match content {
        Content::Transfer(_) => true,
        Content::Subdivision(_)
        | Content::Merger(_)
        | Content::Mortgage(_)
        | Content::Discharge(_) => false,
    }
}

fn lodges_outline_change(act: &Act) -> bool
    ensures { result ≡ lodges changes_outlines act.now }
{
    match act {
        Act::Lodge(it) => changes_outlines(&it.content),
        _ => false,
    }
}

/// Returns whether a content is a subdivision or a merger.
fn changes_outlines(content: &Content) -> bool
    ensures { result ≡ changes_outlines content.now }
{
    match content {
        Content::Subdivision(_) | Content::Merger(_) => true,
        Content::Transfer(_) | Content::Mortgage(_) | Content::Discharge(_) => false,
    }
}

fn lodges_mortgage_change(act: &Act) -> bool
    ensures { result ≡ lodges changes_mortgages act.now }
{
    match act {
        Act::Lodge(it) => changes_mortgages(&it.content),
        _ => false,
    }
}

/// Returns whether a content creates or ends a mortgage.
fn changes_mortgages(content: &Content) -> bool
    ensures { result ≡ changes_mortgages content.now }
{
    match content {
        Content::Mortgage(_) | Content::Discharge(_) => true,
        Content::Transfer(_) | Content::Subdivision(_) | Content::Merger(_) => false,
    }
}

fn lodges_mortgage_of_another(party: u64, act: &Act) -> bool
    ensures { result ≡ lodges (is_mortgage_of_another party) act.now }
{
    match act {
        Act::Lodge(it) => is_mortgage_of_another(party, &it.content),
        _ => false,
    }
}

/// Returns whether a content is a mortgage of which the party is not the creditor.
fn is_mortgage_of_another(party: u64, content: &Content) -> bool
    ensures { result ≡ is_mortgage_of_another party content.now }
{
    match content {
        Content::Mortgage(it) => it.creditor != party,
        Content::Transfer(_)
        | Content::Subdivision(_)
        | Content::Merger(_)
        | Content::Discharge(_) => false,
    }
}

fn lodges_discharge_of_another(now: &Register, party: u64, act: &Act) -> bool
    ensures { result ≡ lodges (is_discharge_of_another now.now party) act.now }
{
    match act {
        Act::Lodge(it) => is_discharge_of_another(now, party, &it.content),
        _ => false,
    }
}

/// Returns whether a content is the discharge of a number at which the party has no mortgage as creditor.
fn is_discharge_of_another(now: &Register, party: u64, content: &Content) -> bool
    ensures { result ≡ is_discharge_of_another now.now party content.now }
{
    match content {
        Content::Discharge(it) => !has_mortgage_of(now, party, it.mortgage),
        Content::Transfer(_)
        | Content::Subdivision(_)
        | Content::Merger(_)
        | Content::Mortgage(_) => false,
    }
}

/// Returns whether a mortgage exists at a number and a party is its creditor.
fn has_mortgage_of(now: &Register, party: u64, number: u64) -> bool
    ensures { result ≡ is_rrr_where (is_mortgage_of party) now.now number }
{
    now.rrrs
        .get(number)
        .is_some_and(|entry| is_mortgage(&entry.class) && entry.party == party)
}

/// Returns whether an act approves or refuses a mutation that a party lodged.
fn decides_own(now: &Register, party: u64, act: &Act) -> bool
    ensures { result ≡ decides (has_lodged now.now party) act.now }
{
    match act {
        Act::Approve(it) | Act::Refuse(it) => has_lodged(now, party, it.mutation),
        _ => false,
    }
}
