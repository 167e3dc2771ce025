//! Reads the bodies of acts on parties.
ghost use Rattle.std.specs.Prelude.{◌≡◌};
ghost use Rattle.land_wire_json.specs.Bodies.Fields.{each_item};
ghost use Rattle.land_wire_json.specs.Bodies.Parties.{enrol_of, grant_of, group_of, mandate_of, member_of};
ghost use Rattle.land_wire_json.specs.Bodies.Parties.{member_list_of, regroup_of, withdrawal_of};
ghost use Rattle.land_wire_json.specs.Bodies.WireFaults.{Returns};
ghost use Rattle.serde_json.specs.View.{view, items_view};

use crate::bodies::fields::{check_keys, items_at, name_at, number_at};
use crate::bodies::share::share_at;
use crate::bodies::wire_fault::WireFault;
use crate::bodies::words::{kind_in, role_in};
use land_core::act::{Enrol, NewGroup, NewMandate, Regroup};
use land_core::mandates::Mandate;
use land_core::member::Member;
use land_core::roles::Grant;
use land_core::sequence::Sequence;
use serde_json::Value;
use std::alloc::Global;

/// Reads an enrolment: `kind` (naturalPerson or nonNaturalPerson), `name`.
#[tactic(auto, unfolding(crate::specs::Bodies::Parties::enrol_of))]
pub fn enrol_of(alloc: Global, value: &Value) -> Result<Enrol, WireFault>
    ensures { Returns (λ it. it) result (enrol_of (view value.now)) }
{
    check_keys(value, &["kind", "name"])?;
    let kind = kind_in(value)?;
    let name = name_at(alloc, value, "name")?;
    Ok(Enrol { kind, name })
}

/// Reads a group: `name`, `members` (2 to 64 of `party`, `share`).
#[tactic(auto, unfolding(crate::specs::Bodies::Parties::group_of))]
pub fn group_of(alloc: Global, value: &Value) -> Result<NewGroup, WireFault>
    ensures { Returns (λ it. it) result (group_of (view value.now)) }
{
    check_keys(value, &["name", "members"])?;
    let name = name_at(alloc, value, "name")?;
    let members = members_of(alloc, value)?;
    Ok(NewGroup { name, members })
}

/// Reads the new members of a group: `group`, `members` (2 to 64 of `party`, `share`).
#[tactic(auto, unfolding(crate::specs::Bodies::Parties::regroup_of))]
pub fn regroup_of(alloc: Global, value: &Value) -> Result<Regroup, WireFault>
    ensures { Returns (λ it. it) result (regroup_of (view value.now)) }
{
    check_keys(value, &["group", "members"])?;
    let group = number_at(value, "group")?;
    let members = members_of(alloc, value)?;
    Ok(Regroup { group, members })
}

/// Reads a role to grant or to revoke: `party`, `role`.
#[tactic(auto, unfolding(crate::specs::Bodies::Parties::grant_of))]
pub fn grant_of(value: &Value) -> Result<Grant, WireFault>
    ensures { result ≡ grant_of (view value.now) }
{
    check_keys(value, &["party", "role"])?;
    let party = number_at(value, "party")?;
    let role = role_in(value)?;
    Ok(Grant { party, role })
}

/// Reads a mandate of the caller: `agent`.
#[tactic(auto, unfolding(crate::specs::Bodies::Parties::mandate_of))]
pub fn mandate_of(value: &Value) -> Result<NewMandate, WireFault>
    ensures { result ≡ mandate_of (view value.now) }
{
    check_keys(value, &["agent"])?;
    let agent = number_at(value, "agent")?;
    Ok(NewMandate { agent })
}

/// Reads a mandate to withdraw: `principal`, `agent`.
#[tactic(auto, unfolding(crate::specs::Bodies::Parties::withdrawal_of))]
pub fn withdrawal_of(value: &Value) -> Result<Mandate, WireFault>
    ensures { result ≡ withdrawal_of (view value.now) }
{
    check_keys(value, &["principal", "agent"])?;
    let principal = number_at(value, "principal")?;
    let agent = number_at(value, "agent")?;
    Ok(Mandate { principal, agent })
}

#[tactic(auto, unfolding(crate::specs::Bodies::Parties::member_list_of))]
fn members_of(alloc: Global, value: &Value) -> Result<Sequence<Member>, WireFault>
    ensures { Returns (λ it. it) result (member_list_of (view value.now)) }
{
    each_member(alloc, items_at(value, "members", 2, 64)?)
}

fn each_member(alloc: Global, items: &[Value]) -> Result<Sequence<Member>, WireFault>
    ensures { Returns (λ it. it) result (each_item member_of (items_view items.now)) }
{
    let mut members = Sequence::new(alloc);
    for value in items {
        members.push(member_of(value)?)?;
    }
    Ok(members)
}

#[tactic(auto, unfolding(crate::specs::Bodies::Parties::member_of))]
fn member_of(value: &Value) -> Result<Member, WireFault>
    ensures { result ≡ member_of (view value.now) }
{
    check_keys(value, &["party", "share"])?;
    let party = number_at(value, "party")?;
    let share = share_at(value, "share")?;
    Ok(Member { party, share })
}
