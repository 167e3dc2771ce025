//! Reads acts, from their words in paths and the JSON of their bodies.
ghost use Rattle.std.specs.Prelude.{◌≡◌};
ghost use Rattle.land_wire.specs.Acts.{act_in, act_of, lodging_act};
ghost use Rattle.land_wire_json.specs.Bodies.WireFaults.{Returns};
ghost use Rattle.serde_json.specs.View.{view};

use crate::routes::act_word::ActWord;
use land_core::act::Act;
use land_wire_json::bodies::content_kind::ContentKind;
use land_wire_json::bodies::fields::read_value;
use land_wire_json::bodies::lodging::{decision_of, lodging_of};
use land_wire_json::bodies::party::{
    enrol_of, grant_of, group_of, mandate_of, regroup_of, withdrawal_of,
};
use land_wire_json::bodies::unit::{burden_of, lift_of, unit_of};
use land_wire_json::bodies::wire_fault::WireFault;
use serde_json::Value;
use std::alloc::Global;

/// Reads the body of an act. Errors: 130 if it is not JSON; then the faults of its fields, as in `act_of`.
pub fn read_act(alloc: Global, word: ActWord, body: &[u8]) -> Result<Act, WireFault>
    ensures { Returns (λ it. it) result (act_in word body.now) }
{
    let value = read_value(alloc, body)?;
    act_of(alloc, word, &value)
}

/// Reads the act of a word from the JSON of a body.
///
/// Errors: the first fault of the body: 131 to 134, 101 to 103 of a share, 110 to 120 of an outline; 501 if
/// out of memory.
pub fn act_of(alloc: Global, word: ActWord, value: &Value) -> Result<Act, WireFault>
    ensures { Returns (λ it. it) result (act_of word (view value.now)) }
{
    match word {
        ActWord::Enrol => Ok(Act::Enrol(enrol_of(alloc, value)?)),
        ActWord::Group => Ok(Act::Group(group_of(alloc, value)?)),
        ActWord::Regroup => Ok(Act::Regroup(regroup_of(alloc, value)?)),
        ActWord::Grant => Ok(Act::Grant(grant_of(value)?)),
        ActWord::Revoke => Ok(Act::Revoke(grant_of(value)?)),
        ActWord::Mandate => Ok(Act::Mandate(mandate_of(value)?)),
        ActWord::Withdraw => Ok(Act::Withdraw(withdrawal_of(value)?)),
        ActWord::Register => Ok(Act::Register(unit_of(alloc, value)?)),
        ActWord::Burden => Ok(Act::Burden(burden_of(alloc, value)?)),
        ActWord::Lift => Ok(Act::Lift(lift_of(value)?)),
        ActWord::Transfer => lodging_act(alloc, ContentKind::Transfer, value),
        ActWord::Subdivision => lodging_act(alloc, ContentKind::Subdivision, value),
        ActWord::Merger => lodging_act(alloc, ContentKind::Merger, value),
        ActWord::Mortgage => lodging_act(alloc, ContentKind::Mortgage, value),
        ActWord::Discharge => lodging_act(alloc, ContentKind::Discharge, value),
        ActWord::Approve => Ok(Act::Approve(decision_of(value)?)),
        ActWord::Refuse => Ok(Act::Refuse(decision_of(value)?)),
    }
}

fn lodging_act(alloc: Global, kind: ContentKind, value: &Value) -> Result<Act, WireFault>
    ensures { Returns (λ it. it) result (lodging_act kind (view value.now)) }
{
    Ok(Act::Lodge(lodging_of(alloc, kind, value)?))
}
