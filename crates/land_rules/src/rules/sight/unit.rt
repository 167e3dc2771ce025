//! The sight rules on units: 11, 15, 19, 23 and 27.
ghost use Rattle.std.specs.Prelude.{◌≡◌};
ghost use Rattle.land_rules.specs.Rules.{first_denial, is_unit_in_sight, unit_rules};

use crate::circles::is_held_by;
use crate::relations::{has_pending_mutation_on, is_creditor_on};
use crate::verdict::Verdict;
use land_core::caller::Caller;
use land_core::kind::Kind;
use land_core::register::Register;
use land_core::role::Role;

/// Returns the first rule that denies the view of a unit.
pub(crate) fn verdict(at: &Register, caller: Caller, number: u64) -> Verdict
    ensures { result ≡ first_denial (unit_rules at.now caller number) }
{
    if caller.role == Role::Citizen && !is_held_by(at, caller.party, number) {
        Verdict::Denied(11)
    } else if caller.role == Role::Bank && !is_creditor_on(at, caller.party, number) {
        Verdict::Denied(15)
    } else if caller.role == Role::Conveyancer
        && !has_pending_mutation_on(at, caller.party, number)
    {
        Verdict::Denied(19)
    } else if caller.role == Role::CertifiedSurveyor {
        Verdict::Denied(23)
    } else if !at.stands(Kind::Unit, number) {
        Verdict::Denied(27)
    } else {
        Verdict::Allowed
    }
}

/// Returns whether no rule denies the view of a unit.
pub(crate) fn is_in_sight(at: &Register, caller: Caller, number: u64) -> bool
    ensures { result ≡ is_unit_in_sight at.now caller number }
{
    verdict(at, caller, number).is_allowed()
}
