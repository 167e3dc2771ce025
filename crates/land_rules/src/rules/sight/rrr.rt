//! The sight rules on entries: 12, 16, 20, 23 and 27.
ghost use Rattle.std.specs.Prelude.{◌≡◌};
ghost use Rattle.land_rules.specs.Circles.{circle_of, is_visible_to_circle};
ghost use Rattle.land_rules.specs.Relations.{is_rrr_where};
ghost use Rattle.land_rules.specs.Rules.{first_denial, is_rrr_in_sight, is_visible_to_bank};
ghost use Rattle.land_rules.specs.Rules.{is_visible_to_conveyancer, rrr_rules};

use super::unit;
use crate::circles::is_visible_to_circle;
use crate::relations::is_visible_to_creditor;
use crate::verdict::Verdict;
use land_core::caller::Caller;
use land_core::kind::Kind;
use land_core::register::Register;
use land_core::role::Role;

/// Returns the first rule that denies the view of an entry.
pub(crate) fn verdict(at: &Register, caller: Caller, number: u64) -> Verdict
    ensures { result ≡ first_denial (rrr_rules at.now caller number) }
{
    if caller.role == Role::Citizen && !is_visible_to_citizen(at, caller, number) {
        Verdict::Denied(12)
    } else if caller.role == Role::Bank && !is_visible_to_bank(at, caller, number) {
        Verdict::Denied(16)
    } else if caller.role == Role::Conveyancer && !is_visible_to_conveyancer(at, caller, number) {
        Verdict::Denied(20)
    } else if caller.role == Role::CertifiedSurveyor {
        Verdict::Denied(23)
    } else if !at.stands(Kind::Rrr, number) {
        Verdict::Denied(27)
    } else {
        Verdict::Allowed
    }
}

/// Returns whether no rule denies the view of an entry.
pub(crate) fn is_in_sight(at: &Register, caller: Caller, number: u64) -> bool
    ensures { result ≡ is_rrr_in_sight at.now caller number }
{
    verdict(at, caller, number).is_allowed()
}

fn is_visible_to_citizen(at: &Register, caller: Caller, number: u64) -> bool
    ensures { result ≡ is_rrr_where (is_visible_to_circle at.now (circle_of at.now caller.party)) at.now
        number }
{
    at.rrrs
        .get(number)
        .is_some_and(|entry| is_visible_to_circle(at, caller.party, entry))
}

fn is_visible_to_bank(at: &Register, caller: Caller, number: u64) -> bool
    ensures { result ≡ is_rrr_where (is_visible_to_bank at.now caller) at.now number }
{
    at.rrrs.get(number).is_some_and(|entry| {
        unit::is_in_sight(at, caller, entry.unit) && is_visible_to_creditor(caller.party, entry)
    })
}

fn is_visible_to_conveyancer(at: &Register, caller: Caller, number: u64) -> bool
    ensures { result ≡ is_rrr_where (is_visible_to_conveyancer at.now caller) at.now number }
{
    at.rrrs
        .get(number)
        .is_some_and(|entry| unit::is_in_sight(at, caller, entry.unit))
}
