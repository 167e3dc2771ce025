//! The sight rules on parties: 13, 17, 21, 24 and 27.
ghost use Rattle.std.specs.Prelude.{◌≡◌};
ghost use Rattle.land_rules.specs.Rules.{first_denial, is_party_in_sight, party_rules};

use super::rrr;
use crate::circles::{is_group_of, is_in_circle};
use crate::verdict::Verdict;
use land_core::caller::Caller;
use land_core::kind::Kind;
use land_core::register::Register;
use land_core::role::Role;

/// Returns the first rule that denies the view of a party.
pub(crate) fn verdict(at: &Register, caller: Caller, number: u64) -> Verdict
    ensures { result ≡ first_denial (party_rules at.now caller number) }
{
    let itself = number == caller.party;
    if caller.role == Role::Citizen
        && !(is_in_circle(at, caller.party, number)
            || is_group_of(at, caller.party, number)
            || is_in_sight(at, caller, number))
    {
        Verdict::Denied(13)
    } else if caller.role == Role::Bank && !(itself || is_in_sight(at, caller, number)) {
        Verdict::Denied(17)
    } else if caller.role == Role::Conveyancer && !(itself || is_in_sight(at, caller, number)) {
        Verdict::Denied(21)
    } else if caller.role == Role::CertifiedSurveyor && !itself {
        Verdict::Denied(24)
    } else if !at.stands(Kind::Party, number) {
        Verdict::Denied(27)
    } else {
        Verdict::Allowed
    }
}

/// Returns whether an entry that the caller sees is of this party.
fn is_in_sight(at: &Register, caller: Caller, party: u64) -> bool
    ensures { result ≡ is_party_in_sight at.now caller party }
{
    at.rrrs.iter().any(|(number, entry)| entry.party == party
        && rrr::is_in_sight(at, caller, *number))
}
