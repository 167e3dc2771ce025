//! The sight rules on mutations: 14, 18, 22, 25 and 27.
ghost use Rattle.std.specs.Prelude.{◌≡◌};
ghost use Rattle.land_core.specs.Register.{is_mutation_where};
ghost use Rattle.land_rules.specs.Circles.{circle_of, names_held_by};
ghost use Rattle.land_rules.specs.Rules.{first_denial, mutation_rules};

use crate::circles::names_held_by;
use crate::relations::has_lodged;
use crate::verdict::Verdict;
use land_core::caller::Caller;
use land_core::kind::Kind;
use land_core::register::Register;
use land_core::role::Role;

/// Returns the first rule that denies the view of a mutation.
pub(crate) fn verdict(at: &Register, caller: Caller, number: u64) -> Verdict
    ensures { result ≡ first_denial (mutation_rules at.now caller number) }
{
    if caller.role == Role::Citizen && !names_held_unit(at, caller.party, number) {
        Verdict::Denied(14)
    } else if caller.role == Role::Bank && !has_lodged(at, caller.party, number) {
        Verdict::Denied(18)
    } else if caller.role == Role::Conveyancer && !has_lodged(at, caller.party, number) {
        Verdict::Denied(22)
    } else if caller.role == Role::CertifiedSurveyor && !has_lodged(at, caller.party, number) {
        Verdict::Denied(25)
    } else if !at.stands(Kind::Mutation, number) {
        Verdict::Denied(27)
    } else {
        Verdict::Allowed
    }
}

/// Returns whether a mutation exists and refers to a unit in which a member of the circle of a party is a
/// holder.
fn names_held_unit(at: &Register, party: u64, number: u64) -> bool
    ensures { result ≡ is_mutation_where (names_held_by at.now (circle_of at.now party)) at.now number }
{
    at.mutations
        .get(number)
        .is_some_and(|mutation| names_held_by(at, party, mutation))
}
