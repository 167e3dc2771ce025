//! The verdict on the view of an object, given whether the object is visible.
ghost use Rattle.std.specs.Prelude.{◌≡◌};
ghost use Rattle.land_core.specs.declared.role.Role.TheVariants as roles;
ghost use Rattle.land_rules.specs.Denials.Sight.{is_unit_of_conveyancer, sees_all, sees_by_pending};
ghost use Rattle.land_rules.specs.Denials.Sight.{sees_own_lodgings, verdict_given_sight};
ghost use Rattle.land_rules.specs.Laws.{views_itself, rule_of_role};

use crate::verdict::Verdict;
use land_core::caller::Caller;
use land_core::kind::Kind;
use land_core::role::Role;

/// Returns whether a role sees all objects of a kind. All roles see the parcels; notaries and state
/// administrators see everything.
pub fn sees_all(role: Role, kind: Kind) -> bool
    ensures { result ≡ sees_all role kind }
{
    kind == Kind::Parcel || role == Role::Notary || role == Role::StateAdministrator
}

/// Returns whether a role sees the objects of a kind only if the caller lodged them. Banks, conveyancers and
/// certified surveyors see mutations by this rule.
pub fn sees_own_lodgings(role: Role, kind: Kind) -> bool
    ensures { result ≡ sees_own_lodgings role kind }
{
    kind == Kind::Mutation
        && (role == Role::Bank || role == Role::Conveyancer || role == Role::CertifiedSurveyor)
}

/// Returns whether a role sees the objects of a kind by its undecided mutations. Conveyancers see units and
/// entries by this rule.
pub fn sees_by_pending(role: Role, kind: Kind) -> bool
    ensures { result ≡ sees_by_pending role kind }
{
    (kind == Kind::Unit || kind == Kind::Rrr) && role == Role::Conveyancer
}

/// Returns the verdict on the view of an object. `in_sight` is whether the object is visible, and `awaited`
/// is whether an undecided mutation of the caller refers to it.
pub fn view_verdict(
    in_sight: bool,
    awaited: bool,
    caller: Caller,
    kind: Kind,
    number: u64,
) -> Verdict
    ensures { result ≡ verdict_given_sight in_sight awaited caller kind number }
{
    if in_sight {
        Verdict::Allowed
    } else if is_unit_of_conveyancer(caller.role, kind) && awaited
        || views_itself(caller, kind, number)
    {
        Verdict::Denied(27)
    } else {
        Verdict::Denied(rule_of_role(caller.role, kind))
    }
}

/// Returns whether a conveyancer views a unit. An undecided mutation of the caller may refer to the unit, and
/// then another rule denies.
pub fn is_unit_of_conveyancer(role: Role, kind: Kind) -> bool
    ensures { result ≡ is_unit_of_conveyancer role kind }
{
    kind == Kind::Unit && role == Role::Conveyancer
}

/// Returns whether a caller views the party that it is itself.
fn views_itself(caller: Caller, kind: Kind, number: u64) -> bool
    ensures { result ≡ views_itself caller kind number }
{
    kind == Kind::Party && number == caller.party
}

/// Returns the number of the rule that denies a role the view of an object that is not visible.
fn rule_of_role(role: Role, kind: Kind) -> u8
    ensures { result ≡ rule_of_role role kind }
{
    match role {
        Role::Citizen => rule_of_citizen(kind),
        Role::Conveyancer => rule_of_conveyancer(kind),
        Role::Bank => rule_of_bank(kind),
        Role::CertifiedSurveyor => rule_of_surveyor(kind),
        Role::Notary | Role::StateAdministrator => 27,
    }
}

fn rule_of_citizen(kind: Kind) -> u8
    ensures { result ≡ rule_of_role roles.Citizen kind }
{
    match kind {
        Kind::Party => 13,
        Kind::Unit => 11,
        Kind::Parcel => 27,
        Kind::Rrr => 12,
        Kind::Source => 26,
        Kind::Mutation => 14,
    }
}

fn rule_of_conveyancer(kind: Kind) -> u8
    ensures { result ≡ rule_of_role roles.Conveyancer kind }
{
    match kind {
        Kind::Party => 21,
        Kind::Unit => 19,
        Kind::Parcel => 27,
        Kind::Rrr => 20,
        Kind::Source => 26,
        Kind::Mutation => 22,
    }
}

fn rule_of_bank(kind: Kind) -> u8
    ensures { result ≡ rule_of_role roles.Bank kind }
{
    match kind {
        Kind::Party => 17,
        Kind::Unit => 15,
        Kind::Parcel => 27,
        Kind::Rrr => 16,
        Kind::Source => 26,
        Kind::Mutation => 18,
    }
}

fn rule_of_surveyor(kind: Kind) -> u8
    ensures { result ≡ rule_of_role roles.CertifiedSurveyor kind }
{
    match kind {
        Kind::Party => 24,
        Kind::Unit => 23,
        Kind::Parcel => 27,
        Kind::Rrr => 23,
        Kind::Source => 26,
        Kind::Mutation => 25,
    }
}
