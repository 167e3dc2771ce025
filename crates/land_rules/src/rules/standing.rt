//! Standing rules: the rules on callers and acts, by the register now.
ghost use Rattle.std.specs.Prelude.{◌≡◌};
ghost use Rattle.land_rules.specs.Rules.{first_denial, standing_rules, caller_rules, sees_only_present};

use crate::verdict::Verdict;
use land_core::ask::Ask;
use land_core::caller::Caller;
use land_core::kind::Kind;
use land_core::register::Register;
use land_core::role::Role;

mod act;

/// Returns the first standing rule that denies a request.
pub(crate) fn verdict(now: &Register, caller: Caller, ask: &Ask, past: bool) -> Verdict
    ensures { result ≡ first_denial (standing_rules now.now caller ask.now past) }
{
    match caller_verdict(now, caller, past) {
        Verdict::Allowed => match ask {
            Ask::View { .. } | Ask::List { .. } | Ask::Sheet { .. } => Verdict::Allowed,
            Ask::Do(act) => act::verdict(now, caller, act),
        },
        denied => denied,
    }
}

fn caller_verdict(now: &Register, caller: Caller, past: bool) -> Verdict
    ensures { result ≡ first_denial (caller_rules now.now caller past) }
{
    if !now.stands(Kind::Party, caller.party) {
        Verdict::Denied(1)
    } else if !now.holds(caller.party, caller.role) {
        Verdict::Denied(2)
    } else if past && sees_only_present(caller) {
        Verdict::Denied(3)
    } else {
        Verdict::Allowed
    }
}

/// Returns whether the caller's role sees only the present.
fn sees_only_present(caller: Caller) -> bool
    ensures { result ≡ sees_only_present caller }
{
    caller.role == Role::Bank
        || caller.role == Role::Conveyancer
        || caller.role == Role::CertifiedSurveyor
}
