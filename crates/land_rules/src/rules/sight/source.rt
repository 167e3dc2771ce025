//! The sight rules on sources: 26 and 27.
ghost use Rattle.std.specs.Prelude.{◌≡◌};
ghost use Rattle.land_rules.specs.Rules.{first_denial, sees_sources, source_rules};

use crate::verdict::Verdict;
use land_core::caller::Caller;
use land_core::kind::Kind;
use land_core::register::Register;
use land_core::role::Role;

/// Returns the first rule that denies the view of a source.
pub(crate) fn verdict(at: &Register, caller: Caller, number: u64) -> Verdict
    ensures { result ≡ first_denial (source_rules at.now caller number) }
{
    if !sees_sources(caller) {
        Verdict::Denied(26)
    } else if !at.stands(Kind::Source, number) {
        Verdict::Denied(27)
    } else {
        Verdict::Allowed
    }
}

/// Returns whether the caller's role sees sources.
fn sees_sources(caller: Caller) -> bool
    ensures { result ≡ sees_sources caller }
{
    caller.role == Role::Notary || caller.role == Role::StateAdministrator
}
