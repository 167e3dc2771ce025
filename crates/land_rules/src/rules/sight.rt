//! Sight rules: the visible objects, by the register at the requested time.
ghost use Rattle.std.specs.Prelude.{◌≡◌};
ghost use Rattle.land_rules.specs.Rules.{first_denial, view_rules};

use crate::verdict::Verdict;
use land_core::caller::Caller;
use land_core::kind::Kind;
use land_core::register::Register;

mod mutation;
mod parcel;
mod party;
mod rrr;
mod source;
mod unit;

/// Returns the first sight rule that denies the view of an object.
pub(crate) fn verdict(at: &Register, caller: Caller, kind: Kind, number: u64) -> Verdict
    ensures { result ≡ first_denial (view_rules at.now caller kind number) }
{
    match kind {
        Kind::Party => party::verdict(at, caller, number),
        Kind::Unit => unit::verdict(at, caller, number),
        Kind::Parcel => parcel::verdict(at, number),
        Kind::Rrr => rrr::verdict(at, caller, number),
        Kind::Source => source::verdict(at, caller, number),
        Kind::Mutation => mutation::verdict(at, caller, number),
    }
}
