//! The sight rule on parcels: 27. Every caller sees the parcels that exist.
ghost use Rattle.std.specs.Prelude.{◌≡◌};
ghost use Rattle.land_rules.specs.Rules.{first_denial, parcel_rules};

use crate::verdict::Verdict;
use land_core::kind::Kind;
use land_core::register::Register;

/// Returns the first rule that denies the view of a parcel.
pub(crate) fn verdict(at: &Register, number: u64) -> Verdict
    ensures { result ≡ first_denial (parcel_rules at.now number) }
{
    if at.stands(Kind::Parcel, number) {
        Verdict::Allowed
    } else {
        Verdict::Denied(27)
    }
}
