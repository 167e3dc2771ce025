//! Laws on verdicts from few records. Each is stated only over the definitions.
ghost use Rattle.land_rules.specs.Denials.Interests.{InterestsDecideSight, NamesDecideInterests};
ghost use Rattle.land_rules.specs.Denials.Sight.{FullSightShowsAll, LodgersSeeTheirOwn, SightDecidesVerdicts};
ghost use Rattle.land_rules.specs.Denials.Sight.{PendingUnitsAreVisible};
ghost use Rattle.land_rules.specs.Denials.Standing.{EvidenceIsEnough, LookupsAreEnough};

use crate::laws::denials_reveal_only_sight;
use land_core::laws::soundness_by_number;

/// The standing rules read the caller, the role that it claims, the entry that the request would discharge
/// and the mutation that it would decide. They read nothing else.
pub fn evidence_is_enough()
    ensures { EvidenceIsEnough }
{}

/// The verdict on a view follows from whether the object is visible and, for a unit that is not, from the
/// caller's own pending mutations.
pub fn sight_decides_verdicts()
    ensures { SightDecidesVerdicts }
{
    denials_reveal_only_sight();
}

/// A role that sees all objects of a kind sees exactly the objects that exist.
pub fn full_sight_shows_all()
    ensures { FullSightShowsAll }
{}

/// A bank, a conveyancer or a certified surveyor sees a mutation exactly if it exists and the caller lodged
/// it.
pub fn lodgers_see_their_own()
    ensures { LodgersSeeTheirOwn }
{}

/// A conveyancer sees the units that exist and to which one of its undecided mutations refers, and the
/// entries of units to which one refers.
pub fn pending_units_are_visible()
    ensures { PendingUnitsAreVisible }
{
    soundness_by_number();
}

/// The caller with its roles, and the entry and the mutation to which the request refers, are sufficient
/// evidence if they are read by key.
pub fn lookups_are_enough()
    ensures { LookupsAreEnough }
{}

/// The interest of a citizen or a bank in a unit decides whether it sees the unit and its entries. A citizen
/// sees a mutation by its interest in the units to which the mutation refers.
pub fn interests_decide_sight()
    ensures { InterestsDecideSight }
{
    soundness_by_number();
}

/// The interest of a citizen in a unit follows from the names under which it has rights and the entries of
/// the unit.
pub fn names_decide_interests()
    ensures { NamesDecideInterests }
{}
