//! Laws, each stated on definitions only.
ghost use Rattle.land_select_queries.specs.Sights.Laws.{AscendingListsAreOne, OutOfRangeSeeAlike};
ghost use Rattle.land_select_queries.specs.Sights.Laws.{SelectedIsSeen};
ghost use Rattle.land_select_queries.specs.Sights.Laws.{SelectionsAreTheRules, UnreferencedSeeLeast};

use land_core::laws::soundness_by_number;
use land_rules::laws::seen_lists_are_exact;

/// States that the selections of a role and a kind return exactly the numbers that the policy, without
/// mandates, lets the caller see.
pub fn selections_are_the_rules()
    ensures { SelectionsAreTheRules }
{
    seen_lists_are_exact();
    soundness_by_number();
}

/// States that increasing lists with the same numbers are equal.
pub fn ascending_lists_are_one()
    ensures { AscendingListsAreOne }
{}

/// States that the numbers of the selections, in increasing order and without repetition, are the list of
/// visible numbers, without mandates.
pub fn selected_is_seen()
    ensures { SelectedIsSeen }
{
    selections_are_the_rules();
    seen_lists_are_exact();
}

/// States that a number that is not in use at a time, as a party, a member, the party of an entry or a
/// lodger, sees only what each other number sees.
pub fn unreferenced_see_least()
    ensures { UnreferencedSeeLeast }
{}

/// States that numbers that no party can have see the same. So 0 can replace a number that is too large for a
/// parameter.
pub fn out_of_range_see_alike()
    ensures { OutOfRangeSeeAlike }
{
    soundness_by_number();
    unreferenced_see_least();
}
