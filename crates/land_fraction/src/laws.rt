//! Laws of the definitions. Calling a function here gives its law as a fact; it does nothing else.

ghost use Rattle.land_fraction.specs.Laws.{FractionAnswerLaw, CommonLaw, WholenessLaw, OneFractionLaw};
ghost use Rattle.land_fraction.specs.Laws.{SameFractionLaw, OrderLaw};
ghost use Rattle.land_fraction.specs.Laws.{KeptSumLaw, PermutedLaw, MovedLaw, SplitLaw, JoinedLaw};
ghost use Rattle.land_fraction.specs.Laws.{SumPartsLaw, DifferencePartsLaw, SamePartsLaw};

/// Proves that `fraction_of` returns the unique correct result for a pair: one fraction or one fault.
pub fn answers_of_pairs()
    ensures { FractionAnswerLaw }
{}

/// Proves that `common_of` returns the least common multiple of a list's denominators, or `None` if it is too
/// large.
pub fn common_of_lists()
    ensures { CommonLaw }
{}

/// Proves that `wholeness` is `Yes` if and only if the shares sum to 1 with some common multiple in range,
/// and `TooFine` if and only if no common multiple is in range.
pub fn wholeness_of_lists()
    ensures { WholenessLaw }
{}

/// Proves that fractions with the same value are equal.
pub fn fractions_are_one()
    ensures { OneFractionLaw }
{}

/// Proves that a fraction is unchanged by `fraction_of`.
pub fn fractions_stay()
    ensures { SameFractionLaw }
{}

/// Proves that fractions are ordered as their cross products are.
pub fn order_of_fractions()
    ensures { OrderLaw }
{}

/// Proves that moving a share from one fraction to another preserves their sum.
pub fn moving_keeps_the_sum()
    ensures { KeptSumLaw }
{}

/// Proves that the wholeness of a list does not depend on its order.
pub fn order_of_lists()
    ensures { PermutedLaw }
{}

/// Proves that a whole list in which a share moves from one entry to another stays whole, or becomes too
/// fine.
pub fn moving_keeps_wholeness()
    ensures { MovedLaw }
{}

/// Proves that a whole list in which a share of an entry becomes a new entry stays whole, or becomes too
/// fine.
pub fn splitting_keeps_wholeness()
    ensures { SplitLaw }
{}

/// Proves that a whole list in which two entries become one stays whole, or becomes too fine.
pub fn joining_keeps_wholeness()
    ensures { JoinedLaw }
{}

/// Proves that a sum has the parts of both fractions.
pub fn parts_of_sums()
    ensures { SumPartsLaw }
{}

/// Proves that a difference and its subtrahend have the parts of the minuend.
pub fn parts_of_differences()
    ensures { DifferencePartsLaw }
{}

/// Proves that if a list is whole, another one with the same parts is whole or too fine.
pub fn same_parts_keep_wholeness()
    ensures { SamePartsLaw }
{}
