//! The order of fractions.

ghost use Rattle.std.proofs.Common.{rules};
ghost use Rattle.std.specs.Prelude.{◌≡◌};
ghost use Rattle.std.specs.Cmp.{partial_order_from_own_ties};
ghost use Rattle.std.specs.Cmp.Rules.{comparing};
ghost use Rattle.std.specs.Ordering.{as_partial_cmp};
ghost use Rattle.land_fraction.specs.Order.{cross_cmp, ratio_cmp};

use crate::bounded::Fraction;
use std::cmp::Ordering;

impl Ord for Fraction {
    ghost cmp = { ratio_cmp };

    ghost total = { Prim.search (comparing, rules) };

    ghost matches_partial_cmp = { Prim.search (comparing, rules) };

    ghost matches_eq = { Prim.search (comparing, rules) };

    fn cmp(&self, other: &Fraction) -> Ordering
        ensures order { result ≡ ratio_cmp self.now other.now }
        ensures exact { result ≡ cross_cmp self.now other.now }
    {
        let own = self.numerator() * other.denominator();
        let others = other.numerator() * self.denominator();
        own.cmp(&others)
    }
}

impl PartialOrd for Fraction {
    ghost partial_cmp = { as_partial_cmp ratio_cmp };

    ghost laws = { partial_order_from_own_ties (Prim.search (comparing, rules))
        (Prim.search (comparing, rules)) };

    fn partial_cmp(&self, other: &Fraction) -> Option<Ordering> {
        Some(self.cmp(other))
    }
}
