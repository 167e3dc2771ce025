//! Sums of shares.

ghost use Rattle.std.specs.Prelude.{◌≡◌, ◌*◌, ◌<◌, ◌≤◌, ◌^◌, ◌↔◌, IsTrue};
ghost use Rattle.land_fraction.specs.Divisor.{IsLeastMultiple};
ghost use Rattle.land_fraction.specs.Ratio.{max_denominator};
ghost use Rattle.land_fraction.specs.Wholeness.{IsCommon, IsCommonMultiple, IsWholeness, common_of, parts_of};
ghost use Rattle.land_fraction.specs.Wholeness.{wholeness};

use crate::bounded::{Fraction, MAX_DENOMINATOR};
use crate::divisor::greatest_divisor;

/// Whether the fractions of a list sum to one.
#[derive(Clone, Copy, Debug, PartialEq, Eq)]
pub enum Whole {
    /// They sum to 1.
    Yes,
    /// They sum to another number.
    No,
    /// No common multiple of the denominators is at most 1_000_000_000.
    TooFine,
}

/// Returns the least common multiple of the denominators, 1 for the empty list; `None` if it is above
/// 1_000_000_000.
pub fn common(shares: &[Fraction]) -> Option<u64>
    ensures meaning { IsCommon shares.now result }
    ensures value { result ≡ common_of shares.now }
{
    let mut multiple = 1;
    for share in shares {
        multiple = least_multiple(multiple, share.denominator());
        if multiple > MAX_DENOMINATOR {
            return None;
        }
    }
    Some(multiple)
}

/// Checks if the shares sum to 1: for some common multiple of their denominators, at most 1_000_000_000,
/// their parts sum to it. The empty list does not.
pub fn is_whole(shares: &[Fraction]) -> Whole
    ensures meaning { IsWholeness shares.now result }
    ensures value { result ≡ wholeness shares.now }
{
    match common(shares) {
        None => Whole::TooFine,
        Some(multiple) if has_all_parts(shares, multiple) => Whole::Yes,
        Some(_) => Whole::No,
    }
}

/// Returns the least common multiple of two numbers above 0.
fn least_multiple(a: u64, b: u64) -> u64
    requires first { 0 < a }
    requires second { 0 < b }
    requires fits { a * b < 2 ^ 64 }
    ensures { IsLeastMultiple a b result }
{
    a / greatest_divisor(a, b) * b
}

/// Checks if the shares together have all of `multiple` equal parts.
fn has_all_parts(shares: &[Fraction], multiple: u64) -> bool
    requires bound { multiple ≤ max_denominator }
    ensures { IsTrue result ↔ (parts_of multiple shares.now ≡ multiple) }
{
    let mut parts = 0;
    for share in shares {
        parts += share.numerator() * (multiple / share.denominator());
        if parts > multiple {
            return false;
        }
    }
    parts == multiple
}
