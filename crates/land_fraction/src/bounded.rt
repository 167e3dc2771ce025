//! A fraction, its sum and its difference.

ghost use Rattle.std.specs.Prelude.{◌≡◌, Some};
ghost use Rattle.land_fraction.specs.Ratio.{over, sum_of, difference_of, IsFraction};
ghost use Rattle.land_fraction.specs.Text.{fraction_text};
ghost use Rattle.land_fraction.specs.Answer.{IsFractionOrFault, fraction_of};

use crate::divisor::greatest_divisor;
use crate::fault::FractionFault;
use std::fmt;
use std::marker::Model;

/// The greatest denominator of a fraction.
pub const MAX_DENOMINATOR: u64 = 1_000_000_000;

/// A share of a whole (the Rational of ISO 19152:2012, within this project's bounds): above zero, at most
/// one, in lowest terms, its denominator at most 1_000_000_000.
///
/// Contracts see it as the pair of its numerator and its denominator, so equal fractions are equal values.
#[derive(Clone, Copy, Debug, PartialEq, Eq)]
pub struct Fraction {
    numerator: u64,
    denominator: u64,
}

impl Model for Fraction {
    ghost use Rattle.land_fraction.specs.Ratio.{Ratio, over, IsFraction};

    ghost Value = { Ratio };

    ghost view = { λ a. over a.numerator a.denominator };

    ghost invariant = { λ a. IsFraction (over a.numerator a.denominator) };

    ghost inverse = { λ f. record { numerator = f.numerator; denominator = f.denominator } };
}

impl Fraction {
    /// Returns the fraction `n`/`d` in lowest terms, or the first of these errors:
    ///
    /// - 101 `Zero`: `n` or `d` is 0.
    /// - 102 `AboveOne`: `n` is above `d`.
    /// - 103 `TooFine`: the denominator in lowest terms is above 1_000_000_000.
    pub fn new(n: u64, d: u64) -> Result<Fraction, FractionFault>
        ensures meaning { IsFractionOrFault (over n d) result }
        ensures value { result ≡ fraction_of (over n d) }
    {
        if n == 0 || d == 0 {
            return Err(FractionFault::Zero);
        }
        if n > d {
            return Err(FractionFault::AboveOne);
        }
        let divisor = greatest_divisor(n, d);
        let denominator = d / divisor;
        if denominator > MAX_DENOMINATOR {
            return Err(FractionFault::TooFine);
        }
        Ok(Fraction {
            numerator: n / divisor,
            denominator,
        })
    }

    /// Returns the sum of two fractions, exactly, or the first of these errors:
    ///
    /// - 102 `AboveOne`: the sum is above 1.
    /// - 103 `TooFine`: the denominator in lowest terms is above 1_000_000_000.
    pub fn plus(self, other: Fraction) -> Result<Fraction, FractionFault>
        ensures meaning { IsFractionOrFault (sum_of self other) result }
        ensures value { result ≡ fraction_of (sum_of self other) }
    {
        let own = self.numerator * other.denominator;
        let added = other.numerator * self.denominator;
        Fraction::new(own + added, self.denominator * other.denominator)
    }

    /// Returns the difference of two fractions, exactly, or the first of these errors:
    ///
    /// - 101 `Zero`: the result is 0, or `other` is greater.
    /// - 103 `TooFine`: the denominator in lowest terms is above 1_000_000_000.
    pub fn minus(self, other: Fraction) -> Result<Fraction, FractionFault>
        ensures meaning { IsFractionOrFault (difference_of self other) result }
        ensures value { result ≡ fraction_of (difference_of self other) }
    {
        let own = self.numerator * other.denominator;
        let taken = other.numerator * self.denominator;
        let left = own.saturating_sub(taken);
        Fraction::new(left, self.denominator * other.denominator)
    }

    /// Returns the numerator in lowest terms, 1 to the denominator.
    pub fn numerator(self) -> u64
        ensures value { result ≡ self.numerator }
        ensures lowest { IsFraction self }
    {
        self.numerator
    }

    /// Returns the denominator in lowest terms, 1 to 1_000_000_000.
    pub fn denominator(self) -> u64
        ensures value { result ≡ self.denominator }
        ensures lowest { IsFraction self }
    {
        self.denominator
    }
}

impl fmt::Display for Fraction {
    ghost output = { λ f. Some (fraction_text f) };

    fn fmt<W: fmt::Write>(&self, f: &mut fmt::Formatter<W>) -> fmt::Result {
        let (numerator, denominator) = (self.numerator, self.denominator);
        write!(f, "{numerator}/{denominator}")
    }
}
