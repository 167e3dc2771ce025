//! Errors of fractions.

ghost use Rattle.std.specs.Prelude.{◌≡◌, Some};
ghost use Rattle.land_fraction.specs.Number.{fraction_fault_number};
ghost use Rattle.land_fraction.specs.Text.{fault_text};

use std::error::Error;
use std::fmt;

/// Why a pair of numbers is not a fraction. If several faults hold, the one with the lowest number is
/// returned.
#[derive(Clone, Copy, Debug, PartialEq, Eq)]
pub enum FractionFault {
    /// 101: the numerator or the denominator is 0, or the result of a subtraction is not positive.
    Zero,
    /// 102: the value is above one.
    AboveOne,
    /// 103: in lowest terms the denominator is above 1_000_000_000.
    TooFine,
}

impl FractionFault {
    /// Returns the number of the error, 101 to 103.
    pub fn number(self) -> u16
        ensures { result ≡ fraction_fault_number self }
    {
        match self {
            FractionFault::Zero => 101,
            FractionFault::AboveOne => 102,
            FractionFault::TooFine => 103,
        }
    }
}

impl fmt::Display for FractionFault {
    ghost output = { λ fault. Some (fault_text fault) };

    fn fmt<W: fmt::Write>(&self, f: &mut fmt::Formatter<W>) -> fmt::Result {
        match self {
            FractionFault::Zero => write!(f, "a fraction is above zero"),
            FractionFault::AboveOne => write!(f, "a fraction is at most one"),
            FractionFault::TooFine => write!(
                f,
                "the denominator in lowest terms is above 1000000000"
            ),
        }
    }
}

impl Error for FractionFault {}
