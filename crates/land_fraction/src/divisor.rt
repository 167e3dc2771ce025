//! Euclid's algorithm.

ghost use Rattle.land_fraction.specs.Divisor.{IsGreatestDivisor};

/// Returns the greatest common divisor of two numbers, by Euclid's algorithm. If one number is 0, returns the
/// other.
pub fn greatest_divisor(a: u64, b: u64) -> u64
    ensures { IsGreatestDivisor a b result }
{
    let mut divisor = a;
    let mut rest = b;
    while rest != 0 {
        let next = divisor % rest;
        divisor = rest;
        rest = next;
    }
    divisor
}
