//! Fractions, as examples calculated by hand. A fraction is written as a pair of numerator and denominator.
use land_fraction::{Fraction, FractionFault, Whole, common, is_whole};
use std::alloc::{AllocError, Global};
use std::test::Fail;

type Pair = (u64, u64);

/// Returns the pair of a result, or the number of its fault.
fn shown(answer: Result<Fraction, FractionFault>) -> Result<Pair, u16> {
    match answer {
        Ok(f) => Ok((f.numerator(), f.denominator())),
        Err(fault) => Err(fault.number()),
    }
}

fn fraction(pair: Pair) -> Result<Fraction, FractionFault> {
    Fraction::new(pair.0, pair.1)
}

/// A pair, and the result of reducing it.
struct Reduced(Pair, Result<Pair, u16>);

const REDUCED: &[Reduced] = &[
    Reduced((2, 4), Ok((1, 2))),
    Reduced((1, 1), Ok((1, 1))),
    Reduced((6, 8), Ok((3, 4))),
    Reduced((0, 5), Err(101)),
    Reduced((5, 0), Err(101)),
    Reduced((0, 0), Err(101)),
    Reduced((3, 2), Err(102)),
    Reduced((2, 1), Err(102)),
    Reduced((1000000001, 1000000000), Err(102)),
    Reduced((1, 1000000000), Ok((1, 1000000000))),
    Reduced((1, 1000000001), Err(103)),
    Reduced((2, 2000000000), Ok((1, 1000000000))),
    Reduced((2, 2000000002), Err(103)),
    Reduced((999999999, 1000000000), Ok((999999999, 1000000000))),
    Reduced((1000000001, 1000000001), Ok((1, 1))),
    // 2^64 - 1 is 3 * 6148914691236517205 and odd, so it has no common divisor with 2^63
    Reduced((18446744073709551615, 18446744073709551615), Ok((1, 1))),
    Reduced((6148914691236517205, 18446744073709551615), Ok((1, 3))),
    Reduced((18446744073709551615, 18446744073709551614), Err(102)),
    Reduced((18446744073709551614, 18446744073709551615), Err(103)),
    Reduced((9223372036854775808, 18446744073709551615), Err(103)),
    Reduced((0, 18446744073709551615), Err(101)),
    Reduced((18446744073709551615, 0), Err(101)),
    // 18446744073 * 1000000000, and 18446744055 * 1000000001
    Reduced((18446744073, 18446744073000000000), Ok((1, 1000000000))),
    Reduced((18446744055, 18446744073446744055), Err(103)),
];

#[test]
fn pairs_are_reduced_or_refused(rt: HostRuntime) {
    for row in REDUCED {
        let (n, d) = row.0;
        assert!(&rt; shown(Fraction::new(n, d)) == row.1, "{n}/{d}");
    }
}

/// Two pairs, and the result of an operation on them.
struct Joined(Pair, Pair, Result<Pair, u16>);

const SUMS: &[Joined] = &[
    Joined((1, 2), (1, 3), Ok((5, 6))),
    Joined((1, 3), (1, 6), Ok((1, 2))),
    Joined((1, 2), (1, 2), Ok((1, 1))),
    Joined((1, 2), (2, 3), Err(102)),
    Joined((1, 1), (1, 1000000000), Err(102)),
    Joined((1, 999999999), (1, 1000000000), Err(103)),
    Joined((999999999, 1000000000), (1, 1000000000), Ok((1, 1))),
    Joined((3, 1000000000), (7, 1000000000), Ok((1, 100000000))),
    Joined((1, 500000000), (1, 1000000000), Ok((3, 1000000000))),
    Joined((1, 999999999), (999999998, 999999999), Ok((1, 1))),
    Joined((999999998, 999999999), (999999999, 1000000000), Err(102)),
    // 31622 * 31623 is 999982506 and 31623 * 31624 is 1000045752; neighbours have no common divisor
    Joined((1, 31622), (1, 31623), Ok((63245, 999982506))),
    Joined((1, 31623), (1, 31624), Err(103)),
];

fn is_sum(row: &Joined) -> Result<bool, FractionFault> {
    Ok(shown(fraction(row.0)?.plus(fraction(row.1)?)) == row.2)
}

#[test]
fn sums_are_exact(rt: HostRuntime) -> Result<(), Fail> {
    for (place, row) in SUMS.iter().enumerate() {
        assert!(&rt; is_sum(row)?, "row {place}");
    }
    Ok(())
}

const DIFFERENCES: &[Joined] = &[
    Joined((1, 2), (1, 3), Ok((1, 6))),
    Joined((5, 6), (1, 3), Ok((1, 2))),
    Joined((1, 2), (1, 2), Err(101)),
    Joined((1, 3), (1, 2), Err(101)),
    Joined((1, 1000000000), (1, 1), Err(101)),
    Joined((1, 1), (1, 1000000000), Ok((999999999, 1000000000))),
    Joined((1, 999999999), (1, 1000000000), Err(103)),
    Joined((1, 31622), (1, 31623), Ok((1, 999982506))),
];

fn is_difference(row: &Joined) -> Result<bool, FractionFault> {
    Ok(shown(fraction(row.0)?.minus(fraction(row.1)?)) == row.2)
}

#[test]
fn differences_are_exact(rt: HostRuntime) -> Result<(), Fail> {
    for (place, row) in DIFFERENCES.iter().enumerate() {
        assert!(&rt; is_difference(row)?, "row {place}");
    }
    Ok(())
}

/// Shares, their least common multiple, and whether they sum to one.
struct Listed(&'static [Pair], Option<u64>, Whole);

const NEARLY_ONE: Pair = (999999999, 1000000000);

const LITTLE: Pair = (1, 1000000000);

const LISTS: &[Listed] = &[
    Listed(&[], Some(1), Whole::No),
    Listed(&[(1, 1)], Some(1), Whole::Yes),
    Listed(&[(1, 1), (1, 1)], Some(1), Whole::No),
    Listed(&[(1, 4), (3, 4)], Some(4), Whole::Yes),
    Listed(&[(1, 3), (1, 3), (1, 3)], Some(3), Whole::Yes),
    Listed(&[(1, 3), (1, 3), (1, 4)], Some(12), Whole::No),
    Listed(&[(1, 2), (1, 3), (1, 6)], Some(6), Whole::Yes),
    Listed(&[(1, 6), (1, 2), (1, 3)], Some(6), Whole::Yes),
    Listed(&[(1, 2), (1, 2), (1, 2)], Some(2), Whole::No),
    Listed(&[(1, 4), (1, 6)], Some(12), Whole::No),
    Listed(&[NEARLY_ONE], Some(1000000000), Whole::No),
    Listed(&[NEARLY_ONE, LITTLE], Some(1000000000), Whole::Yes),
    Listed(
        &[(1, 3), (1, 3), (333333333, 1000000000)],
        None,
        Whole::TooFine,
    ),
    Listed(&[(1, 999999999), LITTLE], None, Whole::TooFine),
    Listed(&[(1, 31622), (1, 31623)], Some(999982506), Whole::No),
    Listed(&[(1, 31623), (1, 31624)], None, Whole::TooFine),
    Listed(
        &[LITTLE, (1, 500000000), (1, 2)],
        Some(1000000000),
        Whole::No,
    ),
];

/// Returns whether a list has the results of its row.
fn is_listed(alloc: Global, row: &Listed) -> Result<bool, Fail> {
    let mut shares = Vec::new(alloc);
    for pair in row.0 {
        shares.push(fraction(*pair)?)?;
    }
    Ok(common(shares.as_slice()) == row.1 && is_whole(shares.as_slice()) == row.2)
}

#[test]
fn lists_are_whole_or_not_or_too_fine(rt: HostRuntime) -> Result<(), Fail> {
    for (place, row) in LISTS.iter().enumerate() {
        assert!(&rt; is_listed(rt.alloc(), row)?, "row {place}");
    }
    Ok(())
}

#[test]
fn sixty_four_shares(rt: HostRuntime) -> Result<(), Fail> {
    let shares = [Fraction::new(1, 64)?; 64];
    let ones = [Fraction::new(1, 1)?; 64];
    let fewer = &shares[..63];
    assert!(&rt; common(&shares) == Some(64) && is_whole(&shares) == Whole::Yes);
    assert!(&rt; is_whole(fewer) == Whole::No && is_whole(&ones) == Whole::No);
    Ok(())
}

const RISING: &[Pair] = &[
    (1, 1000000000),
    (1, 999999999),
    (1, 3),
    (1, 2),
    (2, 3),
    (999999998, 999999999),
    (999999999, 1000000000),
    (1, 1),
];

/// Returns whether each pair of a list is below the next one.
fn rise(pairs: &[Pair]) -> Result<bool, FractionFault> {
    let mut below = None;
    for pair in pairs {
        let upper = fraction(*pair)?;
        if let Some(lower) = below {
            if !(lower < upper && upper > lower && upper.max(lower) == upper) {
                return Ok(false);
            }
        }
        below = Some(upper);
    }
    Ok(true)
}

#[test]
fn equal_and_ordered(rt: HostRuntime) -> Result<(), Fail> {
    let half = Fraction::new(2, 4)?;
    assert!(&rt; half == Fraction::new(3, 6)? && half != Fraction::new(1, 3)?);
    assert!(&rt; rise(RISING)?);
    Ok(())
}

/// Returns whether a fraction is printed as this text.
fn is_printed(alloc: Global, pair: Pair, text: &str) -> Result<bool, Fail> {
    let share = fraction(pair)?;
    Ok(format!(in alloc; "{share}")?.as_str() == text)
}

/// Returns whether a fault has this text.
fn is_told(alloc: Global, fault: FractionFault, text: &str) -> Result<bool, AllocError> {
    Ok(format!(in alloc; "{fault}")?.as_str() == text)
}

/// A fault, its number and its text.
struct ExpectedReply(FractionFault, u16, &'static str);

const FAULTS: &[ExpectedReply] = &[
    ExpectedReply(FractionFault::Zero, 101, "a fraction is above zero"),
    ExpectedReply(FractionFault::AboveOne, 102, "a fraction is at most one"),
    ExpectedReply(
        FractionFault::TooFine,
        103,
        "the denominator in lowest terms is above 1000000000",
    ),
];

/// Returns whether the faults have their numbers and texts.
fn are_told(alloc: Global) -> Result<bool, AllocError> {
    for row in FAULTS {
        if row.0.number() != row.1 || !is_told(alloc, row.0, row.2)? {
            return Ok(false);
        }
    }
    Ok(true)
}

#[test]
fn printed(rt: HostRuntime) -> Result<(), Fail> {
    let alloc = rt.alloc();
    assert!(&rt;
        is_printed(alloc, (2, 6), "1/3")?
            && is_printed(alloc, NEARLY_ONE, "999999999/1000000000")?
            && are_told(alloc)?
    );
    Ok(())
}
