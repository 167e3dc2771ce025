//! Coordinates as words.

ghost use Rattle.std.specs.Prelude.{◌≡◌, ◌≤◌, ◌+◌, true, min, length, drop};
ghost use Rattle.std.specs.List.{position, position_or_len};
ghost use Rattle.std.specs.Option.{option_map};
ghost use Rattle.std.specs.Str.Parse.{digits_value};
ghost use Rattle.land_shape.specs.Numbers.{is_point_byte, are_digits, are_zeros, are_few_zeros, digits_of};
ghost use Rattle.land_shape.specs.Numbers.{unsigned_of, split_sign};
ghost use Rattle.land_shape.specs.Steps.{ReadsNumber};

use crate::faults::ShapeFault;

/// The greatest coordinate, in millimetres.
const MAX_COORDINATE: u64 = 10_000_000_000;

/// One more than the maximum; represents every number above it.
const OVER_MAX: u64 = MAX_COORDINATE + 1;

/// Returns the value of digits, or the one above the maximum if it is greater.
fn capped_value(digits: &[u8]) -> u64
    requires { are_digits digits.now ≡ true }
    ensures { result ≡ min (digits_value 10 digits.now) 10000000001 }
{
    let mut value = 0;
    for digit in digits {
        value = (value * 10 + u64::from(*digit - b'0')).min(OVER_MAX);
    }
    value
}

/// Checks if all bytes are digits.
fn are_digits(bytes: &[u8]) -> bool
    ensures { result ≡ are_digits bytes.now }
{
    bytes.iter().all(|byte| byte.is_ascii_digit())
}

/// Checks if all bytes are zeros.
fn are_zeros(bytes: &[u8]) -> bool
    ensures { result ≡ are_zeros bytes.now }
{
    bytes.iter().all(|byte| *byte == b'0')
}

/// Checks if the bytes are at most 20 zeros.
fn are_few_zeros(bytes: &[u8]) -> bool
    ensures { result ≡ are_few_zeros bytes.now }
{
    are_zeros(bytes) && bytes.len() <= 20
}

/// Returns the capped value of one digit or more.
fn digits_of(bytes: &[u8]) -> Option<u64>
    ensures { result ≡ option_map (λ n. min n 10000000001) (digits_of bytes.now) }
{
    if !bytes.is_empty() && are_digits(bytes) {
        Some(capped_value(bytes))
    } else {
        None
    }
}

/// Returns the index of the first decimal point, if any.
fn find_point(word: &[u8]) -> Option<usize>
    ensures { result ≡ position is_point_byte word.now }
{
    word.iter().position(|byte| *byte == b'.')
}

/// Returns the index of the first decimal point, or the length if the word has none.
fn first_point(word: &[u8]) -> usize
    ensures value { result ≡ position_or_len is_point_byte word.now }
    ensures within { result ≤ length word.now }
{
    find_point(word).unwrap_or(word.len())
}

/// Returns the bytes after a decimal point; empty if the word has none.
fn after_point(word: &[u8], point: usize) -> &[u8]
    requires { point ≤ length word.now }
    ensures { result.now ≡ drop (point + 1) word.now }
{
    if point < word.len() {
        &word[point + 1..]
    } else {
        &word[point..]
    }
}

/// Returns the capped value of digits with an optional decimal point and zeros.
fn unsigned_of(word: &[u8]) -> Option<u64>
    ensures { result ≡ option_map (λ n. min n 10000000001) (unsigned_of word.now) }
{
    let point = first_point(word);
    if are_few_zeros(after_point(word, point)) {
        digits_of(&word[..point])
    } else {
        None
    }
}

/// Returns whether the first byte is a minus, and the remainder without a sign.
fn split_sign(word: &[u8]) -> (bool, &[u8])
    ensures negative { result.0 ≡ (split_sign word.now).0 }
    ensures rest { result.1.now ≡ (split_sign word.now).1 }
{
    match word.split_first() {
        Some((b'-', rest)) => (true, rest),
        Some((b'+', rest)) => (false, rest),
        _ => (false, word),
    }
}

/// Returns the coordinate of a word, in millimetres. Errors: 114 `Number`, 115 `Range`.
pub(crate) fn coordinate(word: &[u8]) -> Result<i64, ShapeFault>
    ensures { ReadsNumber word.now result }
{
    let (negative, rest) = split_sign(word);
    let Some(size) = unsigned_of(rest) else {
        return Err(ShapeFault::Number);
    };
    if size > MAX_COORDINATE {
        return Err(ShapeFault::Range);
    }
    let value = size as i64;
    Ok(if negative { -value } else { value })
}
