//! Reads decimal numbers and moments of header fields and request targets.
ghost use Rattle.std.specs.Prelude.{◌≡◌};
ghost use Rattle.land_wire.specs.Numbers.{decimal_in, moment_in_text, number_in_text};

use land_core::limits::{LAST_MOMENT, is_number};
use land_wire_json::bodies::decimals::read_digits;
use land_wire_json::bodies::wire_fault::WireFault;

/// The maximum number of digits of a number or a moment.
const MAX_DIGITS: usize = 13;

/// Reads the number of an object: 1 to 13 decimal digits, leading zeros allowed, of a value from 1 to
/// 1_000_000_000. Errors: 132 for any other text.
pub fn read_number(text: &[u8]) -> Result<u64, WireFault>
    ensures { result ≡ number_in_text text.now }
{
    let value = read_decimal(text)?;
    if is_number(value) {
        Ok(value)
    } else {
        Err(WireFault::Number)
    }
}

/// Reads a moment in Unix milliseconds: 1 to 13 decimal digits, leading zeros allowed, from 0 to the last
/// moment. Errors: 132 for any other text.
pub fn read_moment(text: &[u8]) -> Result<i64, WireFault>
    ensures { result ≡ moment_in_text text.now }
{
    let value = read_decimal(text)?;
    if LAST_MOMENT.unsigned_abs() < value {
        Err(WireFault::Number)
    } else {
        Ok(value as i64)
    }
}

fn read_decimal(text: &[u8]) -> Result<u64, WireFault>
    ensures { result ≡ decimal_in text.now }
{
    match read_digits(text, MAX_DIGITS) {
        Some(value) => Ok(value),
        None => Err(WireFault::Number),
    }
}
