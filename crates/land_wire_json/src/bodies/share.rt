//! Reads shares from their texts.
ghost use Rattle.std.specs.Prelude.{◌≡◌};
ghost use Rattle.land_wire_json.specs.Bodies.Decimals.{digits_in};
ghost use Rattle.land_wire_json.specs.Bodies.Shares.{share_at, share_from, share_in_text};
ghost use Rattle.serde_json.specs.View.{view};

use crate::bodies::decimals::read_digits;
use crate::bodies::fields::text_at;
use crate::bodies::wire_fault::WireFault;
use land_fraction::Fraction;
use serde_json::Value;

/// Reads the share of a key.
///
/// Errors: 131 if it is missing or not a string; 132 if the text is not 1 to 18 digits, `/`, 1 to 18 digits;
/// 101 to 103 if the numbers do not make a fraction.
#[tactic(auto, unfolding(crate::specs::Bodies::Shares::share_at))]
pub fn share_at(value: &Value, key: &str) -> Result<Fraction, WireFault>
    ensures { result ≡ share_at key.now (view value.now) }
{
    share_of(text_at(value, key)?)
}

/// Reads a share from its text. Errors: 132 if it is not 1 to 18 digits, `/`, 1 to 18 digits; then 101 to
/// 103.
#[tactic(auto, unfolding(crate::specs::Bodies::Shares::share_in_text))]
pub fn share_of(text: &str) -> Result<Fraction, WireFault>
    ensures { result ≡ share_in_text text.now }
{
    match text.split_once('/') {
        Some((numerator, denominator)) => share_from(numerator.as_bytes(), denominator.as_bytes()),
        None => Err(WireFault::Number),
    }
}

fn share_from(numerator: &[u8], denominator: &[u8]) -> Result<Fraction, WireFault>
    ensures { result ≡ share_from (digits_in 18 numerator.now) (digits_in 18 denominator.now) }
{
    match (read_digits(numerator, 18), read_digits(denominator, 18)) {
        (Some(numerator), Some(denominator)) => match Fraction::new(numerator, denominator) {
            Ok(share) => Ok(share),
            Err(fault) => Err(WireFault::Share(fault)),
        },
        _ => Err(WireFault::Number),
    }
}
