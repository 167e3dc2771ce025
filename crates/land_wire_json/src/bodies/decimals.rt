//! Decimal digits of header fields, request targets, shares and words.
ghost use Rattle.std.specs.Prelude.{◌≡◌, ◌≤◌, length, true};
ghost use Rattle.std.specs.Char.{is_ascii_digit};
ghost use Rattle.std.specs.List.{list_all};
ghost use Rattle.std.specs.Str.Parse.{digits_value};
ghost use Rattle.land_wire_json.specs.Bodies.Decimals.{are_digits_up_to, digits_in};

/// Returns the value of 1 to `most` decimal digits, or `None` for any other text. Leading zeros are allowed.
pub fn read_digits(text: &[u8], most: usize) -> Option<u64>
    requires { most ≤ 18 }
    ensures { result ≡ digits_in most text.now }
{
    if are_digits(text, most) {
        Some(value_of(text))
    } else {
        None
    }
}

fn are_digits(text: &[u8], most: usize) -> bool
    ensures { result ≡ are_digits_up_to most text.now }
{
    let count = text.len();
    1 <= count && count <= most && has_only_digits(text)
}

fn has_only_digits(text: &[u8]) -> bool
    ensures { result ≡ list_all is_ascii_digit text.now }
{
    text.iter().all(|byte| byte.is_ascii_digit())
}

fn value_of(digits: &[u8]) -> u64
    requires are_digits { list_all is_ascii_digit digits.now ≡ true }
    requires few { length digits.now ≤ 18 }
    ensures { result ≡ digits_value 10 digits.now }
{
    let mut value = 0;
    for digit in digits {
        value = value * 10 + u64::from(*digit - b'0');
    }
    value
}
