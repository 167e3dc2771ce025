//! Compares bytes with words.
ghost use Rattle.std.specs.Prelude.{◌≡◌};
ghost use Rattle.std.specs.Str.{str_eq_ignore_ascii_case};

/// Checks whether the bytes equal a word without case, as names of fields are compared.
pub fn matches_ignoring_case(bytes: &[u8], word: &str) -> bool
    ensures { result ≡ str_eq_ignore_ascii_case bytes.now word.now }
{
    bytes.eq_ignore_ascii_case(word.as_bytes())
}
