//! The words before the body of a polygon.

ghost use Rattle.std.specs.Prelude.{◌≡◌};
ghost use Rattle.std.specs.Str.{str_eq_ignore_ascii_case};
ghost use Rattle.land_shape.specs.Grammar.{is_keyword, is_tag, is_tagged_keyword, is_empty_word};

/// Checks if two words are equal, ignoring ASCII case.
fn equals_ignoring_case(word: &[u8], other: &[u8]) -> bool
    ensures { result ≡ str_eq_ignore_ascii_case word.now other.now }
{
    word.eq_ignore_ascii_case(other)
}

pub(crate) fn is_keyword(word: &[u8]) -> bool
    ensures { result ≡ is_keyword word.now }
{
    equals_ignoring_case(word, b"polygon")
}

pub(crate) fn is_tag(word: &[u8]) -> bool
    ensures { result ≡ is_tag word.now }
{
    equals_ignoring_case(word, b"z")
        || equals_ignoring_case(word, b"m")
        || equals_ignoring_case(word, b"zm")
}

/// Checks if a word is the keyword with a tag joined to it.
pub(crate) fn is_tagged_keyword(word: &[u8]) -> bool
    ensures { result ≡ is_tagged_keyword word.now }
{
    equals_ignoring_case(word, b"polygonz")
        || equals_ignoring_case(word, b"polygonm")
        || equals_ignoring_case(word, b"polygonzm")
}

pub(crate) fn is_empty_word(word: &[u8]) -> bool
    ensures { result ≡ is_empty_word word.now }
{
    equals_ignoring_case(word, b"empty")
}
