//! Limits of texts and numbers.
ghost use Rattle.std.specs.Prelude.{◌≡◌, length};
ghost use Rattle.std.specs.List.{list_all};
ghost use Rattle.std.specs.Str.{chars};
ghost use Rattle.land_core.specs.Numbers.{is_number};
ghost use Rattle.land_core.specs.Texts.{are_words, is_label, is_reference, is_title, is_text, is_name};
ghost use Rattle.land_core.specs.Texts.{is_plain};

/// The last moment, in Unix milliseconds: the end of the year 2099 UTC.
pub const LAST_MOMENT: i64 = 4_102_444_799_999;

/// The next number of a register whose numbers, 1 to 1_000_000_000, are all in use.
pub const LAST_NEXT: u64 = 1_000_000_001;

/// Checks if a text is a valid name: 1 to 200 characters, without ASCII control characters.
pub fn is_name(text: &str) -> bool
    ensures { result ≡ is_name text.now }
{
    is_text(text, 1, 200)
}

/// Checks if a text is a valid title of a document: 1 to 200 characters.
pub fn is_title(text: &str) -> bool
    ensures { result ≡ is_title text.now }
{
    is_text(text, 1, 200)
}

/// Checks if a text is a valid wording of a restriction or a responsibility: 1 to 200 characters.
pub fn are_words(text: &str) -> bool
    ensures { result ≡ are_words text.now }
{
    is_text(text, 1, 200)
}

/// Checks if a text is a valid label of a parcel: 1 to 40 characters.
pub fn is_label(text: &str) -> bool
    ensures { result ≡ is_label text.now }
{
    is_text(text, 1, 40)
}

/// Checks if a text is a valid reference of a mutation: 1 to 40 characters.
pub fn is_reference(text: &str) -> bool
    ensures { result ≡ is_reference text.now }
{
    is_text(text, 1, 40)
}

/// Checks if a number can belong to an object: 1 to 1_000_000_000.
pub fn is_number(number: u64) -> bool
    ensures { result ≡ is_number number }
{
    1 <= number && number <= 1_000_000_000
}

/// Checks if a text has `least` to `most` characters (Unicode scalar values) and no ASCII control character.
pub fn is_text(text: &str, least: usize, most: usize) -> bool
    ensures { result ≡ is_text least most text.now }
{
    let count = character_count(text);
    least <= count && count <= most && is_plain(text)
}

fn character_count(text: &str) -> usize
    ensures { result ≡ length (chars text.now) }
{
    text.chars().count()
}

fn is_plain(text: &str) -> bool
    ensures { result ≡ list_all is_plain text.now }
{
    text.as_bytes()
        .iter()
        .all(|byte| *byte >= 32 && *byte != 127)
}
