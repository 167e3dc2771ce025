//! Strings that a cell can hold. A string is in UTF-8 by its type.
ghost use Rattle.std.specs.Prelude.{◌≡◌, true};
ghost use Rattle.std.specs.Str.{is_utf8};
ghost use Rattle.land_core.specs.Contents.{is_currency};
ghost use Rattle.land_core.specs.Texts.{are_words, is_label, is_reference};
ghost use Rattle.land_tables_rows.specs.Cells.Texts.{is_storable};

use land_core::text::Text;
use land_core::{content, limits};

/// Checks if a string is a valid label of a parcel.
pub fn is_label(text: &Text) -> bool
    ensures { result ≡ is_storable is_label text.now }
{
    is_in_utf8(text);
    limits::is_label(text.as_str())
}

/// Checks if strings are valid words of a restriction or a responsibility.
pub fn are_words(text: &Text) -> bool
    ensures { result ≡ is_storable are_words text.now }
{
    is_in_utf8(text);
    limits::are_words(text.as_str())
}

/// Checks if a string is a valid reference of a mutation.
pub fn is_reference(text: &Text) -> bool
    ensures { result ≡ is_storable is_reference text.now }
{
    is_in_utf8(text);
    limits::is_reference(text.as_str())
}

/// Checks if a string is a valid currency.
pub fn is_currency(text: &Text) -> bool
    ensures { result ≡ is_storable is_currency text.now }
{
    is_in_utf8(text);
    content::is_currency(text.as_str())
}

/// Proves that a string is in UTF-8. Does nothing at run time.
pub fn is_in_utf8(text: &Text)
    ensures { is_utf8 text.now ≡ true }
{
    text.as_str();
}
