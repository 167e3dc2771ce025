//! The cells in which entries of units are written (LA_RRR).
ghost use Rattle.std.specs.Prelude.{◌≡◌, Some, true};
ghost use Rattle.land_tables_rows.specs.Rrr.Cells.{IsExactClass, IsExactRrr, fits_class, fits_rrr};
ghost use Rattle.land_tables_rows.specs.Rrr.Cells.{rrr_row_of};
ghost use Rattle.land_tables_schema.specs.Rows.Rrr.{FitsRrr, rrr_of};

use crate::cells::texts::{are_words, is_currency};
use land_core::content::is_amount;
use land_core::limits::is_number;
use land_core::rrr::{Class, RrrRecord};
use land_core::words::right_word;
use land_tables_schema::rows::tables::rrr::RrrCells;

/// The lowest rank that no column can hold.
const TOO_LOW_A_RANK: u64 = 9_223_372_036_854_775_808;

/// Returns the cells of an entry whose class has only a wording, from those without a class.
fn worded_cells<'a>(class: &'static str, words: &'a str, blank: RrrCells<'a>) -> RrrCells<'a>
    ensures { result ≡ record blank.entry { class = class.entry; words = Some words.entry } }
{
    RrrCells {
        class,
        words: Some(words),
        ..blank
    }
}

/// Returns the cells of an entry.
pub fn rrr_cells(number: u64, entry: &RrrRecord) -> RrrCells<'_>
    ensures row { rrr_of result ≡ rrr_row_of (number, entry.now) }
    ensures columns { fits_rrr (number, entry.now) ≡ true → FitsRrr result }
{
    let blank = RrrCells {
        number,
        unit: entry.unit,
        party: entry.party,
        class: "",
        num: None,
        den: None,
        amount: None,
        currency: None,
        place: None,
        words: None,
        source: entry.source,
    };
    match &entry.class {
        Class::Right { right_type, share } => RrrCells {
            class: right_word(*right_type),
            num: Some(share.numerator()),
            den: Some(share.denominator()),
            ..blank
        },
        Class::Restriction { words } => worded_cells("restriction", words.as_str(), blank),
        Class::Responsibility { words } => worded_cells("responsibility", words.as_str(), blank),
        Class::Mortgage {
            amount,
            currency,
            rank,
        } => RrrCells {
            class: "mortgage",
            amount: Some(*amount),
            currency: Some(currency.as_str()),
            place: Some(*rank),
            ..blank
        },
    }
}

/// Checks if an entry is within the limits of its fields, so that it decodes from its cells. By its type, the
/// share of a right is a fraction.
pub fn fits_rrr(number: u64, entry: &RrrRecord) -> bool
    ensures fits { result ≡ fits_rrr (number, entry.now) }
    ensures exact { IsExactRrr entry.now }
{
    class_is_exact(&entry.class);
    is_number(number)
        && is_number(entry.unit)
        && is_number(entry.party)
        && fits_class(&entry.class)
        && is_number(entry.source)
}

fn fits_class(class: &Class) -> bool
    ensures { result ≡ fits_class class.now }
{
    match class {
        Class::Right { .. } => true,
        Class::Restriction { words } => are_words(words),
        Class::Responsibility { words } => are_words(words),
        Class::Mortgage {
            amount,
            currency,
            rank,
        } => is_amount(*amount) && is_currency(currency) && *rank < TOO_LOW_A_RANK,
    }
}

/// Proves that the share of a right is a fraction, of an entry that is about to be written. Does nothing at
/// run time.
pub fn class_is_exact(class: &Class)
    ensures { IsExactClass class.now }
{
    match class {
        Class::Right { share, .. } => {
            share.numerator();
        }
        Class::Restriction { .. } => {}
        Class::Responsibility { .. } => {}
        Class::Mortgage { .. } => {}
    }
}
