//! Decodes the cells of a row.
ghost use Rattle.std.specs.Prelude.{◌≡◌};
ghost use Rattle.land_tables_rows.specs.Reading.Cells.{amount_in, currency_in, end_in, flag_in, integer_in};
ghost use Rattle.land_tables_rows.specs.Reading.Cells.{label_in, moment_in, name_in, natural_in, next_in};
ghost use Rattle.land_tables_rows.specs.Reading.Cells.{null_in, number_in, reference_in, share_in, text_in};
ghost use Rattle.land_tables_rows.specs.Reading.Cells.{title_in, words_in};
ghost use Rattle.land_wire_json.specs.Bodies.WireFaults.{Returns, map_ok};
ghost use Rattle.sqlite_value.specs.Order.{column};
ghost use Rattle.sqlite_value.specs.Value.{owned};

use land_core::content::is_amount;
use land_core::limits::{LAST_MOMENT, LAST_NEXT, is_number};
use land_core::text::Text;
use land_fraction::Fraction;
use land_tables_history::version::NEVER;
use land_wire_json::bodies::content::currency_of;
use land_wire_json::bodies::fields::{label_of, name_of};
use land_wire_json::bodies::wire_fault::WireFault;
use sqlite::Row;
use sqlite::types::ValueRef;
use std::alloc::Global;

/// Returns the cell of a column, counted from 0; NULL after the last column.
pub fn cell(row: &Row, at: usize) -> ValueRef<'_>
    ensures { owned result ≡ column row.now at }
{
    match row.get_ref(at) {
        Ok(cell) => cell,
        Err(_) => ValueRef::Null,
    }
}

/// Accepts NULL. Errors: 131 if the cell is not NULL.
pub fn null_at(row: &Row, at: usize) -> Result<(), WireFault>
    ensures { result ≡ null_in (column row.now at) }
{
    match cell(row, at) {
        ValueRef::Null => Ok(()),
        _ => Err(WireFault::Field),
    }
}

/// Decodes a string. Errors: 131 if the cell has another type; 133 if it is not UTF-8.
pub fn text_at(row: &Row, at: usize) -> Result<&str, WireFault>
    ensures { map_ok (λ text. text.now) result ≡ text_in (column row.now at) }
{
    text_of(cell(row, at))
}

fn text_of(cell: ValueRef<'_>) -> Result<&str, WireFault>
    ensures { map_ok (λ text. text.now) result ≡ text_in (owned cell.entry) }
{
    match cell {
        ValueRef::Text(bytes) => match std::str::from_utf8(bytes) {
            Ok(text) => Ok(text),
            Err(_) => Err(WireFault::Text),
        },
        _ => Err(WireFault::Field),
    }
}

/// Decodes an integer. Errors: 131 if the cell has another type.
pub fn integer_at(row: &Row, at: usize) -> Result<i64, WireFault>
    ensures { result ≡ integer_in (column row.now at) }
{
    match cell(row, at) {
        ValueRef::Int(integer) => Ok(integer),
        _ => Err(WireFault::Field),
    }
}

/// Decodes a non-negative integer. Errors: 131 if the cell has another type; 132 if it is negative.
#[tactic(auto, unfolding(crate::specs::Reading::Cells::natural_in))]
pub fn natural_at(row: &Row, at: usize) -> Result<u64, WireFault>
    ensures { result ≡ natural_in (column row.now at) }
{
    match u64::try_from(integer_at(row, at)?) {
        Ok(natural) => Ok(natural),
        Err(_) => Err(WireFault::Number),
    }
}

/// Decodes an object number, 1 to 1,000,000,000. Errors: 131 if the cell has another type; 132 if it is out
/// of range.
#[tactic(auto, unfolding(crate::specs::Reading::Cells::number_in))]
pub fn number_at(row: &Row, at: usize) -> Result<u64, WireFault>
    ensures { result ≡ number_in (column row.now at) }
{
    let number = natural_at(row, at)?;
    if is_number(number) {
        Ok(number)
    } else {
        Err(WireFault::Number)
    }
}

/// Decodes the number that the next new object takes, 2 to 1,000,000,001. Errors: 131 if the cell has another
/// type; 132 if it is out of range.
#[tactic(auto, unfolding(crate::specs::Reading::Cells::next_in))]
pub fn next_at(row: &Row, at: usize) -> Result<u64, WireFault>
    ensures { result ≡ next_in (column row.now at) }
{
    let next = natural_at(row, at)?;
    if 2 <= next && next <= LAST_NEXT {
        Ok(next)
    } else {
        Err(WireFault::Number)
    }
}

/// Decodes an amount in minor units, 1 to 1,000,000,000,000,000. Errors: 131 if the cell has another type;
/// 132 if it is out of range.
#[tactic(auto, unfolding(crate::specs::Reading::Cells::amount_in))]
pub fn amount_at(row: &Row, at: usize) -> Result<u64, WireFault>
    ensures { result ≡ amount_in (column row.now at) }
{
    let amount = natural_at(row, at)?;
    if is_amount(amount) {
        Ok(amount)
    } else {
        Err(WireFault::Number)
    }
}

/// Decodes a flag, 0 or 1. Errors: 131 if the cell has another type; 132 if it is another integer.
#[tactic(auto, unfolding(crate::specs::Reading::Cells::flag_in))]
pub fn flag_at(row: &Row, at: usize) -> Result<bool, WireFault>
    ensures { result ≡ flag_in (column row.now at) }
{
    match natural_at(row, at)? {
        0 => Ok(false),
        1 => Ok(true),
        _ => Err(WireFault::Number),
    }
}

/// Decodes a moment: Unix time in milliseconds, from 1970 to the end of 2099. Errors: 131 if the cell has
/// another type; 132 if it is out of range.
#[tactic(auto, unfolding(crate::specs::Reading::Cells::moment_in))]
pub fn moment_at(row: &Row, at: usize) -> Result<i64, WireFault>
    ensures { result ≡ moment_in (column row.now at) }
{
    let moment = integer_at(row, at)?;
    if 0 <= moment && moment <= LAST_MOMENT {
        Ok(moment)
    } else {
        Err(WireFault::Number)
    }
}

/// Decodes the end of a lifespan: a moment, or never (one millisecond after the last moment). Errors: 131 if
/// the cell has another type; 132 if it is out of range.
#[tactic(auto, unfolding(crate::specs::Reading::Cells::end_in))]
pub fn end_at(row: &Row, at: usize) -> Result<i64, WireFault>
    ensures { result ≡ end_in (column row.now at) }
{
    let end = integer_at(row, at)?;
    if 0 <= end && end <= NEVER {
        Ok(end)
    } else {
        Err(WireFault::Number)
    }
}

/// Decodes a share from two columns, numerator and denominator, in lowest terms or not. Errors: 131 if a cell
/// has another type; 132 if one is negative; 101 to 103 if they are not a fraction.
#[tactic(auto, unfolding(crate::specs::Reading::Cells::share_in))]
pub fn share_at(row: &Row, numerator: usize, denominator: usize) -> Result<Fraction, WireFault>
    ensures { result ≡ share_in (column row.now numerator) (column row.now denominator) }
{
    let parts = natural_at(row, numerator)?;
    let whole = natural_at(row, denominator)?;
    match Fraction::new(parts, whole) {
        Ok(share) => Ok(share),
        Err(fault) => Err(WireFault::Share(fault)),
    }
}

/// Decodes a name of 1 to 200 characters. Errors: 131 if the cell has another type; 133 if it is another
/// string; 501 if out of memory.
pub fn name_at(alloc: Global, row: &Row, at: usize) -> Result<Text, WireFault>
    ensures { Returns (λ text. text) result (name_in (column row.now at)) }
{
    name_of(alloc, text_at(row, at)?)
}

/// Decodes the title of a document. Limits and errors are those of a name.
pub fn title_at(alloc: Global, row: &Row, at: usize) -> Result<Text, WireFault>
    ensures { Returns (λ text. text) result (title_in (column row.now at)) }
{
    name_at(alloc, row, at)
}

/// Decodes the words of a restriction or a responsibility. Limits and errors are those of a name.
pub fn words_at(alloc: Global, row: &Row, at: usize) -> Result<Text, WireFault>
    ensures { Returns (λ text. text) result (words_in (column row.now at)) }
{
    name_at(alloc, row, at)
}

/// Decodes a label of 1 to 40 characters. Errors: 131 if the cell has another type; 133 if it is another
/// string; 501 if out of memory.
pub fn label_at(alloc: Global, row: &Row, at: usize) -> Result<Text, WireFault>
    ensures { Returns (λ text. text) result (label_in (column row.now at)) }
{
    label_of(alloc, text_at(row, at)?)
}

/// Decodes the reference of a mutation. Limits and errors are those of a label.
pub fn reference_at(alloc: Global, row: &Row, at: usize) -> Result<Text, WireFault>
    ensures { Returns (λ text. text) result (reference_in (column row.now at)) }
{
    label_at(alloc, row, at)
}

/// Decodes a currency: three letters from A to Z (ISO 4217). Errors: 131 if the cell has another type; 133 if
/// it is another string; 501 if out of memory.
pub fn currency_at(alloc: Global, row: &Row, at: usize) -> Result<Text, WireFault>
    ensures { Returns (λ text. text) result (currency_in (column row.now at)) }
{
    currency_of(alloc, text_at(row, at)?)
}
