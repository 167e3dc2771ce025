//! Reads the contents of mutations.
ghost use Rattle.std.specs.Prelude.{◌≡◌, Ok, codes, map};
ghost use Rattle.land_core.specs.Contents.{is_amount, is_currency};
ghost use Rattle.land_core.specs.Words.{content_word};
ghost use Rattle.land_core.specs.declared.content.Content.{Content};
ghost use Rattle.land_wire_json.specs.Bodies.Fields.{require_text, require_text_at, require_number};
ghost use Rattle.land_wire_json.specs.Bodies.Mutations.{content_by, content_in, content_of, discharge_of};
ghost use Rattle.land_wire_json.specs.Bodies.Mutations.{content_fields, mortgage_of, transfer_of};
ghost use Rattle.land_wire_json.specs.Bodies.Stored.{IsStorable};
ghost use Rattle.land_wire_json.specs.Bodies.WireFaults.{Returns};
ghost use Rattle.land_wire_json.specs.Texts.Mutations.{content_text};
ghost use Rattle.serde_json.specs.View.{view};

use crate::bodies::content_kind::ContentKind;
use crate::bodies::fields::{check_keys, field_at, number_at, read_text, text_at};
use crate::bodies::laws;
use crate::bodies::merger::merger_of;
use crate::bodies::share::share_at;
use crate::bodies::subdivision::subdivision_of;
use crate::bodies::wire_fault::WireFault;
use land_core::content::{Content, Discharge, Mortgage, Transfer, is_amount, is_currency};
use land_core::text::Text;
use serde_json::Value;
use std::alloc::Global;

/// Reads the content of a mutation from the word of its act and its text, an object that has only the
/// content's fields.
///
/// Errors: 133 for an unknown word, then 130 if the text is not JSON, 131 for another key, then the faults of
/// the fields in their order; 501 if out of memory. Reading the text of a content returns that content.
pub fn read_content(alloc: Global, word: &str, text: &str) -> Result<Content, WireFault>
    ensures reading { Returns (λ it. it) result (content_in word.now text.now) }
    ensures back { (it : Content) → IsStorable it → word.now ≡ content_word it → text.now ≡ content_text it
        → Returns (λ it. it) result (Ok it) }
{
    laws::contents_round_trip();
    content_in(alloc, word, text)
}

#[tactic(auto, unfolding(crate::specs::Bodies::Mutations::content_in))]
fn content_in(alloc: Global, word: &str, text: &str) -> Result<Content, WireFault>
    ensures { Returns (λ it. it) result (content_in word.now text.now) }
{
    let kind = ContentKind::of(word)?;
    let value = read_text(alloc, text)?;
    content_of(alloc, kind, &value)
}

#[tactic(auto, unfolding(crate::specs::Bodies::Mutations::content_of))]
fn content_of(alloc: Global, kind: ContentKind, value: &Value) -> Result<Content, WireFault>
    ensures { Returns (λ it. it) result (content_of kind (view value.now)) }
{
    check_keys(value, fields_of(kind))?;
    content_by(alloc, kind, value)
}

fn fields_of(kind: ContentKind) -> &'static [&'static str]
    ensures { map (λ name. name.now) result.now ≡ content_fields kind }
{
    match kind {
        ContentKind::Transfer => &["unit", "right", "receiver", "share"],
        ContentKind::Subdivision => &["unit", "parcel", "first", "rest"],
        ContentKind::Merger => &["unit", "others", "parcels", "label", "outline"],
        ContentKind::Mortgage => &["unit", "creditor", "amount", "currency"],
        ContentKind::Discharge => &["unit", "mortgage"],
    }
}

/// Reads the fields of a content in their order. Ignores other keys.
pub(crate) fn content_by(
    alloc: Global,
    kind: ContentKind,
    value: &Value,
) -> Result<Content, WireFault>
    ensures { Returns (λ it. it) result (content_by kind (view value.now)) }
{
    match kind {
        ContentKind::Transfer => Ok(Content::Transfer(transfer_of(value)?)),
        ContentKind::Subdivision => Ok(Content::Subdivision(subdivision_of(alloc, value)?)),
        ContentKind::Merger => Ok(Content::Merger(merger_of(alloc, value)?)),
        ContentKind::Mortgage => Ok(Content::Mortgage(mortgage_of(alloc, value)?)),
        ContentKind::Discharge => Ok(Content::Discharge(discharge_of(value)?)),
    }
}

#[tactic(auto, unfolding(crate::specs::Bodies::Mutations::transfer_of))]
fn transfer_of(value: &Value) -> Result<Transfer, WireFault>
    ensures { result ≡ transfer_of (view value.now) }
{
    let unit = number_at(value, "unit")?;
    let right = number_at(value, "right")?;
    let receiver = number_at(value, "receiver")?;
    let share = share_at(value, "share")?;
    Ok(Transfer {
        unit,
        right,
        receiver,
        share,
    })
}

#[tactic(auto, unfolding(crate::specs::Bodies::Mutations::mortgage_of))]
fn mortgage_of(alloc: Global, value: &Value) -> Result<Mortgage, WireFault>
    ensures { Returns (λ it. it) result (mortgage_of (view value.now)) }
{
    let unit = number_at(value, "unit")?;
    let creditor = number_at(value, "creditor")?;
    let amount = amount_in(field_at(value, "amount")?)?;
    let currency = currency_at(alloc, value)?;
    Ok(Mortgage {
        unit,
        creditor,
        amount,
        currency,
    })
}

fn amount_in(value: &Value) -> Result<u64, WireFault>
    ensures { result ≡ require_number is_amount (view value.now) }
{
    match value.as_number() {
        Some(number) => match number.as_u64() {
            Some(amount) if is_amount(amount) => Ok(amount),
            _ => Err(WireFault::Number),
        },
        None => Err(WireFault::Field),
    }
}

fn currency_at(alloc: Global, value: &Value) -> Result<Text, WireFault>
    ensures { Returns (λ text. text) result
        (require_text_at is_currency (codes "currency") (view value.now)) }
{
    currency_of(alloc, text_at(value, "currency")?)
}

/// Reads a currency, three letters from A to Z (ISO 4217). Errors: 133 for any other text; 501 if out of
/// memory.
pub fn currency_of(alloc: Global, text: &str) -> Result<Text, WireFault>
    ensures { Returns (λ text. text) result (require_text is_currency text.now) }
{
    if is_currency(text) {
        Ok(Text::new(String::from_str(alloc, text)?))
    } else {
        Err(WireFault::Text)
    }
}

#[tactic(auto, unfolding(crate::specs::Bodies::Mutations::discharge_of))]
fn discharge_of(value: &Value) -> Result<Discharge, WireFault>
    ensures { result ≡ discharge_of (view value.now) }
{
    let unit = number_at(value, "unit")?;
    let mortgage = number_at(value, "mortgage")?;
    Ok(Discharge { unit, mortgage })
}
