//! Writes the entries of units as JSON: rights, restrictions, responsibilities and mortgages.
ghost use Rattle.land_wire_json.specs.Texts.Fields.{AddsValue};
ghost use Rattle.land_wire_json.specs.Texts.Rrrs.{burden_data, mortgage_data, right_data, rrr_data};

use crate::texts::fields::{Field, MemberValue, write_object};
use json::Writer;
use land_core::rrr::{Class, RightType, Rrr};
use land_core::words::right_word;
use land_fraction::Fraction;
use std::alloc::{AllocError, Global};

/// Writes an entry of a reply.
pub(crate) fn write_rrr(alloc: Global, out: &mut Writer, entry: &Rrr) -> Result<(), AllocError>
    ensures { AddsValue result out.old out.new (rrr_data entry.now) }
{
    match &entry.class {
        Class::Right { right_type, share } => write_right(alloc, out, entry, *right_type, *share),
        Class::Restriction { words } => {
            write_burden(alloc, out, entry, "restriction", words.as_str())
        }
        Class::Responsibility { words } => {
            write_burden(alloc, out, entry, "responsibility", words.as_str())
        }
        Class::Mortgage {
            amount,
            currency,
            rank,
        } => write_mortgage(alloc, out, entry, *amount, currency.as_str(), *rank),
    }
}

fn write_right(
    alloc: Global,
    out: &mut Writer,
    entry: &Rrr,
    right_type: RightType,
    share: Fraction,
) -> Result<(), AllocError>
    ensures { AddsValue result out.old out.new (right_data entry.now right_type share) }
{
    let fields = [
        Field("class", MemberValue::Text(right_word(right_type))),
        Field("number", MemberValue::Number(entry.number)),
        Field("party", MemberValue::Number(entry.party)),
        Field("share", MemberValue::Share(share)),
        Field("source", MemberValue::Number(entry.source)),
        Field("unit", MemberValue::Number(entry.unit)),
    ];
    write_object(alloc, out, &fields)
}

/// Writes a restriction or a responsibility with its words.
fn write_burden<'a>(
    alloc: Global,
    out: &mut Writer,
    entry: &Rrr,
    class: &'a str,
    words: &'a str,
) -> Result<(), AllocError>
    ensures { AddsValue result out.old out.new (burden_data entry.now class.now words.now) }
{
    let fields = [
        Field("class", MemberValue::Text(class)),
        Field("number", MemberValue::Number(entry.number)),
        Field("party", MemberValue::Number(entry.party)),
        Field("source", MemberValue::Number(entry.source)),
        Field("unit", MemberValue::Number(entry.unit)),
        Field("words", MemberValue::Text(words)),
    ];
    write_object(alloc, out, &fields)
}

fn write_mortgage(
    alloc: Global,
    out: &mut Writer,
    entry: &Rrr,
    amount: u64,
    currency: &str,
    rank: u64,
) -> Result<(), AllocError>
    ensures { AddsValue result out.old out.new (mortgage_data entry.now amount currency.now rank) }
{
    let fields = [
        Field("amount", MemberValue::Number(amount)),
        Field("class", MemberValue::Text("mortgage")),
        Field("currency", MemberValue::Text(currency)),
        Field("number", MemberValue::Number(entry.number)),
        Field("party", MemberValue::Number(entry.party)),
        Field("rank", MemberValue::Number(rank)),
        Field("source", MemberValue::Number(entry.source)),
        Field("unit", MemberValue::Number(entry.unit)),
    ];
    write_object(alloc, out, &fields)
}
