//! Writes mutations and their contents as JSON.
ghost use Rattle.std.specs.Prelude.{◌≡◌, IfOk, string_bytes};
ghost use Rattle.land_wire_json.specs.Texts.Fields.{AddsValue};
ghost use Rattle.land_wire_json.specs.Texts.Mutations.{content_data, content_text, discharge_data};
ghost use Rattle.land_wire_json.specs.Texts.Mutations.{mortgage_data, mutation_data, transfer_data};

use crate::texts::fields::{Field, MemberValue, new_writer, text_of, write_fields, write_object};
use crate::texts::members::write_text;
use crate::texts::merger::write_merger;
use crate::texts::subdivision::write_subdivision;
use json::Writer;
use land_core::content::{Content, Discharge, Mortgage, Transfer};
use land_core::mutation::Mutation;
use land_core::words::{act_word, state_word};
use std::alloc::{AllocError, Global};

/// Writes a mutation of a reply.
pub(crate) fn write_mutation(
    alloc: Global,
    out: &mut Writer,
    mutation: &Mutation,
) -> Result<(), AllocError>
    ensures { AddsValue result out.old out.new (mutation_data mutation.now) }
{
    let lodging = [
        Field("lodged", MemberValue::Moment(mutation.lodged)),
        Field("lodger", MemberValue::Number(mutation.lodger)),
        Field("number", MemberValue::Number(mutation.number)),
        Field("reference", MemberValue::Text(mutation.reference.as_str())),
        Field("source", MemberValue::Number(mutation.source)),
        Field("state", MemberValue::Text(state_word(mutation.state))),
    ];
    out.begin_object()?;
    write_text(out, "act", act_word(&mutation.content))?;
    out.key("content")?;
    write_content(alloc, out, &mutation.content)?;
    write_fields(alloc, out, &lodging)?;
    out.end_object()
}

/// Returns the text of a content: compact JSON, keys in byte order, without the word of its act. The only
/// error is out of memory.
pub fn content_text(alloc: Global, content: &Content) -> Result<String, AllocError>
    ensures { IfOk result (λ text. string_bytes text ≡ content_text content.now) }
{
    let mut out = new_writer(alloc)?;
    write_content(alloc, &mut out, content)?;
    Ok(text_of(out))
}

/// Writes the fields of a content, without the word of its act.
fn write_content(alloc: Global, out: &mut Writer, content: &Content) -> Result<(), AllocError>
    ensures { AddsValue result out.old out.new (content_data content.now) }
{
    match content {
        Content::Transfer(it) => write_transfer(alloc, out, it),
        Content::Subdivision(it) => write_subdivision(alloc, out, it),
        Content::Merger(it) => write_merger(alloc, out, it),
        Content::Mortgage(it) => write_mortgage(alloc, out, it),
        Content::Discharge(it) => write_discharge(alloc, out, it),
    }
}

fn write_transfer(alloc: Global, out: &mut Writer, transfer: &Transfer) -> Result<(), AllocError>
    ensures { AddsValue result out.old out.new (transfer_data transfer.now) }
{
    let fields = [
        Field("receiver", MemberValue::Number(transfer.receiver)),
        Field("right", MemberValue::Number(transfer.right)),
        Field("share", MemberValue::Share(transfer.share)),
        Field("unit", MemberValue::Number(transfer.unit)),
    ];
    write_object(alloc, out, &fields)
}

fn write_mortgage(alloc: Global, out: &mut Writer, mortgage: &Mortgage) -> Result<(), AllocError>
    ensures { AddsValue result out.old out.new (mortgage_data mortgage.now) }
{
    let fields = [
        Field("amount", MemberValue::Number(mortgage.amount)),
        Field("creditor", MemberValue::Number(mortgage.creditor)),
        Field("currency", MemberValue::Text(mortgage.currency.as_str())),
        Field("unit", MemberValue::Number(mortgage.unit)),
    ];
    write_object(alloc, out, &fields)
}

fn write_discharge(alloc: Global, out: &mut Writer, discharge: &Discharge) -> Result<(), AllocError>
    ensures { AddsValue result out.old out.new (discharge_data discharge.now) }
{
    let fields = [
        Field("mortgage", MemberValue::Number(discharge.mortgage)),
        Field("unit", MemberValue::Number(discharge.unit)),
    ];
    write_object(alloc, out, &fields)
}
