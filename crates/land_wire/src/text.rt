//! Writes the texts of replies as compact JSON.
ghost use Rattle.std.specs.Prelude.{◌≡◌, ◌++◌, IfOk, OnOk, Some, codes, decimal, false, map, string_bytes};
ghost use Rattle.land_wire.specs.Replies.{IsStoreFault, done_data, is_sheet, numbers_text, reply_text};
ghost use Rattle.land_wire.specs.Replies.{short_text};
ghost use Rattle.land_wire_json.specs.Texts.Objects.{object_data};
ghost use Rattle.land_wire_json.specs.Texts.Values.{after_comma, one_member};
ghost use Rattle.land_keep.specs.declared.reply.Reply.TheVariants as reply;
ghost use Rattle.serde_json.specs.Written.{compact_text};

use itoa::Buffer;
use land_core::change::Done;
use land_core::object::Object;
use land_keep::reply::Reply;
use land_wire_json::texts::fields::{Field, MemberValue, new_writer, text_of, write_object};
use land_wire_json::texts::object::write_object_json;
use std::alloc::{AllocError, Global};

/// Writes the text of a reply: compact JSON, keys in byte order. The reply is not a title sheet.
pub fn reply_text(alloc: Global, reply: &Reply) -> Result<String, AllocError>
    requires { is_sheet reply.now ≡ false }
    ensures { IfOk result (λ text. reply_text reply.now ≡ Some (string_bytes text)) }
{
    match reply {
        Reply::Object(object) => object_text(alloc, object),
        Reply::Numbers(numbers) => numbers_text(alloc, numbers.as_slice()),
        Reply::Sheet(_) => unreachable!(),
        Reply::Done(done) => done_text(alloc, done),
        Reply::Denied(rule) => short_text(alloc, "denied", u64::from(*rule)),
        Reply::Fault(fault) => short_text(alloc, "fault", u64::from(*fault)),
        Reply::Refused(refusal) => short_text(alloc, "refused", u64::from(*refusal)),
        Reply::Store(fault) => short_text(alloc, "store", u64::from(*fault)),
    }
}

/// Writes an object with one number.
fn short_text(alloc: Global, word: &str, number: u64) -> Result<String, AllocError>
    ensures { IfOk result (λ text. string_bytes text ≡ short_text word.now number) }
{
    format!(in alloc; "{{\"{word}\":{number}}}")
}

/// The length in bytes of a number of the register and a comma, at most.
const NUMBER_CAPACITY: usize = 11;

/// Writes a list of numbers.
fn numbers_text(alloc: Global, numbers: &[u64]) -> Result<String, AllocError>
    ensures { IfOk result (λ text. string_bytes text ≡ numbers_text numbers.now) }
{
    let room = numbers
        .len()
        .saturating_mul(NUMBER_CAPACITY)
        .saturating_add(16);
    let mut text = String::with_capacity(alloc, room)?;
    text.push_str("{\"numbers\":[")?;
    if let [first, later @ ..] = numbers {
        text.push_str(Buffer::new().format(*first))?;
        push_after_commas(&mut text, later)?;
    }
    text.push_str("]}")?;
    Ok(text)
}

/// Appends numbers, each after a comma.
fn push_after_commas(text: &mut String, numbers: &[u64]) -> Result<(), AllocError>
    ensures { OnOk result (string_bytes text.new
        ≡ string_bytes text.old ++ after_comma (map decimal numbers.now)) }
{
    for number in numbers {
        text.push(',')?;
        text.push_str(Buffer::new().format(*number))?;
    }
    Ok(())
}

/// Checks whether a reply is a title sheet, the only reply that is not JSON.
pub fn is_sheet(reply: &Reply) -> bool
    ensures { result ≡ is_sheet reply.now }
{
    matches!(reply, Reply::Sheet(_))
}

/// Returns the text of the store fault 501, 502 or 503 without allocating.
pub fn store_text(number: u16) -> &'static str
    requires { IsStoreFault number }
    ensures { reply_text (reply.Store number) ≡ Some result.now }
{
    match number {
        501 => "{\"store\":501}",
        502 => "{\"store\":502}",
        _ => "{\"store\":503}",
    }
}

/// Writes the text of an object's reply.
fn object_text(alloc: Global, object: &Object) -> Result<String, AllocError>
    ensures { IfOk result (λ text. string_bytes text
        ≡ compact_text (one_member (codes "object") (object_data object.now))) }
{
    let mut out = new_writer(alloc)?;
    out.begin_object()?;
    out.key("object")?;
    write_object_json(alloc, &mut out, object)?;
    out.end_object()?;
    Ok(text_of(out))
}

/// Writes the receipt of an act.
fn done_text(alloc: Global, done: &Done) -> Result<String, AllocError>
    ensures { IfOk result (λ text. string_bytes text ≡ compact_text (done_data done.now)) }
{
    let fields = [
        Field("made", MemberValue::Numbers(done.made.as_slice())),
        Field("number", MemberValue::Number(done.number)),
        Field("stamp", MemberValue::Moment(done.stamp)),
    ];
    let mut out = new_writer(alloc)?;
    write_object(alloc, &mut out, &fields)?;
    Ok(text_of(out))
}
