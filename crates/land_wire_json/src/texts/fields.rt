//! Writes JSON objects field by field.
ghost use Rattle.std.specs.Prelude.{◌≡◌, [], string_bytes, IfOk};
ghost use Rattle.json.specs.Print.{print};
ghost use Rattle.land_wire_json.specs.Texts.Fields.{Adds, AddsValue, fields_tokens, member_tokens};
ghost use Rattle.land_wire_json.specs.Texts.Fields.{object_tokens, value_data};

use crate::texts::members::{
    write_first, write_members, write_numbers, write_outline, write_parts, write_roles, write_share,
};
use json::Writer;
use land_core::act::NewParcel;
use land_core::member::Member;
use land_core::role::Role;
use land_core::subdivision::Part;
use land_fraction::Fraction;
use land_shape::Ring;
use std::alloc::{AllocError, Global};

/// The value of a field.
#[derive(Clone, Copy)]
pub enum MemberValue<'a> {
    /// A number of the register, an amount in minor units, or an area in square millimetres.
    Number(u64),
    /// A moment, in Unix milliseconds.
    Moment(i64),
    /// A boolean.
    Truth(bool),
    /// A text, or a word of the register.
    Text(&'a str),
    /// A share, in canonical form.
    Share(Fraction),
    /// An outline, in canonical form.
    Outline(&'a Ring),
    /// Numbers, in their order.
    Numbers(&'a [u64]),
    /// The members of a group.
    Members(&'a [Member]),
    /// The roles of a party.
    Roles(&'a [Role]),
    /// The part of a parcel that remains in its unit.
    First(&'a NewParcel),
    /// The other parts of a parcel.
    Parts(&'a [Part]),
}

/// A field of an object: its name and its value.
#[derive(Clone, Copy)]
pub struct Field<'a>(pub &'a str, pub MemberValue<'a>);

/// Writes an object with these fields in their order. The only error is out of memory.
pub fn write_object(alloc: Global, out: &mut Writer, fields: &[Field<'_>]) -> Result<(), AllocError>
    ensures { Adds result out.old out.new (object_tokens fields.now) }
{
    out.begin_object()?;
    write_fields(alloc, out, fields)?;
    out.end_object()
}

/// Writes fields without the braces of an object. The only error is out of memory.
pub(crate) fn write_fields(
    alloc: Global,
    out: &mut Writer,
    fields: &[Field<'_>],
) -> Result<(), AllocError>
    ensures { Adds result out.old out.new (fields_tokens fields.now) }
{
    for field in fields {
        write_field(alloc, out, field)?;
    }
    Ok(())
}

fn write_field(alloc: Global, out: &mut Writer, field: &Field<'_>) -> Result<(), AllocError>
    ensures { Adds result out.old out.new (member_tokens field.now.0.now (value_data field.now.1)) }
{
    out.key(field.0)?;
    write_value(alloc, out, &field.1)
}

fn write_value(alloc: Global, out: &mut Writer, shown: &MemberValue<'_>) -> Result<(), AllocError>
    ensures { AddsValue result out.old out.new (value_data shown.now) }
{
    match shown {
        MemberValue::Number(number) => out.u64(*number),
        MemberValue::Moment(moment) => out.i64(*moment),
        MemberValue::Truth(it) => out.boolean(*it),
        MemberValue::Text(text) => out.string(text),
        MemberValue::Share(share) => write_share(alloc, out, *share),
        MemberValue::Outline(outline) => write_outline(out, outline),
        MemberValue::Numbers(numbers) => write_numbers(out, numbers),
        MemberValue::Members(members) => write_members(alloc, out, members),
        MemberValue::Roles(roles) => write_roles(out, roles),
        MemberValue::First(part) => write_first(out, part),
        MemberValue::Parts(parts) => write_parts(out, parts),
    }
}

/// Returns a writer with enough capacity for most replies. The only error is out of memory.
pub fn new_writer(alloc: Global) -> Result<Writer, AllocError>
    ensures tokens { IfOk result (λ out. out.tokens ≡ []) }
    ensures before { IfOk result (λ out. out.before ≡ []) }
{
    Ok(Writer::new(Vec::with_capacity(alloc, 256)?))
}

/// Returns the text that was written.
pub fn text_of(out: Writer) -> String
    requires { out.before ≡ [] }
    ensures { string_bytes result ≡ print out.tokens }
{
    match String::from_utf8(out.into_inner()) {
        Ok(text) => text,
        Err(_) => unreachable!(),
    }
}
