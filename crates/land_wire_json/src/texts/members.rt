//! Writes members of objects, each a name and a value, and lists, with the kit's JSON writer.
ghost use Rattle.land_shape.specs.Printed.{polygon_text};
ghost use Rattle.land_wire_json.specs.Texts.Fields.{Adds, AddsValue, member_tokens, plan_tokens, unit_tokens};
ghost use Rattle.land_wire_json.specs.Texts.Parties.{member_data, members_data, roles_data};
ghost use Rattle.land_wire_json.specs.Texts.Subdivisions.{first_data, part_data, parts_data};
ghost use Rattle.land_wire_json.specs.Texts.Values.{numbers_data, share_data};
ghost use Rattle.serde_json.specs.Data.{string};

use json::Writer;
use land_core::act::NewParcel;
use land_core::member::Member;
use land_core::role::Role;
use land_core::subdivision::Part;
use land_core::text::Text;
use land_core::words::role_word;
use land_fraction::Fraction;
use land_shape::Ring;
use std::alloc::{AllocError, Global};

/// Writes a text with its name.
pub(crate) fn write_text(out: &mut Writer, name: &str, text: &str) -> Result<(), AllocError>
    ensures { Adds result out.old out.new (member_tokens name.now (string text.now)) }
{
    out.key(name)?;
    out.string(text)
}

/// Writes a share in canonical form.
pub(crate) fn write_share(
    alloc: Global,
    out: &mut Writer,
    share: Fraction,
) -> Result<(), AllocError>
    ensures { AddsValue result out.old out.new (share_data share) }
{
    let text = format!(in alloc; "{share}")?;
    out.string(text.as_str())
}

/// Writes an outline in canonical form.
pub(crate) fn write_outline(out: &mut Writer, outline: &Ring) -> Result<(), AllocError>
    ensures { AddsValue result out.old out.new (string (polygon_text outline.now)) }
{
    let text = outline.write_wkt()?;
    out.string(text.as_str())
}

/// Writes a list of numbers in their order.
pub(crate) fn write_numbers(out: &mut Writer, numbers: &[u64]) -> Result<(), AllocError>
    ensures { AddsValue result out.old out.new (numbers_data numbers.now) }
{
    out.begin_array()?;
    for number in numbers {
        out.u64(*number)?;
    }
    out.end_array()
}

/// Writes the members of a group with their shares.
pub(crate) fn write_members(
    alloc: Global,
    out: &mut Writer,
    members: &[Member],
) -> Result<(), AllocError>
    ensures { AddsValue result out.old out.new (members_data members.now) }
{
    out.begin_array()?;
    for member in members {
        write_member(alloc, out, *member)?;
    }
    out.end_array()
}

fn write_member(alloc: Global, out: &mut Writer, member: Member) -> Result<(), AllocError>
    ensures { AddsValue result out.old out.new (member_data member) }
{
    out.begin_object()?;
    out.key("party")?;
    out.u64(member.party)?;
    out.key("share")?;
    write_share(alloc, out, member.share)?;
    out.end_object()
}

/// Writes the roles of a party by their words.
pub(crate) fn write_roles(out: &mut Writer, roles: &[Role]) -> Result<(), AllocError>
    ensures { AddsValue result out.old out.new (roles_data roles.now) }
{
    out.begin_array()?;
    for role in roles {
        out.string(role_word(*role))?;
    }
    out.end_array()
}

/// Writes the part of a parcel that remains in its unit.
pub(crate) fn write_first(out: &mut Writer, part: &NewParcel) -> Result<(), AllocError>
    ensures { AddsValue result out.old out.new (first_data part.now) }
{
    out.begin_object()?;
    write_plan(out, part.label.as_str(), &part.outline)?;
    out.end_object()
}

/// Writes a label and an outline with their names.
fn write_plan(out: &mut Writer, label: &str, outline: &Ring) -> Result<(), AllocError>
    ensures { Adds result out.old out.new (plan_tokens label.now outline.now) }
{
    write_text(out, "label", label)?;
    out.key("outline")?;
    write_outline(out, outline)
}

/// Writes the other parts in their order.
pub(crate) fn write_parts(out: &mut Writer, parts: &[Part]) -> Result<(), AllocError>
    ensures { AddsValue result out.old out.new (parts_data parts.now) }
{
    out.begin_array()?;
    for part in parts {
        write_part(out, part)?;
    }
    out.end_array()
}

/// Writes a part, with the name of its new unit if it goes to one.
fn write_part(out: &mut Writer, part: &Part) -> Result<(), AllocError>
    ensures { AddsValue result out.old out.new (part_data part.now) }
{
    out.begin_object()?;
    write_plan(out, part.label.as_str(), &part.outline)?;
    write_unit(out, &part.unit)?;
    out.end_object()
}

/// Writes the name of a new unit, if there is one.
fn write_unit(out: &mut Writer, unit: &Option<Text>) -> Result<(), AllocError>
    ensures { Adds result out.old out.new (unit_tokens unit.now) }
{
    match unit {
        Some(name) => write_text(out, "unit", name.as_str()),
        None => Ok(()),
    }
}
