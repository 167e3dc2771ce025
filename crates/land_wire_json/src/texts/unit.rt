//! Writes units as JSON.
ghost use Rattle.land_wire_json.specs.Texts.Fields.{AddsValue};
ghost use Rattle.land_wire_json.specs.Texts.Units.{unit_data};

use crate::texts::fields::{Field, MemberValue, write_object};
use json::Writer;
use land_core::unit::Unit;
use std::alloc::{AllocError, Global};

/// Writes a unit of a reply.
pub(crate) fn write_unit(alloc: Global, out: &mut Writer, unit: &Unit) -> Result<(), AllocError>
    ensures { AddsValue result out.old out.new (unit_data unit.now) }
{
    let fields = [
        Field("checked", MemberValue::Truth(unit.checked)),
        Field("name", MemberValue::Text(unit.name.as_str())),
        Field("number", MemberValue::Number(unit.number)),
    ];
    write_object(alloc, out, &fields)
}
