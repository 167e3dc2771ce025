//! Writes the contents of subdivisions as JSON.
ghost use Rattle.land_wire_json.specs.Texts.Fields.{AddsValue};
ghost use Rattle.land_wire_json.specs.Texts.Subdivisions.{subdivision_data};

use crate::texts::fields::{Field, MemberValue, write_object};
use json::Writer;
use land_core::subdivision::Subdivision;
use std::alloc::{AllocError, Global};

/// Writes the fields of a subdivision.
pub(crate) fn write_subdivision(
    alloc: Global,
    out: &mut Writer,
    subdivision: &Subdivision,
) -> Result<(), AllocError>
    ensures { AddsValue result out.old out.new (subdivision_data subdivision.now) }
{
    let fields = [
        Field("first", MemberValue::First(&subdivision.first)),
        Field("parcel", MemberValue::Number(subdivision.parcel)),
        Field("rest", MemberValue::Parts(subdivision.rest.as_slice())),
        Field("unit", MemberValue::Number(subdivision.unit)),
    ];
    write_object(alloc, out, &fields)
}
