//! Writes parcels as JSON.
ghost use Rattle.land_wire_json.specs.Texts.Fields.{AddsValue};
ghost use Rattle.land_wire_json.specs.Texts.Parcels.{parcel_data};

use crate::texts::fields::{Field, MemberValue, write_object};
use json::Writer;
use land_core::parcel::Parcel;
use std::alloc::{AllocError, Global};

/// Writes a parcel of a reply, with twice the area of its outline.
pub(crate) fn write_parcel(
    alloc: Global,
    out: &mut Writer,
    parcel: &Parcel,
) -> Result<(), AllocError>
    ensures { AddsValue result out.old out.new (parcel_data parcel.now) }
{
    let fields = [
        Field(
            "doubled",
            MemberValue::Number(parcel.outline.doubled_area()),
        ),
        Field("label", MemberValue::Text(parcel.label.as_str())),
        Field("number", MemberValue::Number(parcel.number)),
        Field("outline", MemberValue::Outline(&parcel.outline)),
        Field("source", MemberValue::Number(parcel.source)),
        Field("unit", MemberValue::Number(parcel.unit)),
    ];
    write_object(alloc, out, &fields)
}
