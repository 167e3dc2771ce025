//! Writes the contents of mergers as JSON.
ghost use Rattle.land_wire_json.specs.Texts.Fields.{AddsValue};
ghost use Rattle.land_wire_json.specs.Texts.Mergers.{merger_data};

use crate::texts::fields::{Field, MemberValue, write_object};
use json::Writer;
use land_core::merger::Merger;
use std::alloc::{AllocError, Global};

/// Writes the fields of a merger.
pub(crate) fn write_merger(
    alloc: Global,
    out: &mut Writer,
    merger: &Merger,
) -> Result<(), AllocError>
    ensures { AddsValue result out.old out.new (merger_data merger.now) }
{
    let fields = [
        Field("label", MemberValue::Text(merger.label.as_str())),
        Field("others", MemberValue::Numbers(merger.others.as_slice())),
        Field("outline", MemberValue::Outline(&merger.outline)),
        Field("parcels", MemberValue::Numbers(merger.parcels.as_slice())),
        Field("unit", MemberValue::Number(merger.unit)),
    ];
    write_object(alloc, out, &fields)
}
