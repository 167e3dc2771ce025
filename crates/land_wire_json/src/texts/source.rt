//! Writes sources as JSON.
ghost use Rattle.land_wire_json.specs.Texts.Fields.{AddsValue};
ghost use Rattle.land_wire_json.specs.Texts.Sources.{source_data};

use crate::texts::fields::{Field, MemberValue, write_object};
use json::Writer;
use land_core::source::Source;
use land_core::words::source_word;
use std::alloc::{AllocError, Global};

/// Writes a source of a reply.
pub(crate) fn write_source(
    alloc: Global,
    out: &mut Writer,
    source: &Source,
) -> Result<(), AllocError>
    ensures { AddsValue result out.old out.new (source_data source.now) }
{
    let fields = [
        Field("kind", MemberValue::Text(source_word(source.kind))),
        Field("number", MemberValue::Number(source.number)),
        Field("title", MemberValue::Text(source.title.as_str())),
    ];
    write_object(alloc, out, &fields)
}
