//! Writes objects as JSON.
ghost use Rattle.land_wire_json.specs.Texts.Fields.{AddsValue};
ghost use Rattle.land_wire_json.specs.Texts.Objects.{object_data};

use crate::texts::mutation::write_mutation;
use crate::texts::parcel::write_parcel;
use crate::texts::party::write_party;
use crate::texts::rrr::write_rrr;
use crate::texts::source::write_source;
use crate::texts::unit::write_unit;
use json::Writer;
use land_core::object::Object;
use std::alloc::{AllocError, Global};

/// Writes an object of a reply. The only error is out of memory.
pub fn write_object_json(alloc: Global, out: &mut Writer, object: &Object) -> Result<(), AllocError>
    ensures { AddsValue result out.old out.new (object_data object.now) }
{
    match object {
        Object::Party(party) => write_party(alloc, out, party),
        Object::Unit(unit) => write_unit(alloc, out, unit),
        Object::Parcel(parcel) => write_parcel(alloc, out, parcel),
        Object::Rrr(entry) => write_rrr(alloc, out, entry),
        Object::Source(source) => write_source(alloc, out, source),
        Object::Mutation(mutation) => write_mutation(alloc, out, mutation),
    }
}
