//! Writes parties as JSON.
ghost use Rattle.land_wire_json.specs.Texts.Fields.{AddsValue};
ghost use Rattle.land_wire_json.specs.Texts.Parties.{party_data};

use crate::texts::fields::{Field, MemberValue, write_object};
use json::Writer;
use land_core::party::Party;
use land_core::words::party_word;
use std::alloc::{AllocError, Global};

/// Writes a party of a reply.
pub(crate) fn write_party(alloc: Global, out: &mut Writer, party: &Party) -> Result<(), AllocError>
    ensures { AddsValue result out.old out.new (party_data party.now) }
{
    let fields = [
        Field("kind", MemberValue::Text(party_word(party.kind))),
        Field("members", MemberValue::Members(party.members.as_slice())),
        Field("name", MemberValue::Text(party.name.as_str())),
        Field("number", MemberValue::Number(party.number)),
        Field("roles", MemberValue::Roles(party.roles.as_slice())),
    ];
    write_object(alloc, out, &fields)
}
