//! Objects in lists, each with the name of its party.
ghost use Rattle.std.specs.Prelude.{◌≡◌, IfOk};
ghost use Rattle.land_keep.specs.Named.{list_form, party_name_beside, objects_at};

use crate::view::name_of;
use land_core::kind::Kind;
use land_core::object::Object;
use land_core::party::Party;
use land_core::register::Register;
use land_core::sequence::Sequence;
use land_core::text::Text;
use std::alloc::{AllocError, Global};

/// An object in list form, with the name of its party.
#[derive(Debug, Drop)]
pub struct NamedObject {
    /// The object at the moment; a party is without its members and roles.
    pub object: Object,
    /// The name of an entry's party at the moment; empty for any other object.
    pub name: Text,
}

/// Returns the list form of an object: a party without its members and roles.
fn list_form(alloc: Global, object: Object) -> Object
    ensures { result ≡ list_form object }
{
    match object {
        Object::Party(party) => {
            let Party {
                number,
                kind,
                name,
                members: _,
                roles: _,
            } = party;
            Object::Party(Party {
                number,
                kind,
                name,
                members: Sequence::new(alloc),
                roles: Sequence::new(alloc),
            })
        }
        other => other,
    }
}

/// Returns the name of an entry's party; an empty text for any other object.
fn party_name_beside(
    alloc: Global,
    register: &Register,
    object: &Object,
) -> Result<Text, AllocError>
    ensures { IfOk result (λ it. it ≡ party_name_beside register.now object.now) }
{
    match object {
        Object::Rrr(entry) => name_of(alloc, register, entry.party),
        _ => Ok(Text::new(String::new(alloc))),
    }
}

/// Returns the objects of these numbers that exist in a register, in the order of the numbers.
pub fn objects_of(
    alloc: Global,
    register: &Register,
    kind: Kind,
    numbers: &[u64],
) -> Result<Sequence<NamedObject>, AllocError>
    ensures { IfOk result (λ it. it ≡ objects_at register.now kind numbers.now) }
{
    let mut objects = Sequence::new(alloc);
    for number in numbers {
        if let Some(object) = register.object(alloc, kind, *number)? {
            let name = party_name_beside(alloc, register, &object)?;
            let object = list_form(alloc, object);
            objects.push(NamedObject { object, name })?;
        }
    }
    Ok(objects)
}
