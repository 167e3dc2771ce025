//! Objects: records with their numbers.
use crate::duplicate::Duplicate;
use crate::mutation::Mutation;
use crate::parcel::Parcel;
use crate::party::Party;
use crate::rrr::Rrr;
use crate::source::Source;
use crate::unit::Unit;
use std::alloc::{AllocError, Global};

/// An object of the register (LADM: VersionedObject) at a moment.
#[derive(Debug, Drop)]
pub enum Object {
    /// A party.
    Party(Party),
    /// A unit.
    Unit(Unit),
    /// A parcel.
    Parcel(Parcel),
    /// A right, a restriction, a responsibility or a mortgage.
    Rrr(Rrr),
    /// A source.
    Source(Source),
    /// A mutation.
    Mutation(Mutation),
}

impl Duplicate for Object {
    fn copy(&self, alloc: Global) -> Result<Object, AllocError> {
        match self {
            Object::Party(party) => Ok(Object::Party(party.copy(alloc)?)),
            Object::Unit(unit) => Ok(Object::Unit(unit.copy(alloc)?)),
            Object::Parcel(parcel) => Ok(Object::Parcel(parcel.copy(alloc)?)),
            Object::Rrr(entry) => Ok(Object::Rrr(entry.copy(alloc)?)),
            Object::Source(source) => Ok(Object::Source(source.copy(alloc)?)),
            Object::Mutation(mutation) => Ok(Object::Mutation(mutation.copy(alloc)?)),
        }
    }
}
