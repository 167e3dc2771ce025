//! Parties (LA_Party).
use crate::duplicate::Duplicate;
use crate::kind::PartyKind;
use crate::member::Member;
use crate::role::Role;
use crate::sequence::Sequence;
use crate::text::Text;
use std::alloc::{AllocError, Global};

/// The record of a party, stored by its number. Its roles and its members are in separate maps.
#[derive(Debug, Drop)]
pub struct PartyRecord {
    /// The kind.
    pub kind: PartyKind,
    /// The name: 1 to 200 characters.
    pub name: Text,
}

impl Duplicate for PartyRecord {
    fn copy(&self, alloc: Global) -> Result<PartyRecord, AllocError> {
        Ok(PartyRecord {
            kind: self.kind,
            name: self.name.copy(alloc)?,
        })
    }
}

/// A party: its record with its number, its members and its roles.
#[derive(Debug, Drop)]
pub struct Party {
    /// Its number.
    pub number: u64,
    /// The kind.
    pub kind: PartyKind,
    /// The name.
    pub name: Text,
    /// The members of a group, ordered by number (LA_PartyMember); empty for a single party.
    pub members: Sequence<Member>,
    /// The roles that it has, in the order of `Role`.
    pub roles: Sequence<Role>,
}

impl Duplicate for Party {
    fn copy(&self, alloc: Global) -> Result<Party, AllocError> {
        Ok(Party {
            number: self.number,
            kind: self.kind,
            name: self.name.copy(alloc)?,
            members: self.members.copy(alloc)?,
            roles: self.roles.copy(alloc)?,
        })
    }
}
