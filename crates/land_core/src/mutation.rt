//! Mutations: changes of units that a party lodges and the registrar then approves or refuses.
ghost use Rattle.std.specs.Prelude.{◌≡◌};

use crate::content::Content;
use crate::duplicate::Duplicate;
use crate::text::Text;
use std::alloc::{AllocError, Global};

/// The state of a mutation.
#[derive(Clone, Copy, Debug, PartialEq, Eq)]
pub enum MutationState {
    /// Lodged, not yet decided.
    Lodged,
    /// Approved: the change was made.
    Approved,
    /// Refused: the change was not made.
    Refused,
}

/// The record of a mutation, stored by its number.
#[derive(Debug, Drop)]
pub struct MutationRecord {
    /// The number of the party that lodged it.
    pub lodger: u64,
    /// The lodger's reference: 1 to 40 characters, unique for each lodger.
    pub reference: Text,
    /// The number of its document (LA_Source).
    pub source: u64,
    /// The lodging time, in Unix milliseconds.
    pub lodged: i64,
    /// The state.
    pub state: MutationState,
    /// The requested change.
    pub content: Content,
}

impl MutationRecord {
    ghost use Rattle.land_core.specs.Mutations.{is_lodged_as, is_undecided};

    /// Checks if it is neither approved nor refused.
    pub fn is_undecided(&self) -> bool
        ensures { result ≡ is_undecided self.now }
    {
        match self.state {
            MutationState::Lodged => true,
            MutationState::Approved | MutationState::Refused => false,
        }
    }

    /// Checks if it has this lodger and this reference.
    pub fn is_lodged_as(&self, lodger: u64, reference: &str) -> bool
        ensures { result ≡ is_lodged_as lodger reference.now self.now }
    {
        self.lodger == lodger && self.reference.as_str() == reference
    }
}

impl Duplicate for MutationRecord {
    fn copy(&self, alloc: Global) -> Result<MutationRecord, AllocError> {
        Ok(MutationRecord {
            lodger: self.lodger,
            reference: self.reference.copy(alloc)?,
            source: self.source,
            lodged: self.lodged,
            state: self.state,
            content: self.content.copy(alloc)?,
        })
    }
}

/// A mutation: its record with its number.
#[derive(Debug, Drop)]
pub struct Mutation {
    /// Its number.
    pub number: u64,
    /// The number of the party that lodged it.
    pub lodger: u64,
    /// The lodger's reference.
    pub reference: Text,
    /// The number of its document.
    pub source: u64,
    /// The lodging time, in Unix milliseconds.
    pub lodged: i64,
    /// The state.
    pub state: MutationState,
    /// The requested change.
    pub content: Content,
}

impl Duplicate for Mutation {
    fn copy(&self, alloc: Global) -> Result<Mutation, AllocError> {
        Ok(Mutation {
            number: self.number,
            lodger: self.lodger,
            reference: self.reference.copy(alloc)?,
            source: self.source,
            lodged: self.lodged,
            state: self.state,
            content: self.content.copy(alloc)?,
        })
    }
}
