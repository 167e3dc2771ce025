//! Changes of the register, and the receipt of an act.
ghost use Rattle.std.specs.Prelude.{◌≡◌};
ghost use Rattle.land_core.specs.Changes.{no_change};

use crate::mandates::Mandate;
use crate::member::Members;
use crate::mutation::MutationRecord;
use crate::parcel::ParcelRecord;
use crate::party::PartyRecord;
use crate::roles::Grant;
use crate::rrr::RrrRecord;
use crate::sequence::{NumberList, Sequence};
use crate::source::SourceRecord;
use crate::unit::UnitRecord;
use std::alloc::Global;

/// Entries that are inserted or updated.
#[derive(Debug, Drop)]
pub struct Put {
    /// Parties by number.
    pub parties: Sequence<(u64, PartyRecord)>,
    /// Roles that are granted.
    pub roles: Sequence<Grant>,
    /// New members of groups, by the group's number.
    pub members: Sequence<(u64, Members)>,
    /// Units by number.
    pub units: Sequence<(u64, UnitRecord)>,
    /// Parcels by number.
    pub parcels: Sequence<(u64, ParcelRecord)>,
    /// Entries of units by number.
    pub rrrs: Sequence<(u64, RrrRecord)>,
    /// Sources by number.
    pub sources: Sequence<(u64, SourceRecord)>,
    /// Mutations by number.
    pub mutations: Sequence<(u64, MutationRecord)>,
    /// Mandates that are given.
    pub mandates: Sequence<Mandate>,
}

/// Keys of the entries that are removed.
#[derive(Debug, Drop)]
pub struct Ended {
    /// Numbers of parties.
    pub parties: NumberList,
    /// Roles that are revoked.
    pub roles: Sequence<Grant>,
    /// Numbers of groups whose members are removed.
    pub members: NumberList,
    /// Numbers of units.
    pub units: NumberList,
    /// Numbers of parcels.
    pub parcels: NumberList,
    /// Numbers of entries of units.
    pub rrrs: NumberList,
    /// Numbers of sources.
    pub sources: NumberList,
    /// Numbers of mutations.
    pub mutations: NumberList,
    /// Mandates that are withdrawn.
    pub mandates: Sequence<Mandate>,
}

/// The change that an act makes. No key of a map occurs twice.
#[derive(Debug, Drop)]
pub struct Change {
    /// The entries that are inserted or updated.
    pub put: Put,
    /// The keys of the entries that are removed.
    pub ended: Ended,
    /// The next number after the change.
    pub next: u64,
}

impl Change {
    /// Returns the empty change. Allocates nothing.
    pub fn empty(alloc: Global, next: u64) -> Change
        ensures { result ≡ no_change next }
    {
        Change {
            put: Put {
                parties: Sequence::new(alloc),
                roles: Sequence::new(alloc),
                members: Sequence::new(alloc),
                units: Sequence::new(alloc),
                parcels: Sequence::new(alloc),
                rrrs: Sequence::new(alloc),
                sources: Sequence::new(alloc),
                mutations: Sequence::new(alloc),
                mandates: Sequence::new(alloc),
            },
            ended: Ended {
                parties: Sequence::new(alloc),
                roles: Sequence::new(alloc),
                members: Sequence::new(alloc),
                units: Sequence::new(alloc),
                parcels: Sequence::new(alloc),
                rrrs: Sequence::new(alloc),
                sources: Sequence::new(alloc),
                mutations: Sequence::new(alloc),
                mandates: Sequence::new(alloc),
            },
            next,
        }
    }
}

/// The receipt of an act.
#[derive(Debug, Drop)]
pub struct Done {
    /// The number of the object that the act concerns.
    pub number: u64,
    /// The numbers of the new objects, ascending.
    pub made: NumberList,
    /// The commit time of the change, in Unix milliseconds.
    pub stamp: i64,
}
