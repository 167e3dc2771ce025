//! The parts of a slice, and those on which the outcome of an act depends.
ghost use Rattle.std.specs.Prelude.{◌≡◌};
ghost use Rattle.land_acts.specs.Slices.{all_parts, needed_parts, no_parts, parts_of_content};

use land_core::act::Act;
use land_core::content::Content;
use land_core::mutation::MutationRecord;
use land_core::records::Records;
use land_core::role::Role;

/// Which parts a slice includes. The mutations, the mandate, the entry of a lift and the next number are
/// always included.
#[derive(Clone, Copy)]
pub struct SliceParts {
    /// The parties to which the act refers.
    pub parties: bool,
    /// All state administrators.
    pub administrators: bool,
    /// The roles of the included parties.
    pub roles: bool,
    /// The members of the included parties that are groups.
    pub members: bool,
    /// The units to which the act refers, with their entries.
    pub units: bool,
    /// The parcels of the included units.
    pub parcels: bool,
    /// The sources of the mutations.
    pub sources: bool,
}

impl SliceParts {
    /// Returns no part.
    pub fn none() -> SliceParts
        ensures { result ≡ no_parts }
    {
        SliceParts {
            parties: false,
            administrators: false,
            roles: false,
            members: false,
            units: false,
            parcels: false,
            sources: false,
        }
    }

    /// Returns all parts.
    pub fn all() -> SliceParts
        ensures { result ≡ all_parts }
    {
        SliceParts {
            parties: true,
            administrators: true,
            roles: true,
            members: true,
            units: true,
            parcels: true,
            sources: true,
        }
    }
}

/// Returns the parts on which the outcome of a decision depends, by the content of its mutation.
fn parts_of_content(content: &Content) -> SliceParts
    ensures { result ≡ parts_of_content content.now }
{
    let none = SliceParts::none();
    match content {
        Content::Transfer(_) => SliceParts {
            parties: true,
            units: true,
            ..none
        },
        Content::Subdivision(_) | Content::Merger(_) => SliceParts {
            units: true,
            parcels: true,
            ..none
        },
        Content::Mortgage(_) => SliceParts {
            parties: true,
            roles: true,
            units: true,
            ..none
        },
        Content::Discharge(_) => SliceParts {
            units: true,
            ..none
        },
    }
}

/// Returns the parts on which the outcome of an act depends, by the mutations in its slice: those that the
/// conditions of its refusals, its change and its receipt read.
pub fn needed_parts(mutations: &Records<MutationRecord>, act: &Act) -> SliceParts
    ensures { result ≡ needed_parts mutations.now act.now }
{
    let none = SliceParts::none();
    let parties = SliceParts {
        parties: true,
        ..none
    };
    match act {
        Act::Enrol(_) | Act::Withdraw(_) | Act::Lift(_) | Act::Refuse(_) => none,
        Act::Group(_) | Act::Regroup(_) | Act::Mandate(_) | Act::Register(_) => parties,
        Act::Grant(_) => SliceParts {
            roles: true,
            ..parties
        },
        Act::Revoke(it) => SliceParts {
            administrators: it.role == Role::StateAdministrator,
            roles: true,
            ..parties
        },
        Act::Burden(_) => SliceParts {
            units: true,
            ..parties
        },
        Act::Lodge(_) => SliceParts {
            sources: true,
            ..none
        },
        Act::Approve(it) => match mutations.get(it.mutation) {
            Some(mutation) => parts_of_content(&mutation.content),
            None => none,
        },
    }
}
