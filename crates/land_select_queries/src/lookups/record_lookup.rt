//! The lookups of records.
ghost use Rattle.std.specs.Prelude.{◌≡◌};
ghost use Rattle.land_select_queries.specs.Lookups.Texts.{lookup_text};

use crate::lookups::texts;

/// A lookup of records by a number, at a time.
#[derive(Clone, Copy, Debug, PartialEq, Eq)]
pub enum RecordLookup {
    /// The party of a number.
    Party,
    /// The unit of a number.
    Unit,
    /// The parcel of a number.
    Parcel,
    /// The entry of a number.
    Entry,
    /// The source of a number.
    Source,
    /// The mutation of a number.
    Mutation,
    /// The parcels of a unit.
    ParcelsOfUnit,
    /// The entries of a unit.
    EntriesOfUnit,
    /// The roles of a party.
    RolesOfParty,
    /// The members of a group.
    MembersOfGroup,
    /// The mandates that a party holds as agent.
    MandatesOfAgent,
    /// The state administrators. The number is not used.
    Administrators,
}

/// Returns the SQL statement of a lookup. Parameter 1 is the number, parameter 2 the time in Unix
/// milliseconds.
pub fn text_of(record_lookup: RecordLookup) -> &'static str
    ensures { result.now ≡ lookup_text record_lookup }
{
    match record_lookup {
        RecordLookup::Party => texts::PARTY,
        RecordLookup::Unit => texts::UNIT,
        RecordLookup::Parcel => texts::PARCEL,
        RecordLookup::Entry => texts::ENTRY,
        RecordLookup::Source => texts::SOURCE,
        RecordLookup::Mutation => texts::MUTATION,
        RecordLookup::ParcelsOfUnit => texts::PARCELS_OF_UNIT,
        RecordLookup::EntriesOfUnit => texts::ENTRIES_OF_UNIT,
        RecordLookup::RolesOfParty => texts::ROLES_OF_PARTY,
        RecordLookup::MembersOfGroup => texts::MEMBERS_OF_GROUP,
        RecordLookup::MandatesOfAgent => texts::MANDATES_OF_AGENT,
        RecordLookup::Administrators => texts::ADMINISTRATORS,
    }
}
