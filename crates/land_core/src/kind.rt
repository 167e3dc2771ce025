//! The kinds of objects and of parties.

/// A kind of object that the register numbers (LADM: the classes derived from VersionedObject).
#[derive(Clone, Copy, Debug, PartialEq, Eq)]
pub enum Kind {
    /// A party (LA_Party).
    Party,
    /// A basic administrative unit (LA_BAUnit).
    Unit,
    /// A parcel (LA_SpatialUnit).
    Parcel,
    /// A right, a restriction, a responsibility or a mortgage (LA_RRR).
    Rrr,
    /// A source (LA_Source).
    Source,
    /// A mutation: a change of a unit that is lodged, and then decided.
    Mutation,
}

/// The type of a party (LA_PartyType).
#[derive(Clone, Copy, Debug, PartialEq, Eq)]
pub enum PartyKind {
    /// A human being.
    NaturalPerson,
    /// A company, an office or another body.
    NonNaturalPerson,
    /// Parties that hold together (LA_GroupParty).
    Group,
}
