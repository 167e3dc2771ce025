//! The selections that make up the sight of a role.
use land_core::kind::Kind;

/// A selection of numbers from the versions at a time, each a join of at most three tables.
#[derive(Clone, Copy, Debug, PartialEq, Eq)]
pub enum Selection {
    /// All objects of a kind: of parcels for each role, of all kinds for notaries and state administrators.
    All(Kind),
    /// The units of which a version has not ended by the time. At the last moment these are all units.
    UnendedUnits,
    /// The parcels of which a version has not ended by the time. At the last moment these are all parcels.
    UnendedParcels,
    /// The caller, for the roles that do not see all parties.
    Itself,
    /// The groups of which a citizen is a member.
    ItsGroups,
    /// The mutations that a bank, a conveyancer or a certified surveyor lodged, decided or not.
    ItsLodgings,
    /// The units in which a citizen has a right in its own name.
    HeldUnits,
    /// The units in which a citizen has a right as a member of a group.
    GroupUnits,
    /// The entries of the units that a citizen holds in its own name. Only owners see mortgages.
    HeldEntries,
    /// The entries of the units that a citizen holds as a member of a group. Only owners see mortgages.
    GroupEntries,
    /// The parties of the entries that a citizen sees by the rights in its own name.
    HeldParties,
    /// The parties of the entries that a citizen sees by the rights of its groups.
    GroupParties,
    /// The mutations that refer to a unit that a citizen holds in its own name.
    HeldMutations,
    /// The mutations that refer to a unit that a citizen holds as a member of a group.
    GroupMutations,
    /// The units on which a bank is the creditor of a mortgage.
    CreditUnits,
    /// The entries of the units on which a bank is a creditor, without the mortgages of other creditors.
    CreditEntries,
    /// The parties of the entries that a bank sees.
    CreditParties,
    /// The units that exist and that a pending mutation of a conveyancer refers to.
    LodgedUnits,
    /// The entries of the units that a pending mutation of a conveyancer refers to.
    LodgedEntries,
    /// The parties of the entries that a conveyancer sees.
    LodgedParties,
}
