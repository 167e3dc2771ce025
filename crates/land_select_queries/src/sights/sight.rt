//! The sight of a role, for each kind, as a list of selections.
ghost use Rattle.std.specs.Prelude.{◌≡◌};
ghost use Rattle.land_core.specs.declared.kind.Kind.TheVariants as kinds;
ghost use Rattle.land_core.specs.declared.role.Role.TheVariants as roles;
ghost use Rattle.land_select_queries.specs.Sights.{selections_of};

use crate::sights::selection::Selection;
use land_core::kind::Kind;
use land_core::role::Role;

/// Returns the selection of all objects of a kind, for notaries and state administrators.
fn all(kind: Kind) -> &'static [Selection]
    ensures { result.now ≡ selections_of roles.Notary kind }
{
    match kind {
        Kind::Party => &[Selection::All(Kind::Party)],
        Kind::Unit => &[Selection::All(Kind::Unit)],
        Kind::Parcel => &[Selection::All(Kind::Parcel)],
        Kind::Rrr => &[Selection::All(Kind::Rrr)],
        Kind::Source => &[Selection::All(Kind::Source)],
        Kind::Mutation => &[Selection::All(Kind::Mutation)],
    }
}

/// Returns the selections of the parties that a citizen sees: itself, its groups, and the parties of visible
/// entries.
fn parties_of_citizen() -> &'static [Selection]
    ensures { result.now ≡ selections_of roles.Citizen kinds.Party }
{
    &[
        Selection::Itself,
        Selection::ItsGroups,
        Selection::HeldParties,
        Selection::GroupParties,
    ]
}

/// Returns the selections of a citizen, by the rights that it holds itself or through its groups.
fn by_holding(kind: Kind) -> &'static [Selection]
    ensures { result.now ≡ selections_of roles.Citizen kind }
{
    match kind {
        Kind::Party => parties_of_citizen(),
        Kind::Unit => &[Selection::HeldUnits, Selection::GroupUnits],
        Kind::Parcel => &[Selection::All(Kind::Parcel)],
        Kind::Rrr => &[Selection::HeldEntries, Selection::GroupEntries],
        Kind::Source => &[],
        Kind::Mutation => &[Selection::HeldMutations, Selection::GroupMutations],
    }
}

/// Returns the selections of a conveyancer, by its pending mutations.
fn by_lodging(kind: Kind) -> &'static [Selection]
    ensures { result.now ≡ selections_of roles.Conveyancer kind }
{
    match kind {
        Kind::Party => &[Selection::Itself, Selection::LodgedParties],
        Kind::Unit => &[Selection::LodgedUnits],
        Kind::Parcel => &[Selection::All(Kind::Parcel)],
        Kind::Rrr => &[Selection::LodgedEntries],
        Kind::Source => &[],
        Kind::Mutation => &[Selection::ItsLodgings],
    }
}

/// Returns the selections of a bank, by its mortgages.
fn by_credit(kind: Kind) -> &'static [Selection]
    ensures { result.now ≡ selections_of roles.Bank kind }
{
    match kind {
        Kind::Party => &[Selection::Itself, Selection::CreditParties],
        Kind::Unit => &[Selection::CreditUnits],
        Kind::Parcel => &[Selection::All(Kind::Parcel)],
        Kind::Rrr => &[Selection::CreditEntries],
        Kind::Source => &[],
        Kind::Mutation => &[Selection::ItsLodgings],
    }
}

/// Returns the selections of a certified surveyor: itself, the parcels, and the mutations that it lodged.
fn by_surveying(kind: Kind) -> &'static [Selection]
    ensures { result.now ≡ selections_of roles.CertifiedSurveyor kind }
{
    match kind {
        Kind::Party => &[Selection::Itself],
        Kind::Parcel => &[Selection::All(Kind::Parcel)],
        Kind::Mutation => &[Selection::ItsLodgings],
        Kind::Unit | Kind::Rrr | Kind::Source => &[],
    }
}

/// Returns the selections whose union is the sight of a role, at most four.
pub fn selections(role: Role, kind: Kind) -> &'static [Selection]
    ensures { result.now ≡ selections_of role kind }
{
    match role {
        Role::Citizen => by_holding(kind),
        Role::Conveyancer => by_lodging(kind),
        Role::Bank => by_credit(kind),
        Role::CertifiedSurveyor => by_surveying(kind),
        Role::Notary | Role::StateAdministrator => all(kind),
    }
}
