//! The SQL statements of a role's sight, for each kind.
ghost use Rattle.std.specs.Prelude.{◌≡◌, map};
ghost use Rattle.land_core.specs.declared.kind.Kind.TheVariants as kinds;
ghost use Rattle.land_core.specs.declared.role.Role.TheVariants as roles;
ghost use Rattle.land_select.specs.Laws.{sight_texts};
ghost use Rattle.land_select_queries.specs.Joins.Texts.{selection_text};
ghost use Rattle.land_select_queries.specs.Sights.{selections_of};

use land_core::kind::Kind;
use land_core::role::Role;
use land_select_queries::joins::{all, creditor, group, holder, lodger, named, own};

/// Returns the statement that selects all objects of a kind.
fn all_texts(kind: Kind) -> &'static [&'static str]
    ensures { map (λ text. text.now) result.now ≡ map selection_text (selections_of roles.Notary kind) }
{
    match kind {
        Kind::Party => &[all::PARTIES],
        Kind::Unit => &[all::UNITS],
        Kind::Parcel => &[all::PARCELS],
        Kind::Rrr => &[all::ENTRIES],
        Kind::Source => &[all::SOURCES],
        Kind::Mutation => &[all::MUTATIONS],
    }
}

fn party_texts_of_citizen() -> &'static [&'static str]
    ensures { map (λ text. text.now) result.now
        ≡ map selection_text (selections_of roles.Citizen kinds.Party) }
{
    &[own::ITSELF, own::GROUPS, holder::PARTIES, group::PARTIES]
}

fn citizen_texts(kind: Kind) -> &'static [&'static str]
    ensures { map (λ text. text.now) result.now ≡ map selection_text (selections_of roles.Citizen kind) }
{
    match kind {
        Kind::Party => party_texts_of_citizen(),
        Kind::Unit => &[holder::UNITS, group::UNITS],
        Kind::Parcel => &[all::PARCELS],
        Kind::Rrr => &[holder::ENTRIES, group::ENTRIES],
        Kind::Source => &[],
        Kind::Mutation => &[named::HELD, named::THROUGH],
    }
}

fn conveyancer_texts(kind: Kind) -> &'static [&'static str]
    ensures { map (λ text. text.now) result.now ≡ map selection_text (selections_of roles.Conveyancer kind) }
{
    match kind {
        Kind::Party => &[own::ITSELF, lodger::PARTIES],
        Kind::Unit => &[lodger::UNITS],
        Kind::Parcel => &[all::PARCELS],
        Kind::Rrr => &[lodger::ENTRIES],
        Kind::Source => &[],
        Kind::Mutation => &[own::LODGINGS],
    }
}

fn bank_texts(kind: Kind) -> &'static [&'static str]
    ensures { map (λ text. text.now) result.now ≡ map selection_text (selections_of roles.Bank kind) }
{
    match kind {
        Kind::Party => &[own::ITSELF, creditor::PARTIES],
        Kind::Unit => &[creditor::UNITS],
        Kind::Parcel => &[all::PARCELS],
        Kind::Rrr => &[creditor::ENTRIES],
        Kind::Source => &[],
        Kind::Mutation => &[own::LODGINGS],
    }
}

fn surveyor_texts(kind: Kind) -> &'static [&'static str]
    ensures { map (λ text. text.now) result.now
        ≡ map selection_text (selections_of roles.CertifiedSurveyor kind) }
{
    match kind {
        Kind::Party => &[own::ITSELF],
        Kind::Parcel => &[all::PARCELS],
        Kind::Mutation => &[own::LODGINGS],
        Kind::Unit | Kind::Rrr | Kind::Source => &[],
    }
}

/// Returns the SQL statements that together select the objects of a kind that a role sees without mandates: 0
/// to 4 of 23. Parameter 1 is the caller or one of its circle, parameter 2 the time in Unix milliseconds.
/// At the last moment, a list of all units or parcels runs an equivalent statement with one comparison less
/// (`joins::all::UNENDED_UNITS` and `UNENDED_PARCELS` of `land_select_queries`).
pub fn sight_text(role: Role, kind: Kind) -> &'static [&'static str]
    ensures { map (λ text. text.now) result.now ≡ sight_texts role kind }
{
    match role {
        Role::Citizen => citizen_texts(kind),
        Role::Conveyancer => conveyancer_texts(kind),
        Role::Bank => bank_texts(kind),
        Role::CertifiedSurveyor => surveyor_texts(kind),
        Role::Notary | Role::StateAdministrator => all_texts(kind),
    }
}
