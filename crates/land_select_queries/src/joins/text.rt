//! The SQL statement of each selection.
ghost use Rattle.std.specs.Prelude.{◌≡◌};
ghost use Rattle.land_select_queries.specs.Joins.Texts.{all_text, selection_text};

use crate::joins::{all, creditor, group, holder, lodger, named, own};
use crate::sights::selection::Selection;
use land_core::kind::Kind;

/// Returns the statement that selects all objects of a kind.
fn all_of(kind: Kind) -> &'static str
    ensures { result.now ≡ all_text kind }
{
    match kind {
        Kind::Party => all::PARTIES,
        Kind::Unit => all::UNITS,
        Kind::Parcel => all::PARCELS,
        Kind::Rrr => all::ENTRIES,
        Kind::Source => all::SOURCES,
        Kind::Mutation => all::MUTATIONS,
    }
}

/// Returns the statement of a selection. Parameter 1 is the caller's number, parameter 2 the time in Unix
/// milliseconds.
pub fn text_of(selection: Selection) -> &'static str
    ensures { result.now ≡ selection_text selection }
{
    match selection {
        Selection::All(kind) => all_of(kind),
        Selection::UnendedUnits => all::UNENDED_UNITS,
        Selection::UnendedParcels => all::UNENDED_PARCELS,
        Selection::Itself => own::ITSELF,
        Selection::ItsGroups => own::GROUPS,
        Selection::ItsLodgings => own::LODGINGS,
        Selection::HeldUnits => holder::UNITS,
        Selection::GroupUnits => group::UNITS,
        Selection::HeldEntries => holder::ENTRIES,
        Selection::GroupEntries => group::ENTRIES,
        Selection::HeldParties => holder::PARTIES,
        Selection::GroupParties => group::PARTIES,
        Selection::HeldMutations => named::HELD,
        Selection::GroupMutations => named::THROUGH,
        Selection::CreditUnits => creditor::UNITS,
        Selection::CreditEntries => creditor::ENTRIES,
        Selection::CreditParties => creditor::PARTIES,
        Selection::LodgedUnits => lodger::UNITS,
        Selection::LodgedEntries => lodger::ENTRIES,
        Selection::LodgedParties => lodger::PARTIES,
    }
}
