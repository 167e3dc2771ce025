//! The relations by which a caller sees the parties of a unit's entries.
ghost use Rattle.std.specs.Prelude.{◌≡◌};
ghost use Rattle.land_select_queries.specs.Lookups.Texts.{viewer_text_of};

use crate::lookups::texts;

/// The relation of a viewer to the unit of an entry.
#[derive(Clone, Copy, Debug, PartialEq, Eq)]
pub enum Relation {
    /// It has a right in the unit; it sees mortgages only if that right is ownership.
    Holding,
    /// It has a mortgage on the unit; of mortgages it sees only its own.
    Crediting,
    /// It lodged a pending mutation that refers to the unit.
    Awaiting,
}

/// Returns the SQL statement that selects the viewers of a party by a relation. Parameter 1 is the number of
/// the party, parameter 2 the time in Unix milliseconds.
pub fn text_of(relation: Relation) -> &'static str
    ensures { result.now ≡ viewer_text_of relation }
{
    match relation {
        Relation::Holding => texts::VIEWERS_BY_HOLDING,
        Relation::Crediting => texts::VIEWERS_BY_CREDITING,
        Relation::Awaiting => texts::VIEWERS_BY_LODGING,
    }
}
