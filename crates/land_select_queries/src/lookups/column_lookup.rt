//! The lookups of one column.
ghost use Rattle.std.specs.Prelude.{◌≡◌};
ghost use Rattle.land_select_queries.specs.Lookups.Texts.{column_text_of};

use crate::joins::own;
use crate::lookups::texts;

/// A lookup of numbers by a number, at a time. Only one column of a row is read.
#[derive(Clone, Copy, Debug, PartialEq, Eq)]
pub enum ColumnLookup {
    /// The number itself, if a party has it.
    Party,
    /// The number itself, if a unit has it.
    Unit,
    /// The lodger of the mutation of the number, decided or not.
    LodgerOfMutation,
    /// The lodgers of pending mutations that refer to the unit.
    LodgersOnUnit,
}

/// Returns the SQL statement of a lookup. Parameter 1 is the number, parameter 2 the time in Unix
/// milliseconds.
pub fn text_of(record_lookup: ColumnLookup) -> &'static str
    ensures { result.now ≡ column_text_of record_lookup }
{
    match record_lookup {
        ColumnLookup::Party => own::ITSELF,
        ColumnLookup::Unit => texts::UNIT_NUMBER,
        ColumnLookup::LodgerOfMutation => texts::LODGER_OF_MUTATION,
        ColumnLookup::LodgersOnUnit => texts::LODGERS_ON_UNIT,
    }
}
