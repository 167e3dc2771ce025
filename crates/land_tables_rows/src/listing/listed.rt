//! Records that the rows of a table decode to.
ghost use Rattle.std.specs.Prelude.{◌≡◌};
ghost use Rattle.land_tables_rows.specs.Listing.Reading.{Listing};
ghost use Rattle.land_tables_rows.specs.Listing.Statements.{ListsTable};
ghost use Rattle.sqlite_schema.specs.declared.schema.Schema.{Schema};

use crate::reading::from_row::FromRow;

/// A record that is read from the rows of one table.
pub trait Listed: FromRow {
    /// How the record is decoded from the rows of the table.
    ghost listing: { Listing Self };

    /// The schemas that contain the table.
    ghost has: { Schema → Type 0 };

    /// Returns the statement that lists all rows of the table, in unspecified order.
    fn text() -> &'static str
        ensures { ListsTable has listing.table.tree listing.shown result.now };

    /// The row decodes as `FromRow` decodes it.
    ghost says: { listing.said ≡ Self.said };
}
