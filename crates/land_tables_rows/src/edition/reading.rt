//! The edition of the tables.
ghost use Rattle.land_tables_rows.specs.Edition.Reading.{edition_in};

use crate::reading::cells::natural_at;
use crate::reading::from_row::FromRow;
use land_wire_json::bodies::wire_fault::WireFault;
use sqlite::Row;
use std::alloc::Global;

/// The schema version of the tables.
#[derive(Clone, Copy, Debug, PartialEq, Eq)]
pub struct Edition {
    /// The id of the row: 1, if it is the only row.
    pub id: u64,
    /// The version, counted from 1.
    pub version: u64,
}

/// Decodes a row of `edition`: id, version.
impl FromRow for Edition {
    ghost said = { edition_in };

    #[tactic(auto, unfolding(crate::specs::Edition::Reading::edition_in))]
    fn from_row(_alloc: Global, row: &Row) -> Result<Edition, WireFault> {
        let id = natural_at(row, 0)?;
        let version = natural_at(row, 1)?;
        Ok(Edition { id, version })
    }
}
