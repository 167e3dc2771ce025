//! Links of mutations to units.
ghost use Rattle.land_tables_rows.specs.Naming.Reading.{naming_in};

use crate::reading::cells::{end_at, moment_at, number_at};
use crate::reading::from_row::FromRow;
use land_tables_history::naming::Naming;
use land_tables_history::version::Version;
use land_wire_json::bodies::wire_fault::WireFault;
use sqlite::Row;
use std::alloc::Global;

/// Decodes a row of `names`: mutation, unit, since, until.
impl FromRow for Version<Naming> {
    ghost said = { naming_in };

    #[tactic(auto, unfolding(crate::specs::Naming::Reading::naming_in))]
    fn from_row(_alloc: Global, row: &Row) -> Result<Version<Naming>, WireFault> {
        let mutation = number_at(row, 0)?;
        let unit = number_at(row, 1)?;
        let since = moment_at(row, 2)?;
        let until = end_at(row, 3)?;
        Ok(Version {
            what: Naming { mutation, unit },
            since,
            until,
        })
    }
}
