//! Basic administrative units (LA_BAUnit).
ghost use Rattle.land_tables_rows.specs.Unit.Reading.{unit_in};

use crate::reading::cells::{end_at, flag_at, moment_at, name_at, number_at};
use crate::reading::from_row::FromRow;
use land_core::unit::UnitRecord;
use land_tables_history::version::Version;
use land_wire_json::bodies::wire_fault::WireFault;
use sqlite::Row;
use std::alloc::Global;

/// Decodes a row of `unit`: number, name, checked, since, until.
impl FromRow for Version<(u64, UnitRecord)> {
    ghost said = { unit_in };

    #[tactic(auto, unfolding(crate::specs::Unit::Reading::unit_in))]
    fn from_row(alloc: Global, row: &Row) -> Result<Version<(u64, UnitRecord)>, WireFault> {
        let number = number_at(row, 0)?;
        let name = name_at(alloc, row, 1)?;
        let checked = flag_at(row, 2)?;
        let since = moment_at(row, 3)?;
        let until = end_at(row, 4)?;
        Ok(Version {
            what: (number, UnitRecord { name, checked }),
            since,
            until,
        })
    }
}
