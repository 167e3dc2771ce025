//! Mandates that parties have given.
ghost use Rattle.land_tables_rows.specs.Mandate.Reading.{mandate_in};

use crate::reading::cells::{end_at, moment_at, number_at};
use crate::reading::from_row::FromRow;
use land_core::mandates::Mandate;
use land_tables_history::version::Version;
use land_wire_json::bodies::wire_fault::WireFault;
use sqlite::Row;
use std::alloc::Global;

/// Decodes a row of `mandate`: principal, agent, since, until.
impl FromRow for Version<Mandate> {
    ghost said = { mandate_in };

    #[tactic(auto, unfolding(crate::specs::Mandate::Reading::mandate_in))]
    fn from_row(_alloc: Global, row: &Row) -> Result<Version<Mandate>, WireFault> {
        let principal = number_at(row, 0)?;
        let agent = number_at(row, 1)?;
        let since = moment_at(row, 2)?;
        let until = end_at(row, 3)?;
        Ok(Version {
            what: Mandate { principal, agent },
            since,
            until,
        })
    }
}
