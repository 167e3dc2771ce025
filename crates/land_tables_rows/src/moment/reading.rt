//! Moments at which the register changed.
ghost use Rattle.land_tables_rows.specs.Moment.Reading.{moment_row_in};

use crate::reading::cells::{moment_at, next_at};
use crate::reading::from_row::FromRow;
use land_tables_history::moment::Moment;
use land_wire_json::bodies::wire_fault::WireFault;
use sqlite::Row;
use std::alloc::Global;

/// Decodes a row of `moments`: stamp, next.
impl FromRow for Moment {
    ghost said = { moment_row_in };

    #[tactic(auto, unfolding(crate::specs::Moment::Reading::moment_row_in))]
    fn from_row(_alloc: Global, row: &Row) -> Result<Moment, WireFault> {
        let stamp = moment_at(row, 0)?;
        let next = next_at(row, 1)?;
        Ok(Moment { stamp, next })
    }
}
