//! Sources (LA_Source).
ghost use Rattle.land_tables_rows.specs.Source.Reading.{source_in};

use crate::reading::cells::{end_at, moment_at, number_at, title_at};
use crate::reading::from_row::FromRow;
use crate::reading::words::source_kind_at;
use land_core::source::SourceRecord;
use land_tables_history::version::Version;
use land_wire_json::bodies::wire_fault::WireFault;
use sqlite::Row;
use std::alloc::Global;

/// Decodes a row of `source`: number, kind, title, since, until.
impl FromRow for Version<(u64, SourceRecord)> {
    ghost said = { source_in };

    #[tactic(auto, unfolding(crate::specs::Source::Reading::source_in))]
    fn from_row(alloc: Global, row: &Row) -> Result<Version<(u64, SourceRecord)>, WireFault> {
        let number = number_at(row, 0)?;
        let kind = source_kind_at(row, 1)?;
        let title = title_at(alloc, row, 2)?;
        let since = moment_at(row, 3)?;
        let until = end_at(row, 4)?;
        Ok(Version {
            what: (number, SourceRecord { kind, title }),
            since,
            until,
        })
    }
}
