//! Mutations.
ghost use Rattle.land_tables_rows.specs.Mutation.Reading.{mutation_in};

use crate::reading::cells::{end_at, moment_at, number_at, reference_at, text_at};
use crate::reading::from_row::FromRow;
use crate::reading::words::state_at;
use land_core::mutation::MutationRecord;
use land_tables_history::version::Version;
use land_wire_json::bodies::content::read_content;
use land_wire_json::bodies::wire_fault::WireFault;
use sqlite::Row;
use std::alloc::Global;

/// Decodes a row of `mutation`: number, lodger, reference, source, lodged, act, content, state, since, until.
impl FromRow for Version<(u64, MutationRecord)> {
    ghost said = { mutation_in };

    #[tactic(auto, unfolding(crate::specs::Mutation::Reading::mutation_in))]
    fn from_row(alloc: Global, row: &Row) -> Result<Version<(u64, MutationRecord)>, WireFault> {
        let number = number_at(row, 0)?;
        let lodger = number_at(row, 1)?;
        let reference = reference_at(alloc, row, 2)?;
        let source = number_at(row, 3)?;
        let lodged = moment_at(row, 4)?;
        let act = text_at(row, 5)?;
        let text = text_at(row, 6)?;
        let content = read_content(alloc, act, text)?;
        let state = state_at(row, 7)?;
        let since = moment_at(row, 8)?;
        let until = end_at(row, 9)?;
        let record = MutationRecord {
            lodger,
            reference,
            source,
            lodged,
            state,
            content,
        };
        Ok(Version {
            what: (number, record),
            since,
            until,
        })
    }
}
