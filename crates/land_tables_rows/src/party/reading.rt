//! Parties (LA_Party).
ghost use Rattle.land_tables_rows.specs.Party.Reading.{party_in};

use crate::reading::cells::{end_at, moment_at, name_at, number_at};
use crate::reading::from_row::FromRow;
use crate::reading::words::party_kind_at;
use land_core::party::PartyRecord;
use land_tables_history::version::Version;
use land_wire_json::bodies::wire_fault::WireFault;
use sqlite::Row;
use std::alloc::Global;

/// Decodes a row of `party`: number, name, kind, since, until.
impl FromRow for Version<(u64, PartyRecord)> {
    ghost said = { party_in };

    #[tactic(auto, unfolding(crate::specs::Party::Reading::party_in))]
    fn from_row(alloc: Global, row: &Row) -> Result<Version<(u64, PartyRecord)>, WireFault> {
        let number = number_at(row, 0)?;
        let name = name_at(alloc, row, 1)?;
        let kind = party_kind_at(row, 2)?;
        let since = moment_at(row, 3)?;
        let until = end_at(row, 4)?;
        Ok(Version {
            what: (number, PartyRecord { kind, name }),
            since,
            until,
        })
    }
}
