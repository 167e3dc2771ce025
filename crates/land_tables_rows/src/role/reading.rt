//! Roles of parties (LA_PartyRoleType).
ghost use Rattle.land_tables_rows.specs.Role.Reading.{role_grant_in};

use crate::reading::cells::{end_at, moment_at, number_at};
use crate::reading::from_row::FromRow;
use crate::reading::words::role_at;
use land_core::roles::Grant;
use land_tables_history::version::Version;
use land_wire_json::bodies::wire_fault::WireFault;
use sqlite::Row;
use std::alloc::Global;

/// Decodes a row of `role`: party, role, since, until.
impl FromRow for Version<Grant> {
    ghost said = { role_grant_in };

    #[tactic(auto, unfolding(crate::specs::Role::Reading::role_grant_in))]
    fn from_row(_alloc: Global, row: &Row) -> Result<Version<Grant>, WireFault> {
        let party = number_at(row, 0)?;
        let role = role_at(row, 1)?;
        let since = moment_at(row, 2)?;
        let until = end_at(row, 3)?;
        Ok(Version {
            what: Grant { party, role },
            since,
            until,
        })
    }
}
