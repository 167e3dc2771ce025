//! Members of groups (LA_PartyMember).
ghost use Rattle.land_tables_rows.specs.Member.Reading.{member_in};

use crate::reading::cells::{end_at, moment_at, number_at, share_at};
use crate::reading::from_row::FromRow;
use land_core::member::Member;
use land_tables_history::group_member::GroupMember;
use land_tables_history::version::Version;
use land_wire_json::bodies::wire_fault::WireFault;
use sqlite::Row;
use std::alloc::Global;

/// Decodes a row of `member`: group, party, numerator and denominator of its share, since, until.
impl FromRow for Version<GroupMember> {
    ghost said = { member_in };

    #[tactic(auto, unfolding(crate::specs::Member::Reading::member_in))]
    fn from_row(_alloc: Global, row: &Row) -> Result<Version<GroupMember>, WireFault> {
        let group = number_at(row, 0)?;
        let party = number_at(row, 1)?;
        let share = share_at(row, 2, 3)?;
        let since = moment_at(row, 4)?;
        let until = end_at(row, 5)?;
        Ok(Version {
            what: GroupMember {
                group,
                member: Member { party, share },
            },
            since,
            until,
        })
    }
}
