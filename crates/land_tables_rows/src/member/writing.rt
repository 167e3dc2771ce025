//! Members of groups (LA_PartyMember).
ghost use Rattle.std.specs.Prelude.{◌≡◌, ◌<◌, ◌^◌, IsTrue, nat_eq};
ghost use Rattle.land_core.specs.Numbers.{IsMoment};
ghost use Rattle.land_tables_rows.specs.Effects.{Performs};
ghost use Rattle.land_tables_rows.specs.Member.Writing.{fits_member, member_reading};
ghost use Rattle.land_tables_rows.specs.Writing.Holding.{Begins, ClosesVersions};
ghost use Rattle.land_tables_schema.specs.Connections.{HasRegisterTables, SameReference};

use land_core::limits::is_number;
use land_tables_history::group_member::GroupMember;
use land_tables_schema::rows::tables as rows;
use sqlite::{Alter, Error, Transaction};

/// Checks if a member can be written: the numbers of the group and of the party are within their limits.
pub fn fits(entry: &GroupMember) -> bool
    ensures { result ≡ fits_member entry.now }
{
    is_number(entry.group) && is_number(entry.member.party)
}

/// Begins a version of a member of a group.
pub fn begin<S: Alter>(
    tx: &mut Transaction<'_, S>,
    entry: &GroupMember,
    since: i64,
) -> Result<usize, Error>
    requires fits { IsTrue (fits_member entry.now) }
    requires moment { IsMoment since }
    requires has_tables { HasRegisterTables S.Store tx.old.conn.now }
    ensures same_reference { SameReference tx.old tx.new }
    ensures step { Performs S.Store result (Begins member_reading entry.now since) tx.old tx.new }
{
    let numerator = entry.member.share.numerator();
    let denominator = entry.member.share.denominator();
    rows::member::begin(
        tx,
        entry.group,
        entry.member.party,
        numerator,
        denominator,
        since,
    )
}

/// Closes the current versions of all members of a group.
pub fn close<S: Alter>(tx: &mut Transaction<'_, S>, group: u64, stamp: i64) -> Result<usize, Error>
    requires group_fits { group < 2 ^ 63 }
    requires moment { IsMoment stamp }
    requires has_tables { HasRegisterTables S.Store tx.old.conn.now }
    ensures same_reference { SameReference tx.old tx.new }
    ensures step { Performs S.Store result
        (ClosesVersions member_reading (λ e. nat_eq e.group group) stamp) tx.old tx.new }
{
    rows::member::close(tx, group, stamp)
}
