//! Roles of parties (LA_PartyRoleType).
ghost use Rattle.std.specs.Prelude.{◌≡◌, ◌<◌, ◌^◌, IsTrue};
ghost use Rattle.land_core.specs.Numbers.{IsMoment};
ghost use Rattle.land_tables_history.specs.Intervals.{is_same_grant};
ghost use Rattle.land_tables_rows.specs.Effects.{Performs};
ghost use Rattle.land_tables_rows.specs.Role.Writing.{fits_grant, role_reading};
ghost use Rattle.land_tables_rows.specs.Writing.Holding.{Begins, ClosesVersions};
ghost use Rattle.land_tables_schema.specs.Connections.{HasRegisterTables, SameReference};

use land_core::limits::is_number;
use land_core::roles::Grant;
use land_core::words::role_word;
use land_tables_schema::rows::tables as rows;
use sqlite::{Alter, Error, Transaction};

/// Checks if a grant can be written: the number of its party is within its limits.
pub fn fits(grant: Grant) -> bool
    ensures { result ≡ fits_grant grant }
{
    is_number(grant.party)
}

/// Begins a version of a grant: from its beginning on the party holds the role.
pub fn begin<S: Alter>(
    tx: &mut Transaction<'_, S>,
    grant: Grant,
    since: i64,
) -> Result<usize, Error>
    requires fits { IsTrue (fits_grant grant) }
    requires moment { IsMoment since }
    requires has_tables { HasRegisterTables S.Store tx.old.conn.now }
    ensures same_reference { SameReference tx.old tx.new }
    ensures step { Performs S.Store result (Begins role_reading grant since) tx.old tx.new }
{
    rows::role::begin(tx, grant.party, role_word(grant.role), since)
}

/// Closes the current version of a grant.
pub fn close<S: Alter>(
    tx: &mut Transaction<'_, S>,
    grant: Grant,
    stamp: i64,
) -> Result<usize, Error>
    requires party_fits { grant.party < 2 ^ 63 }
    requires moment { IsMoment stamp }
    requires has_tables { HasRegisterTables S.Store tx.old.conn.now }
    ensures same_reference { SameReference tx.old tx.new }
    ensures step { Performs S.Store result
        (ClosesVersions role_reading (λ e. is_same_grant e grant) stamp) tx.old tx.new }
{
    rows::role::close(tx, grant.party, role_word(grant.role), stamp)
}
