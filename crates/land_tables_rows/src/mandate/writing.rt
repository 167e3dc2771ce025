//! Mandates that parties have given.
ghost use Rattle.std.specs.Prelude.{◌≡◌, ◌<◌, ◌^◌, IsTrue};
ghost use Rattle.land_core.specs.Numbers.{IsMoment};
ghost use Rattle.land_tables_history.specs.Intervals.{is_same_mandate};
ghost use Rattle.land_tables_rows.specs.Effects.{Performs};
ghost use Rattle.land_tables_rows.specs.Mandate.Writing.{fits_mandate, mandate_reading};
ghost use Rattle.land_tables_rows.specs.Writing.Holding.{Begins, ClosesVersions};
ghost use Rattle.land_tables_schema.specs.Connections.{HasRegisterTables, SameReference};

use land_core::limits::is_number;
use land_core::mandates::Mandate;
use land_tables_schema::rows::tables as rows;
use sqlite::{Alter, Error, Transaction};

/// Checks if a mandate can be written: the numbers of the principal and of the agent are within their limits.
pub fn fits(mandate: Mandate) -> bool
    ensures { result ≡ fits_mandate mandate }
{
    is_number(mandate.principal) && is_number(mandate.agent)
}

/// Begins a version of a mandate: from its beginning on the agent has the sight of the principal.
pub fn begin<S: Alter>(
    tx: &mut Transaction<'_, S>,
    mandate: Mandate,
    since: i64,
) -> Result<usize, Error>
    requires fits { IsTrue (fits_mandate mandate) }
    requires moment { IsMoment since }
    requires has_tables { HasRegisterTables S.Store tx.old.conn.now }
    ensures same_reference { SameReference tx.old tx.new }
    ensures step { Performs S.Store result (Begins mandate_reading mandate since) tx.old tx.new }
{
    rows::mandate::begin(tx, mandate.principal, mandate.agent, since)
}

/// Closes the current version of a mandate.
pub fn close<S: Alter>(
    tx: &mut Transaction<'_, S>,
    mandate: Mandate,
    stamp: i64,
) -> Result<usize, Error>
    requires principal_fits { mandate.principal < 2 ^ 63 }
    requires agent_fits { mandate.agent < 2 ^ 63 }
    requires moment { IsMoment stamp }
    requires has_tables { HasRegisterTables S.Store tx.old.conn.now }
    ensures same_reference { SameReference tx.old tx.new }
    ensures step { Performs S.Store result
        (ClosesVersions mandate_reading (λ e. is_same_mandate e mandate) stamp) tx.old tx.new }
{
    rows::mandate::close(tx, mandate.principal, mandate.agent, stamp)
}
