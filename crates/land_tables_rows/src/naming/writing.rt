//! Links of mutations to units. A link is never closed: it exists as long as its mutation.
ghost use Rattle.std.specs.Prelude.{◌≡◌, IsTrue};
ghost use Rattle.land_core.specs.Numbers.{IsMoment};
ghost use Rattle.land_tables_rows.specs.Effects.{Performs};
ghost use Rattle.land_tables_rows.specs.Naming.Writing.{fits_naming, naming_reading};
ghost use Rattle.land_tables_rows.specs.Writing.Holding.{Begins};
ghost use Rattle.land_tables_schema.specs.Connections.{HasRegisterTables, SameReference};

use land_core::limits::is_number;
use land_tables_history::naming::Naming;
use land_tables_schema::rows::tables as rows;
use sqlite::{Alter, Error, Transaction};

/// Checks if a link can be written: the numbers of the mutation and of the unit are within their limits.
pub fn fits(naming: Naming) -> bool
    ensures { result ≡ fits_naming naming }
{
    is_number(naming.mutation) && is_number(naming.unit)
}

/// Begins a version of a link.
pub fn begin<S: Alter>(
    tx: &mut Transaction<'_, S>,
    naming: Naming,
    since: i64,
) -> Result<usize, Error>
    requires fits { IsTrue (fits_naming naming) }
    requires moment { IsMoment since }
    requires has_tables { HasRegisterTables S.Store tx.old.conn.now }
    ensures same_reference { SameReference tx.old tx.new }
    ensures step { Performs S.Store result (Begins naming_reading naming since) tx.old tx.new }
{
    rows::names::begin(tx, naming.mutation, naming.unit, since)
}
