//! Basic administrative units (LA_BAUnit).
ghost use Rattle.std.specs.Prelude.{◌≡◌, ◌<◌, ◌^◌, IsTrue, nat_eq};
ghost use Rattle.land_core.specs.Numbers.{IsMoment};
ghost use Rattle.land_tables_rows.specs.Effects.{Performs};
ghost use Rattle.land_tables_rows.specs.Unit.Writing.{fits_unit, unit_reading};
ghost use Rattle.land_tables_rows.specs.Writing.Holding.{Begins, ClosesVersions};
ghost use Rattle.land_tables_schema.specs.Connections.{HasRegisterTables, SameReference};

use land_core::limits::{is_name, is_number};
use land_core::unit::UnitRecord;
use land_tables_schema::rows::tables as rows;
use sqlite::{Alter, Error, Transaction};

/// Checks if a unit can be written: its number and its name are within their limits.
pub fn fits(number: u64, unit: &UnitRecord) -> bool
    ensures { result ≡ fits_unit number unit.now }
{
    is_number(number) && is_name(unit.name.as_str())
}

/// Begins a version of a unit.
pub fn begin<S: Alter>(
    tx: &mut Transaction<'_, S>,
    number: u64,
    unit: &UnitRecord,
    since: i64,
) -> Result<usize, Error>
    requires fits { IsTrue (fits_unit number unit.now) }
    requires moment { IsMoment since }
    requires has_tables { HasRegisterTables S.Store tx.old.conn.now }
    ensures same_reference { SameReference tx.old tx.new }
    ensures step { Performs S.Store result (Begins unit_reading (number, unit.now) since) tx.old tx.new }
{
    rows::unit::begin(tx, number, unit.name.as_str(), unit.checked, since)
}

/// Closes the current version of a unit.
pub fn close<S: Alter>(tx: &mut Transaction<'_, S>, number: u64, stamp: i64) -> Result<usize, Error>
    requires number_fits { number < 2 ^ 63 }
    requires moment { IsMoment stamp }
    requires has_tables { HasRegisterTables S.Store tx.old.conn.now }
    ensures same_reference { SameReference tx.old tx.new }
    ensures step { Performs S.Store result
        (ClosesVersions unit_reading (λ e. nat_eq e.0 number) stamp) tx.old tx.new }
{
    rows::unit::close(tx, number, stamp)
}
