//! The entries of units: rights, restrictions, responsibilities and mortgages (LA_RRR).
ghost use Rattle.std.specs.Prelude.{◌≡◌, ◌<◌, ◌^◌, IsTrue, nat_eq};
ghost use Rattle.land_core.specs.Numbers.{IsMoment};
ghost use Rattle.land_tables_rows.specs.Effects.{Performs};
ghost use Rattle.land_tables_rows.specs.Rrr.Cells.{fits_rrr};
ghost use Rattle.land_tables_rows.specs.Rrr.Writing.{rrr_reading};
ghost use Rattle.land_tables_rows.specs.Writing.Holding.{Begins, ClosesVersions};
ghost use Rattle.land_tables_schema.specs.Connections.{HasRegisterTables, SameReference};

use crate::cells::laws::rrrs_read_back;
use crate::rrr::cells::{class_is_exact, fits_rrr, rrr_cells};
use land_core::rrr::RrrRecord;
use land_tables_schema::rows::tables as rows;
use sqlite::{Alter, Error, Transaction};

/// Checks if an entry can be written: its numbers and the fields of its class are within their limits.
pub fn fits(number: u64, entry: &RrrRecord) -> bool
    ensures { result ≡ fits_rrr (number, entry.now) }
{
    fits_rrr(number, entry)
}

/// Begins a version of an entry.
pub fn begin<S: Alter>(
    tx: &mut Transaction<'_, S>,
    number: u64,
    entry: &RrrRecord,
    since: i64,
) -> Result<usize, Error>
    requires fits { IsTrue (fits_rrr (number, entry.now)) }
    requires moment { IsMoment since }
    requires has_tables { HasRegisterTables S.Store tx.old.conn.now }
    ensures same_reference { SameReference tx.old tx.new }
    ensures step { Performs S.Store result (Begins rrr_reading (number, entry.now) since) tx.old tx.new }
{
    rrrs_read_back();
    class_is_exact(&entry.class);
    rows::rrr::begin(tx, rrr_cells(number, entry), since)
}

/// Closes the current version of an entry.
pub fn close<S: Alter>(tx: &mut Transaction<'_, S>, number: u64, stamp: i64) -> Result<usize, Error>
    requires number_fits { number < 2 ^ 63 }
    requires moment { IsMoment stamp }
    requires has_tables { HasRegisterTables S.Store tx.old.conn.now }
    ensures same_reference { SameReference tx.old tx.new }
    ensures step { Performs S.Store result
        (ClosesVersions rrr_reading (λ e. nat_eq e.0 number) stamp) tx.old tx.new }
{
    rows::rrr::close(tx, number, stamp)
}
