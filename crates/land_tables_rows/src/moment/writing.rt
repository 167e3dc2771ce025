//! Moments at which the register changed.
ghost use Rattle.std.specs.Prelude.{◌≡◌, IsTrue};
ghost use Rattle.land_core.specs.Numbers.{IsMoment};
ghost use Rattle.land_tables_rows.specs.Effects.{Performs};
ghost use Rattle.land_tables_rows.specs.Moment.Writing.{InsertsMoment};
ghost use Rattle.land_tables_rows.specs.Reading.Cells.{is_next};
ghost use Rattle.land_tables_schema.specs.Connections.{HasRegisterTables, SameReference};

use land_core::limits::LAST_NEXT;
use land_tables_schema::rows::tables as rows;
use sqlite::{Alter, Error, Transaction};

/// Checks if a number can be written as the next number: 2 to 1,000,000,001.
pub fn fits(next: u64) -> bool
    ensures { result ≡ is_next next }
{
    2 <= next && next <= LAST_NEXT
}

/// Inserts a moment at which the register changed, with the number that the next new object takes after that.
pub fn insert<S: Alter>(tx: &mut Transaction<'_, S>, stamp: i64, next: u64) -> Result<usize, Error>
    requires fits { IsTrue (is_next next) }
    requires moment { IsMoment stamp }
    requires has_tables { HasRegisterTables S.Store tx.old.conn.now }
    ensures same_reference { SameReference tx.old tx.new }
    ensures step { Performs S.Store result
        (InsertsMoment (record { stamp = stamp; next = next })) tx.old tx.new }
{
    rows::moments::insert(tx, stamp, next)
}
