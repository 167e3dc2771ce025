//! Sources (LA_Source).
ghost use Rattle.std.specs.Prelude.{◌≡◌, ◌<◌, ◌^◌, IsTrue, nat_eq};
ghost use Rattle.land_core.specs.Numbers.{IsMoment};
ghost use Rattle.land_tables_rows.specs.Effects.{Performs};
ghost use Rattle.land_tables_rows.specs.Source.Writing.{fits_source, source_reading};
ghost use Rattle.land_tables_rows.specs.Writing.Holding.{Begins, ClosesVersions};
ghost use Rattle.land_tables_schema.specs.Connections.{HasRegisterTables, SameReference};

use land_core::limits::{is_number, is_title};
use land_core::source::SourceRecord;
use land_core::words::source_word;
use land_tables_schema::rows::tables as rows;
use sqlite::{Alter, Error, Transaction};

/// Checks if a source can be written: its number and its title are within their limits.
pub fn fits(number: u64, source: &SourceRecord) -> bool
    ensures { result ≡ fits_source number source.now }
{
    is_number(number) && is_title(source.title.as_str())
}

/// Begins a version of a source.
pub fn begin<S: Alter>(
    tx: &mut Transaction<'_, S>,
    number: u64,
    source: &SourceRecord,
    since: i64,
) -> Result<usize, Error>
    requires fits { IsTrue (fits_source number source.now) }
    requires moment { IsMoment since }
    requires has_tables { HasRegisterTables S.Store tx.old.conn.now }
    ensures same_reference { SameReference tx.old tx.new }
    ensures step { Performs S.Store result (Begins source_reading (number, source.now) since) tx.old tx.new }
{
    rows::source::begin(
        tx,
        number,
        source_word(source.kind),
        source.title.as_str(),
        since,
    )
}

/// Closes the current version of a source.
pub fn close<S: Alter>(tx: &mut Transaction<'_, S>, number: u64, stamp: i64) -> Result<usize, Error>
    requires number_fits { number < 2 ^ 63 }
    requires moment { IsMoment stamp }
    requires has_tables { HasRegisterTables S.Store tx.old.conn.now }
    ensures same_reference { SameReference tx.old tx.new }
    ensures step { Performs S.Store result
        (ClosesVersions source_reading (λ e. nat_eq e.0 number) stamp) tx.old tx.new }
{
    rows::source::close(tx, number, stamp)
}
