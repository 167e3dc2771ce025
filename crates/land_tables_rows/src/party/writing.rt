//! Parties (LA_Party).
ghost use Rattle.std.specs.Prelude.{◌≡◌, ◌<◌, ◌^◌, IsTrue, nat_eq};
ghost use Rattle.land_core.specs.Numbers.{IsMoment};
ghost use Rattle.land_tables_rows.specs.Effects.{Performs};
ghost use Rattle.land_tables_rows.specs.Party.Writing.{fits_party, party_reading};
ghost use Rattle.land_tables_rows.specs.Writing.Holding.{Begins, ClosesVersions};
ghost use Rattle.land_tables_schema.specs.Connections.{HasRegisterTables, SameReference};

use land_core::limits::{is_name, is_number};
use land_core::party::PartyRecord;
use land_core::words::party_word;
use land_tables_schema::rows::tables as rows;
use sqlite::{Alter, Error, Transaction};

/// Checks if a party can be written: its number and its name are within their limits.
pub fn fits(number: u64, party: &PartyRecord) -> bool
    ensures { result ≡ fits_party number party.now }
{
    is_number(number) && is_name(party.name.as_str())
}

/// Begins a version of a party.
pub fn begin<S: Alter>(
    tx: &mut Transaction<'_, S>,
    number: u64,
    party: &PartyRecord,
    since: i64,
) -> Result<usize, Error>
    requires fits { IsTrue (fits_party number party.now) }
    requires moment { IsMoment since }
    requires has_tables { HasRegisterTables S.Store tx.old.conn.now }
    ensures same_reference { SameReference tx.old tx.new }
    ensures step { Performs S.Store result (Begins party_reading (number, party.now) since) tx.old tx.new }
{
    rows::party::begin(
        tx,
        number,
        party.name.as_str(),
        party_word(party.kind),
        since,
    )
}

/// Closes the current version of a party.
pub fn close<S: Alter>(tx: &mut Transaction<'_, S>, number: u64, stamp: i64) -> Result<usize, Error>
    requires number_fits { number < 2 ^ 63 }
    requires moment { IsMoment stamp }
    requires has_tables { HasRegisterTables S.Store tx.old.conn.now }
    ensures same_reference { SameReference tx.old tx.new }
    ensures step { Performs S.Store result
        (ClosesVersions party_reading (λ e. nat_eq e.0 number) stamp) tx.old tx.new }
{
    rows::party::close(tx, number, stamp)
}
