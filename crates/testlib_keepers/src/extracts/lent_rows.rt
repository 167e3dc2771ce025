//! Rows that a keeper lends one at a time.
use crate::each::new_tables;
use land_core::caller::Caller;
use land_core::kind::Kind;
use land_core::object::Object;
use land_core::role::Role;
use land_keep::keeper::Keeper;
use land_keep::named::NamedObject;
use land_select::sql_keeper::SqlKeeper;
use land_sheet::extracts::seen::{Seen, each_seen, visible_numbers};
use std::alloc::Global;
use testlib_scenario::run_scenario::{plain, play_steps};
use testlib_scenario::stop::{Stop, expect};

/// Ben, as a citizen.
const BEN: Caller = Caller {
    party: 3,
    role: Role::Citizen,
};

/// The entries that Ben sees after the scenario: their numbers and the names of their parties.
const ENTRIES: &[(u64, &str)] = &[
    (13, "Sam"),
    (16, "Bank, \"North\""),
    (21, "Ben"),
    (27, "Sam"),
    (28, "Bank, \"North\""),
    (29, "Ben"),
];

/// Checks if a row is the entry of a number with a name of its party.
fn is_row(row: &NamedObject, wanted: (u64, &str)) -> bool {
    match &row.object {
        Object::Rrr(entry) => entry.number == wanted.0 && row.name.as_str() == wanted.1,
        _ => false,
    }
}

/// Checks if the next row is the expected one.
fn is_next<K: Keeper>(seen: &mut Seen<'_, K>, wanted: (u64, &str)) -> Result<bool, Stop> {
    match seen.next()? {
        Some(row) => Ok(is_row(&row, wanted)),
        None => Ok(false),
    }
}

/// Checks if there are no more rows.
fn is_end<K: Keeper>(seen: &mut Seen<'_, K>) -> Result<bool, Stop> {
    Ok(seen.next()?.is_none())
}

/// Checks that the entries that Ben sees are lent in order, and then none, for each later call.
fn are_lent<K: Keeper>(seen: &mut Seen<'_, K>) -> Result<(), Stop> {
    for (place, wanted) in ENTRIES.iter().enumerate() {
        expect(is_next(seen, *wanted)?, "a row", place)?;
    }
    expect(is_end(seen)?, "the end", 0)?;
    expect(is_end(seen)?, "the end", 1)
}

/// Checks the rows that a keeper lends.
fn are_lent_by<K: Keeper>(alloc: Global, keeper: &mut K) -> Result<(), Stop> {
    let last = keeper.last();
    let numbers = visible_numbers(alloc, keeper, BEN, Kind::Rrr, last)?;
    let mut seen = each_seen(alloc, keeper, &numbers, Kind::Rrr, last);
    are_lent(&mut seen)
}

/// Tests the rows of the keeper in memory.
pub fn rows_are_lent_by_the_keeper_in_memory(alloc: Global) -> Result<(), Stop> {
    let mut keeper = plain(alloc)?;
    are_lent_by(alloc, &mut keeper)
}

/// Tests the rows of the indexed keeper.
pub fn rows_are_lent_by_joins(alloc: Global) -> Result<(), Stop> {
    let mut keeper = SqlKeeper::new(new_tables(alloc)?);
    play_steps(alloc, &mut keeper)?;
    are_lent_by(alloc, &mut keeper)
}
