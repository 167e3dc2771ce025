//! The lists that callers see, with each keeper.
use crate::random::dice::Dice;
use crate::random::drawn::OFFICE;
use crate::random::keepers::Keepers;
use land_core::caller::Caller;
use land_core::kind::Kind;
use land_core::limits::LAST_MOMENT;
use land_core::role::Role;
use land_keep::keeper::Keeper;
use std::alloc::Global;
use testlib_scenario::stop::{Stop, expect};

const ROLES: &[Role] = &[
    Role::Citizen,
    Role::Conveyancer,
    Role::Notary,
    Role::Bank,
    Role::CertifiedSurveyor,
    Role::StateAdministrator,
];

pub const KINDS: &[Kind] = &[
    Kind::Party,
    Kind::Unit,
    Kind::Parcel,
    Kind::Rrr,
    Kind::Source,
    Kind::Mutation,
];

/// Numbers that are not parties: below 1, a unit (9), and above 1,000,000,000.
const STRANGERS: &[u64] = &[0, 9, 1_000_000_001, 9_223_372_036_854_775_808];

/// Returns a random time: before the first stamp, the last moment, or the stamp of a change or the moment
/// before the first one.
fn draw_moment(dice: &mut Dice, last: i64) -> i64 {
    let count = u32::try_from(last.saturating_sub(998)).unwrap_or(1);
    match dice.throw(10) {
        0 => -1,
        1 => LAST_MOMENT,
        _ => i64::from(dice.throw(count)).saturating_add(999),
    }
}

/// Checks that a keeper returns these numbers of a kind for a caller at a time.
fn expect_sight<K: Keeper>(
    alloc: Global,
    keeper: &mut K,
    caller: Caller,
    kind: Kind,
    at: i64,
    wanted: &[u64],
) -> Result<(), Stop> {
    let numbers = keeper.sight(alloc, caller, kind, at)?;
    expect(numbers.as_slice() == wanted, "sight", wanted.len())
}

/// A list is requested from whole tables only once in this number, since each request reads all of them.
const ONE_IN: u32 = 16;

/// The number of random times for each list.
const MOMENTS: u32 = 3;

/// Returns the length of a caller's list at a time. The list is the same in memory and with indexed queries,
/// and at random also on whole tables.
fn read_at<P: Keeper, T: Keeper, J: Keeper>(
    alloc: Global,
    keepers: &mut Keepers<'_, P, T, J>,
    dice: &mut Dice,
    caller: Caller,
    kind: Kind,
    at: i64,
) -> Result<usize, Stop> {
    let wanted = keepers.plain.sight(alloc, caller, kind, at)?;
    let wanted = wanted.as_slice();
    if dice.throw(ONE_IN) == 0 {
        expect_sight(alloc, keepers.tables, caller, kind, at, wanted)?;
    }
    expect_sight(alloc, keepers.joins, caller, kind, at, wanted)?;
    keepers.lists = keepers.lists.saturating_add(1);
    Ok(wanted.len())
}

/// Returns the lengths of a caller's lists now and at random times.
fn shown<P: Keeper, T: Keeper, J: Keeper>(
    alloc: Global,
    keepers: &mut Keepers<'_, P, T, J>,
    dice: &mut Dice,
    caller: Caller,
    kind: Kind,
) -> Result<usize, Stop> {
    let last = keepers.plain.last();
    let mut count = read_at(alloc, keepers, dice, caller, kind, last)?;
    for _ in 0..MOMENTS {
        let at = draw_moment(dice, last);
        count = count.saturating_add(read_at(alloc, keepers, dice, caller, kind, at)?);
    }
    Ok(count)
}

/// Returns the lengths of the lists of several callers in a role.
fn read_as<P: Keeper, T: Keeper, J: Keeper>(
    alloc: Global,
    keepers: &mut Keepers<'_, P, T, J>,
    dice: &mut Dice,
    parties: &[u64],
    role: Role,
    kind: Kind,
) -> Result<usize, Stop> {
    let mut count = 0usize;
    for party in parties {
        let caller = Caller {
            party: *party,
            role,
        };
        count = count.saturating_add(shown(alloc, keepers, dice, caller, kind)?);
    }
    Ok(count)
}

/// Returns the number of pairs of a role and a kind in which one of these callers sees an object.
fn pairs_shown<P: Keeper, T: Keeper, J: Keeper>(
    alloc: Global,
    keepers: &mut Keepers<'_, P, T, J>,
    dice: &mut Dice,
    parties: &[u64],
) -> Result<usize, Stop> {
    let mut pairs = 0usize;
    for role in ROLES {
        for kind in KINDS {
            if read_as(alloc, keepers, dice, parties, *role, *kind)? != 0 {
                pairs = pairs.saturating_add(1);
            }
        }
    }
    Ok(pairs)
}

/// Returns the same for all current parties.
fn pairs_shown_to_parties<P: Keeper, T: Keeper, J: Keeper>(
    alloc: Global,
    keepers: &mut Keepers<'_, P, T, J>,
    dice: &mut Dice,
) -> Result<usize, Stop> {
    let last = keepers.plain.last();
    let parties = keepers.plain.sight(alloc, OFFICE, Kind::Party, last)?;
    pairs_shown(alloc, keepers, dice, parties.as_slice())
}

/// Checks that each keeper returns the same lists for all parties and for callers that are not parties.
/// Parties see an object in 30 of the 36 pairs of a role and a kind: no sources as citizen, conveyancer or
/// bank, and no units, entries or sources as certified surveyor. Other callers see only what does not depend
/// on the party: parcels in four roles, and all six kinds in two.
pub fn read_everything<P: Keeper, T: Keeper, J: Keeper>(
    alloc: Global,
    keepers: &mut Keepers<'_, P, T, J>,
    dice: &mut Dice,
) -> Result<(), Stop> {
    let pairs = pairs_shown_to_parties(alloc, keepers, dice)?;
    expect(pairs == 30, "pairs shown to parties", pairs)?;
    let pairs = pairs_shown(alloc, keepers, dice, STRANGERS)?;
    expect(pairs == 16, "pairs shown to strangers", pairs)
}
