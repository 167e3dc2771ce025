//! Lists that read less than whole tables: lists after the scenario, on whole tables and with indexed
//! queries.
use crate::each::new_tables;
use crate::growths::marks::{mark, mark_end};
use land_core::caller::Caller;
use land_core::kind::Kind;
use land_core::role::Role;
use land_keep::keeper::Keeper;
use land_select::sql_keeper::SqlKeeper;
use land_tables::table_keeper::TableKeeper;
use std::alloc::Global;
use testlib_scenario::run_scenario::play_steps;
use testlib_scenario::stop::{Stop, expect};

/// A list: its name, the caller, its role, the kind, and the expected numbers.
struct List(&'static str, u64, Role, Kind, &'static [u64]);

/// The parcels in each role, each kind as notary, and other kinds as bank and conveyancer.
const LISTS: &[List] = &[
    List(
        "parcels, citizen",
        2,
        Role::Citizen,
        Kind::Parcel,
        &[24, 26],
    ),
    List(
        "parcels, conveyancer",
        3,
        Role::Conveyancer,
        Kind::Parcel,
        &[24, 26],
    ),
    List("parcels, bank", 4, Role::Bank, Kind::Parcel, &[24, 26]),
    List(
        "parcels, certifiedSurveyor",
        6,
        Role::CertifiedSurveyor,
        Kind::Parcel,
        &[24, 26],
    ),
    List(
        "parcels, stateAdministrator",
        1,
        Role::StateAdministrator,
        Kind::Parcel,
        &[24, 26],
    ),
    List("parcels, notary", 5, Role::Notary, Kind::Parcel, &[24, 26]),
    List(
        "parties, notary",
        5,
        Role::Notary,
        Kind::Party,
        &[1, 2, 3, 4, 5, 6, 7],
    ),
    List("units, notary", 5, Role::Notary, Kind::Unit, &[9, 25]),
    List(
        "rrrs, notary",
        5,
        Role::Notary,
        Kind::Rrr,
        &[13, 16, 21, 27, 28, 29],
    ),
    List(
        "sources, notary",
        5,
        Role::Notary,
        Kind::Source,
        &[8, 14, 17, 19, 22],
    ),
    List(
        "mutations, notary",
        5,
        Role::Notary,
        Kind::Mutation,
        &[15, 18, 20, 23],
    ),
    List(
        "rrrs, bank",
        4,
        Role::Bank,
        Kind::Rrr,
        &[13, 16, 21, 27, 28, 29],
    ),
    List(
        "parties, conveyancer",
        5,
        Role::Conveyancer,
        Kind::Party,
        &[5],
    ),
    List(
        "mutations, conveyancer",
        5,
        Role::Conveyancer,
        Kind::Mutation,
        &[18, 20],
    ),
];

/// The time of the last step.
const LAST: i64 = 1017;

/// Checks if a keeper returns the expected list.
fn has_expected_reply<K: Keeper>(alloc: Global, keeper: &mut K, list: &List) -> Result<bool, Stop> {
    let caller = Caller {
        party: list.1,
        role: list.2,
    };
    let numbers = keeper.sight(alloc, caller, list.3, LAST)?;
    Ok(numbers.as_slice() == list.4)
}

/// Plays the scenario, and requests each list twice: first so that its SQL statements are planned, and then
/// with a line printed before it. Prints a line after the last.
fn expect_replies<K: Keeper>(rt: &impl Print, alloc: Global, keeper: &mut K) -> Result<(), Stop> {
    play_steps(alloc, keeper)?;
    for (place, list) in LISTS.iter().enumerate() {
        expect(has_expected_reply(alloc, keeper, list)?, list.0, place)?;
    }
    for (place, list) in LISTS.iter().enumerate() {
        mark(rt, list.0)?;
        expect(has_expected_reply(alloc, keeper, list)?, list.0, place)?;
    }
    mark_end(rt)
}

/// Tests the lists on whole tables.
pub fn lists_by_tables(rt: &impl Print, alloc: Global) -> Result<(), Stop> {
    let mut keeper = TableKeeper::new(new_tables(alloc)?);
    expect_replies(rt, alloc, &mut keeper)
}

/// Tests the lists with indexed queries.
pub fn lists_by_joins(rt: &impl Print, alloc: Global) -> Result<(), Stop> {
    let mut keeper = SqlKeeper::new(new_tables(alloc)?);
    expect_replies(rt, alloc, &mut keeper)
}
