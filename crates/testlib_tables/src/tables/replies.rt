//! Replies from tables, compared with those of the plain keeper.
use crate::cases::run_scenario::tables_after_scenario;
use land_core::ask::{Ask, Request};
use land_core::caller::Caller;
use land_core::kind::Kind;
use land_core::role::Role;
use land_keep::keeper::Keeper;
use land_keep::machine::answer;
use land_keep::reply::Reply;
use land_tables::table_keeper::TableKeeper;
use std::alloc::Global;
use testlib_scenario::run_scenario::plain;
use testlib_scenario::stop::{Stop, expect};

/// Callers, by party and role.
const CALLERS: &[(u64, Role)] = &[
    (1, Role::StateAdministrator),
    (2, Role::Citizen),
    (3, Role::Citizen),
    (4, Role::Bank),
    (5, Role::Notary),
    (6, Role::Citizen),
    (6, Role::CertifiedSurveyor),
    (9, Role::Citizen),
];

const KINDS: &[Kind] = &[
    Kind::Party,
    Kind::Unit,
    Kind::Parcel,
    Kind::Rrr,
    Kind::Source,
    Kind::Mutation,
];

/// Requested times: none, past ones, and one in the future.
const MOMENTS: &[Option<i64>] = &[None, Some(1009), Some(1011), Some(1015), Some(5000)];

/// Checks if a reply is an out-of-memory error.
fn is_out_of_memory(reply: &Reply) -> bool {
    match reply {
        Reply::Store(number) => *number == 501,
        _ => false,
    }
}

/// Checks if a reply is this list.
fn lists(reply: &Reply, numbers: &[u64]) -> bool {
    match reply {
        Reply::Numbers(found) => found.as_slice() == numbers,
        _ => false,
    }
}

/// Checks if a reply is a denial by this rule.
fn denies(reply: &Reply, rule: u8) -> bool {
    match reply {
        Reply::Denied(found) => *found == rule,
        _ => false,
    }
}

/// Checks if a reply is this fault of the request.
fn has_fault(reply: &Reply, number: u16) -> bool {
    match reply {
        Reply::Fault(found) => *found == number,
        _ => false,
    }
}

/// Checks if the reply to a list equals another.
fn is_alike(reply: &Reply, other: &Reply) -> bool {
    match other {
        Reply::Numbers(numbers) => lists(reply, numbers.as_slice()),
        Reply::Denied(rule) => denies(reply, *rule),
        Reply::Fault(number) => has_fault(reply, *number),
        _ => false,
    }
}

/// Checks if two replies are equal. Running out of memory stops the test.
fn compare_or_stop(reply: &Reply, other: &Reply) -> Result<bool, Stop> {
    if is_out_of_memory(reply) || is_out_of_memory(other) {
        Err(Stop::Memory)
    } else {
        Ok(is_alike(reply, other))
    }
}

/// Checks if two keepers give a caller the same reply for a kind at a time.
fn same_reply<K: Keeper, L: Keeper>(
    alloc: Global,
    keeper: &mut K,
    other: &mut L,
    request: &Request,
) -> Result<bool, Stop> {
    if !request.is_well_formed() {
        return Ok(false);
    }
    let reply = answer(alloc, keeper, 1000, request);
    compare_or_stop(&reply, &answer(alloc, other, 1000, request))
}

/// Checks if two keepers give a caller the same replies for all kinds at a time.
fn same_for_kinds<K: Keeper, L: Keeper>(
    alloc: Global,
    keeper: &mut K,
    other: &mut L,
    caller: Caller,
    at: Option<i64>,
) -> Result<bool, Stop> {
    for kind in KINDS {
        let ask = Ask::List { kind: *kind, at };
        if !same_reply(alloc, keeper, other, &Request { caller, ask })? {
            return Ok(false);
        }
    }
    Ok(true)
}

/// Checks if two keepers give a caller the same replies at all times.
fn same_for_caller<K: Keeper, L: Keeper>(
    alloc: Global,
    keeper: &mut K,
    other: &mut L,
    caller: &(u64, Role),
) -> Result<bool, Stop> {
    let caller = Caller {
        party: caller.0,
        role: caller.1,
    };
    for at in MOMENTS {
        if !same_for_kinds(alloc, keeper, other, caller, *at)? {
            return Ok(false);
        }
    }
    Ok(true)
}

/// Fails if some caller gets different replies.
fn check_same_for_callers<K: Keeper, L: Keeper>(
    alloc: Global,
    keeper: &mut K,
    other: &mut L,
) -> Result<(), Stop> {
    for (place, caller) in CALLERS.iter().enumerate() {
        expect(
            same_for_caller(alloc, keeper, other, caller)?,
            "caller",
            place,
        )?;
    }
    Ok(())
}

/// Callers get the same replies from tables as from the plain keeper.
pub fn callers_are_told_what_the_plain_keeper_tells(alloc: Global) -> Result<(), Stop> {
    let mut plain = plain(alloc)?;
    let mut keeper = TableKeeper::new(tables_after_scenario(alloc)?);
    check_same_for_callers(alloc, &mut keeper, &mut plain)
}
