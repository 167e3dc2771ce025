//! The limits of lodgings and of decisions.
use super::asked::Asked::{self, Discharge, Mortgage, Transfer};
use super::drafts::lodging;
use super::{ANNA, ANNAS, GARDEN, LOAN, SAM, is_good};
use land_core::act::{Act, Decision};
use std::alloc::Global;
use std::process::Abort;
use std::test::Fail;

/// A content, and whether its lodging is well formed.
struct Limit(Asked, bool);

fn lodges(alloc: Global, it: &Asked) -> Result<bool, Fail> {
    Ok(is_good(Act::Lodge(lodging(alloc, "T1", "Deed 2", it)?)))
}

fn assert_limits(rt: &impl Abort, alloc: Global, limits: &[Limit]) -> Result<(), Fail> {
    for (place, limit) in limits.iter().enumerate() {
        assert!(rt; lodges(alloc, &limit.0)? == limit.1, "row {place}");
    }
    Ok(())
}

const TRANSFERS: &[Limit] = &[
    Limit(Transfer(GARDEN, ANNAS, SAM, 1, 4), true),
    Limit(Transfer(0, ANNAS, SAM, 1, 4), false),
    Limit(Transfer(GARDEN, 0, SAM, 1, 4), false),
    Limit(Transfer(GARDEN, ANNAS, 0, 1, 4), false),
    Limit(Transfer(1, 1, 1, 1, 1_000_000_000), true),
    Limit(
        Transfer(1_000_000_000, 1_000_000_000, 1_000_000_000, 1, 1),
        true,
    ),
    Limit(Transfer(1_000_000_001, ANNAS, SAM, 1, 4), false),
    Limit(Transfer(GARDEN, 1_000_000_001, SAM, 1, 4), false),
    Limit(Transfer(GARDEN, ANNAS, 1_000_000_001, 1, 4), false),
];

#[test]
fn transfers_name_a_unit_a_right_and_a_receiver_by_numbers(rt: HostRuntime) -> Result<(), Fail> {
    assert_limits(&rt, rt.alloc(), TRANSFERS)
}

const MORTGAGES: &[Limit] = &[
    Limit(Mortgage(0, ANNA, 100, "EUR"), false),
    Limit(Mortgage(1, ANNA, 100, "EUR"), true),
    Limit(Mortgage(1_000_000_000, ANNA, 100, "EUR"), true),
    Limit(Mortgage(1_000_000_001, ANNA, 100, "EUR"), false),
    Limit(Mortgage(GARDEN, 0, 100, "EUR"), false),
    Limit(Mortgage(GARDEN, 1, 100, "EUR"), true),
    Limit(Mortgage(GARDEN, 1_000_000_000, 100, "EUR"), true),
    Limit(Mortgage(GARDEN, 1_000_000_001, 100, "EUR"), false),
    Limit(Mortgage(GARDEN, ANNA, 0, "EUR"), false),
    Limit(Mortgage(GARDEN, ANNA, 1, "EUR"), true),
    Limit(Mortgage(GARDEN, ANNA, 1_000_000_000_000_000, "EUR"), true),
    Limit(Mortgage(GARDEN, ANNA, 1_000_000_000_000_001, "EUR"), false),
    Limit(
        Mortgage(GARDEN, ANNA, 18_446_744_073_709_551_615, "EUR"),
        false,
    ),
];

#[test]
fn mortgages_are_of_an_amount(rt: HostRuntime) -> Result<(), Fail> {
    assert_limits(&rt, rt.alloc(), MORTGAGES)
}

const CURRENCIES: &[Limit] = &[
    Limit(Mortgage(GARDEN, ANNA, 100, "AZM"), true),
    Limit(Mortgage(GARDEN, ANNA, 100, ""), false),
    Limit(Mortgage(GARDEN, ANNA, 100, "EU"), false),
    Limit(Mortgage(GARDEN, ANNA, 100, "EURO"), false),
    Limit(Mortgage(GARDEN, ANNA, 100, "eur"), false),
    Limit(Mortgage(GARDEN, ANNA, 100, "EUr"), false),
    Limit(Mortgage(GARDEN, ANNA, 100, "E1R"), false),
    Limit(Mortgage(GARDEN, ANNA, 100, "@UR"), false),
    Limit(Mortgage(GARDEN, ANNA, 100, "EU["), false),
    Limit(Mortgage(GARDEN, ANNA, 100, "\u{C9}R"), false),
    Limit(Mortgage(GARDEN, ANNA, 100, "EU "), false),
];

#[test]
fn currencies_are_three_letters(rt: HostRuntime) -> Result<(), Fail> {
    assert_limits(&rt, rt.alloc(), CURRENCIES)
}

const DISCHARGES: &[Limit] = &[
    Limit(Discharge(0, LOAN), false),
    Limit(Discharge(1, LOAN), true),
    Limit(Discharge(1_000_000_000, LOAN), true),
    Limit(Discharge(1_000_000_001, LOAN), false),
    Limit(Discharge(GARDEN, 0), false),
    Limit(Discharge(GARDEN, 1), true),
    Limit(Discharge(GARDEN, 1_000_000_000), true),
    Limit(Discharge(GARDEN, 1_000_000_001), false),
];

#[test]
fn discharges_name_a_unit_and_a_mortgage_by_numbers(rt: HostRuntime) -> Result<(), Fail> {
    assert_limits(&rt, rt.alloc(), DISCHARGES)
}

/// Returns whether the approval and the refusal of this mutation number are well formed.
fn decides(mutation: u64) -> (bool, bool) {
    let it = Decision { mutation };
    (is_good(Act::Approve(it)), is_good(Act::Refuse(it)))
}

const DECISIONS: &[(u64, bool)] = &[
    (0, false),
    (1, true),
    (1_000_000_000, true),
    (1_000_000_001, false),
];

#[test]
fn decisions_name_a_mutation_by_a_number(rt: HostRuntime) {
    for row in DECISIONS {
        assert!(&rt; decides(row.0) == (row.1, row.1), "number {}", row.0);
    }
}
