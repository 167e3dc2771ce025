//! Checks that numbers are in range.
ghost use Rattle.std.specs.List.{list_all};
ghost use Rattle.std.specs.List.Sorted.{IsSorted};
ghost use Rattle.std.specs.Prelude.{◌≡◌, ◌↔◌, true, IfOk};
ghost use Rattle.land_core.specs.Soundness.{has_rank_out_of_range, has_unused_number, exceeds_last_number};
ghost use Rattle.land_tables_history.specs.Intervals.{has_intervals};
ghost use Rattle.land_tables_history.specs.ValidHistory.{are_moments};
ghost use Rattle.land_tables_validity.specs.Chains.{is_increasing, stamp_cmp};
ghost use Rattle.land_tables_validity.specs.Never.{Never};
ghost use Rattle.land_tables_validity.specs.NumbersInUse.{are_all_in_range, are_numbers_left};
ghost use Rattle.land_tables_validity.specs.NumbersInUse.{has_number_in_range};
ghost use Rattle.land_tables_validity.specs.NumbersInUse.{has_numbers_in_range};
ghost use Rattle.land_tables_validity.specs.NumbersInUse.{is_number_in_use, is_rank_in_range, next_since};
ghost use Rattle.land_tables_validity.specs.NumbersInUse.{passes_since};

use crate::moments::in_order;
use land_core::limits::LAST_NEXT;
use land_core::rrr::RrrRecord;
use land_tables_history::history::History;
use land_tables_history::moment::Moment;
use land_tables_history::version::Version;
use std::alloc::{AllocError, Global};

/// Returns whether numbers are left, and all numbers of records and ranks of mortgages are in range, at each
/// commit. The next number never decreases, so each version needs only one check, at its start. Returns an
/// error only if it is out of memory.
pub(crate) fn are_numbers_in_range(
    alloc: Global,
    history: &History,
    moments: &[Moment],
) -> Result<bool, AllocError>
    requires intervals { has_intervals moments.now history.now ≡ true }
    requires moments { are_moments moments.now ≡ true }
    ensures { IfOk result (λ it. (it ≡ true) ↔ (Never exceeds_last_number moments.now history.now
        × Never has_unused_number moments.now history.now
        × Never has_rank_out_of_range moments.now history.now)) }
{
    let sorted = in_order(alloc, moments)?;
    Ok(are_all_in_range(history, sorted.as_slice()))
}

fn are_all_in_range(history: &History, moments: &[Moment]) -> bool
    requires sorted { IsSorted stamp_cmp moments.now }
    requires up { is_increasing moments.now ≡ true }
    ensures { result ≡ are_all_in_range moments.now history.now }
{
    are_numbers_left(moments)
        && are_used(history.parties.as_slice(), moments)
        && are_used(history.units.as_slice(), moments)
        && are_used(history.parcels.as_slice(), moments)
        && are_entries_in_range(history.rrrs.as_slice(), moments)
        && are_used(history.sources.as_slice(), moments)
        && are_used(history.mutations.as_slice(), moments)
}

fn are_numbers_left(moments: &[Moment]) -> bool
    ensures { result ≡ are_numbers_left moments.now }
{
    for moment in moments {
        if LAST_NEXT < moment.next {
            return false;
        }
    }
    true
}

/// Returns whether the numbers of records are in range when their versions start.
fn are_used<V>(versions: &[Version<(u64, V)>], moments: &[Moment]) -> bool
    requires sorted { IsSorted stamp_cmp moments.now }
    requires up { is_increasing moments.now ≡ true }
    ensures { result ≡ list_all (passes_since has_number_in_range moments.now) versions.now }
{
    for version in versions {
        if !is_used(version.what.0, next_since(moments, version.since)) {
            return false;
        }
    }
    true
}

/// Returns the same for entries, and for the ranks of mortgages.
fn are_entries_in_range(entries: &[Version<(u64, RrrRecord)>], moments: &[Moment]) -> bool
    requires sorted { IsSorted stamp_cmp moments.now }
    requires up { is_increasing moments.now ≡ true }
    ensures { result ≡ list_all (passes_since has_numbers_in_range moments.now) entries.now }
{
    for entry in entries {
        let next = next_since(moments, entry.since);
        if !(is_used(entry.what.0, next) && is_rank_in_range(entry.what.1.class.rank(), next)) {
            return false;
        }
    }
    true
}

/// Returns whether a number is at least 1, and below the next number.
fn is_used(number: u64, next: u64) -> bool
    ensures { result ≡ is_number_in_use number next }
{
    0 < number && number < next
}

/// Returns the same for a rank, if there is one.
fn is_rank_in_range(rank: Option<u64>, next: u64) -> bool
    ensures { result ≡ is_rank_in_range rank next }
{
    match rank {
        Some(rank) => is_used(rank, next),
        None => true,
    }
}

/// Returns the next number at a stamp, by binary search in sorted commits, or 0 if it is not the stamp of a
/// commit.
fn next_since(moments: &[Moment], since: i64) -> u64
    requires sorted { IsSorted stamp_cmp moments.now }
    requires up { is_increasing moments.now ≡ true }
    ensures { result ≡ next_since moments.now since }
{
    match moments.binary_search_by_key(&since, |moment| moment.stamp) {
        Ok(at) => moments[at].next,
        Err(_) => 0,
    }
}
