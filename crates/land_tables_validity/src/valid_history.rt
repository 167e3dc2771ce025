//! Decides whether a history is valid.
ghost use Rattle.std.specs.Prelude.{◌≡◌, ◌↔◌, ◌&&◌, true, IfOk};
ghost use Rattle.land_tables_history.specs.Intervals.{has_intervals};
ghost use Rattle.land_tables_history.specs.ValidHistory.{IsValidHistory};
ghost use Rattle.land_tables_validity.specs.Conditions.{HaveNoDuplicates, HaveValidSums, RefsExist};
ghost use Rattle.land_tables_validity.specs.CoverageSpans.{are_in_range};

use crate::administrator::has_administrators;
use crate::bare_units::have_parcels_and_owners;
use crate::duplicate_rights::have_no_duplicate_rights;
use crate::entries::entries_refs_exist;
use crate::groups::are_groups_whole;
use crate::mandates::mandates_refs_exist;
use crate::members::members_refs_exist;
use crate::moments::are_moments;
use crate::mutations::mutations_refs_exist;
use crate::namings::match_mutation_units;
use crate::number_range::are_numbers_in_range;
use crate::parcels::parcels_refs_exist;
use crate::roles::roles_refs_exist;
use crate::unique_references::are_references_unique;
use crate::units::are_units_whole;
use land_tables_history::history::History;
use land_tables_history::moment::Moment;
use std::alloc::{AllocError, Global};

/// Returns whether a history is valid: at each commit the register is sound and its mutations refer to the
/// units that they are listed with; the next number never decreases; stamps are distinct; and there is a
/// commit. Each condition is checked for all commits in one sort and one pass, because a check of each
/// version of the register would take quadratic time. Requires valid intervals and stamps before `NEVER`.
/// Returns an error only if it is out of memory.
pub fn is_valid_history(
    alloc: Global,
    history: &History,
    moments: &[Moment],
) -> Result<bool, AllocError>
    requires intervals { has_intervals moments.now history.now ≡ true }
    requires in_time { are_in_range moments.now ≡ true }
    ensures { IfOk result (λ it. (it ≡ true) ↔ IsValidHistory moments.now history.now) }
{
    if !are_moments(alloc, moments)? {
        return Ok(false);
    }
    // References first: under a dangling number the later sweeps would walk the same rows again and again.
    if !refs_exist(alloc, history, moments)? {
        return Ok(false);
    }
    let number_range = are_numbers_in_range(alloc, history, moments)?;
    let wholes = have_valid_sums(alloc, history, moments)?;
    let once = have_no_duplicates(alloc, history, moments)?;
    let named = match_mutation_units(alloc, history, moments)?;
    Ok(are_four(number_range, wholes, once, named))
}

/// Returns whether each reference is to an existing record of the right kind, throughout the lifespan of the
/// referring record.
fn refs_exist(alloc: Global, history: &History, moments: &[Moment]) -> Result<bool, AllocError>
    requires intervals { has_intervals moments.now history.now ≡ true }
    requires in_time { are_in_range moments.now ≡ true }
    ensures { IfOk result (λ it. (it ≡ true) ↔ RefsExist moments.now history.now) }
{
    let roles = roles_refs_exist(alloc, history, moments)?;
    let members = members_refs_exist(alloc, history, moments)?;
    let parcels = parcels_refs_exist(alloc, history, moments)?;
    let entries = entries_refs_exist(alloc, history, moments)?;
    let mutations = mutations_refs_exist(alloc, history, moments)?;
    let mandates = mandates_refs_exist(alloc, history, moments)?;
    Ok(are_all(roles, members, parcels, entries, mutations, mandates))
}

/// Returns whether units are within limits and have a parcel and an owner, shares sum to one, and there is an
/// administrator.
fn have_valid_sums(alloc: Global, history: &History, moments: &[Moment]) -> Result<bool, AllocError>
    requires intervals { has_intervals moments.now history.now ≡ true }
    requires in_time { are_in_range moments.now ≡ true }
    ensures { IfOk result (λ it. (it ≡ true) ↔ HaveValidSums moments.now history.now) }
{
    let units = are_units_whole(alloc, history, moments)?;
    let bare_units = have_parcels_and_owners(alloc, history, moments)?;
    let groups = are_groups_whole(alloc, history, moments)?;
    let administrator = has_administrators(alloc, history, moments)?;
    Ok(are_four(units, bare_units, groups, administrator))
}

/// Returns whether no entry and no reference of a lodger is duplicated.
fn have_no_duplicates(
    alloc: Global,
    history: &History,
    moments: &[Moment],
) -> Result<bool, AllocError>
    requires { has_intervals moments.now history.now ≡ true }
    ensures { IfOk result (λ it. (it ≡ true) ↔ HaveNoDuplicates moments.now history.now) }
{
    let entries = have_no_duplicate_rights(alloc, history, moments)?;
    let references = are_references_unique(alloc, history, moments)?;
    Ok(are_both(entries, references))
}

fn are_both(first: bool, second: bool) -> bool
    ensures { result ≡ (first && second) }
{
    first && second
}

fn are_four(a: bool, b: bool, c: bool, d: bool) -> bool
    ensures { result ≡ (a && b && c && d) }
{
    a && b && c && d
}

fn are_all(one: bool, two: bool, three: bool, four: bool, five: bool, six: bool) -> bool
    ensures { result ≡ (one && two && three && four && five && six) }
{
    one && two && three && four && five && six
}
