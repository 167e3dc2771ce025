//! Validates the decoded tables.
ghost use Rattle.std.specs.Prelude.{◌≡◌, ◌≤ℤ◌, true, Some, IfOk};
ghost use Rattle.land_core.specs.Numbers.{last_moment};
ghost use Rattle.land_tables.specs.TableContents.{IsEditionOf, IsValidated, IsLatest, is_one_edition};
ghost use Rattle.land_tables.specs.TableContents.{is_version};
ghost use Rattle.land_tables_history.specs.Intervals.{has_intervals};
ghost use Rattle.land_tables_history.specs.Moments.{last};

use crate::fault::AdoptFault;
use crate::table_contents::TableContents;
use land_core::limits::LAST_MOMENT;
use land_tables_history::intervals::has_intervals;
use land_tables_history::moment::Moment;
use land_tables_history::moments::last;
use land_tables_rows::edition::reading::Edition;
use land_tables_validity::valid_history::is_valid_history;
use std::alloc::Global;

/// Checks that there is exactly one edition, of this version. Errors: `NotOurs` (520) if there is not exactly
/// one; `Version` (523) if it is of another version.
pub(crate) fn check_edition(editions: &[Edition], version: u64) -> Result<(), AdoptFault>
    ensures { IsEditionOf version editions.now result }
{
    if !is_one_edition(editions) {
        return Err(AdoptFault::NotOurs);
    }
    if !is_version(editions, version) {
        return Err(AdoptFault::Version);
    }
    Ok(())
}

/// Applies the other tests in order, and returns the latest moment. Errors: `Interval` (521) if intervals are
/// not valid; `Unsound` (522) if the history is not; `NoMemory` (501).
pub(crate) fn validate(alloc: Global, found: &TableContents) -> Result<Moment, AdoptFault>
    ensures judged { IsValidated found.now result }
    ensures moment { IfOk result (λ latest. latest.stamp ≤ℤ last_moment) }
{
    if !has_intervals(alloc, &found.history, found.moments.as_slice())? {
        return Err(AdoptFault::Interval);
    }
    match latest(found.moments.as_slice()) {
        Ok(latest) => validate_history(alloc, found, latest),
        Err(fault) => Err(fault),
    }
}

/// Applies the last test to a history with valid intervals, and returns its latest moment. Errors: `Unsound`
/// (522) if the history is not valid; `NoMemory` (501).
fn validate_history(
    alloc: Global,
    found: &TableContents,
    latest: Moment,
) -> Result<Moment, AdoptFault>
    requires intervals { has_intervals found.now.moments found.now.history ≡ true }
    requires last { last found.now.moments ≡ Some latest }
    requires moment { latest.stamp ≤ℤ last_moment }
    ensures judged { IsValidated found.now result }
    ensures moment { IfOk result (λ latest. latest.stamp ≤ℤ last_moment) }
{
    if is_valid_history(alloc, &found.history, found.moments.as_slice())? {
        Ok(latest)
    } else {
        Err(AdoptFault::Unsound)
    }
}

/// Returns the latest moment. Errors: `Unsound` (522) if there is none, since a valid history has one;
/// `Store` (502) if it is after the last moment, since the store then returned data that was not written.
fn latest(moments: &[Moment]) -> Result<Moment, AdoptFault>
    ensures latest { IsLatest moments.now result }
    ensures moment { IfOk result (λ latest. latest.stamp ≤ℤ last_moment) }
{
    match last(moments) {
        Some(moment) if moment.stamp <= LAST_MOMENT => Ok(moment),
        Some(_) => Err(AdoptFault::Store),
        None => Err(AdoptFault::Unsound),
    }
}

fn is_one_edition(editions: &[Edition]) -> bool
    ensures { result ≡ is_one_edition editions.now }
{
    match editions {
        [edition] => edition.id == 1,
        _ => false,
    }
}

fn is_version(editions: &[Edition], version: u64) -> bool
    ensures { result ≡ is_version version editions.now }
{
    match editions {
        [edition, ..] => edition.version == version,
        [] => false,
    }
}
