//! Checks the lifespans of a history.
ghost use Rattle.std.specs.List.{list_all};
ghost use Rattle.std.specs.List.Sorted.{IsSorted};
ghost use Rattle.std.specs.Ordering.{int_cmp};
ghost use Rattle.std.specs.Prelude.{◌≡◌, IfOk};
ghost use Rattle.land_tables_history.specs.Intervals.{are_intervals_of, has_intervals, has_intervals_of};
ghost use Rattle.land_tables_history.specs.Intervals.{is_interval_of};

use crate::history::History;
use crate::keyed::Keyed;
use crate::moment::Moment;
use crate::spans::are_apart;
use crate::stamps::{is_among, stamps_of};
use crate::version::{NEVER, Version};
use std::alloc::{AllocError, Global};

/// Returns whether each lifespan starts at a stamp, ends after it, at a stamp or never, and no two of one key
/// overlap. Returns an error only if it is out of memory.
pub fn has_intervals(
    alloc: Global,
    history: &History,
    moments: &[Moment],
) -> Result<bool, AllocError>
    ensures { IfOk result (λ it. it ≡ has_intervals moments.now history.now) }
{
    let stamps = stamps_of(alloc, moments)?;
    has_intervals_of(alloc, history, stamps.as_slice())
}

/// Checks the same with sorted stamps.
fn has_intervals_of(alloc: Global, history: &History, stamps: &[i64]) -> Result<bool, AllocError>
    requires { IsSorted int_cmp stamps.now }
    ensures { IfOk result (λ it. it ≡ has_intervals_of stamps.now history.now) }
{
    Ok(
        are_intervals(alloc, history.parties.as_slice(), stamps)?
            && are_intervals(alloc, history.roles.as_slice(), stamps)?
            && are_intervals(alloc, history.members.as_slice(), stamps)?
            && are_intervals(alloc, history.units.as_slice(), stamps)?
            && are_intervals(alloc, history.parcels.as_slice(), stamps)?
            && are_intervals(alloc, history.rrrs.as_slice(), stamps)?
            && are_intervals(alloc, history.sources.as_slice(), stamps)?
            && are_intervals(alloc, history.mutations.as_slice(), stamps)?
            && are_intervals(alloc, history.namings.as_slice(), stamps)?
            && are_intervals(alloc, history.mandates.as_slice(), stamps)?,
    )
}

/// Checks the same for the versions of one kind.
fn are_intervals<X: Keyed>(
    alloc: Global,
    versions: &[Version<X>],
    stamps: &[i64],
) -> Result<bool, AllocError>
    requires { IsSorted int_cmp stamps.now }
    ensures { IfOk result (λ it. it ≡ are_intervals_of X.Keyed.same_key stamps.now versions.now) }
{
    Ok(all_intervals_of(versions, stamps) && are_apart(alloc, versions)?)
}

fn all_intervals_of<X>(versions: &[Version<X>], stamps: &[i64]) -> bool
    requires { IsSorted int_cmp stamps.now }
    ensures { result ≡ list_all (is_interval_of stamps.now) versions.now }
{
    for version in versions {
        if !is_interval_of(version, stamps) {
            return false;
        }
    }
    true
}

fn is_interval_of<X>(version: &Version<X>, stamps: &[i64]) -> bool
    requires { IsSorted int_cmp stamps.now }
    ensures { result ≡ is_interval_of stamps.now version.now }
{
    version.since < version.until
        && is_among(stamps, version.since)
        && (version.until == NEVER || is_among(stamps, version.until))
}
