//! Sorted stamps.
ghost use Rattle.std.specs.List.Sorted.{IsPermutation, IsSorted};
ghost use Rattle.std.specs.Ordering.{int_cmp};
ghost use Rattle.std.specs.Prelude.{◌≡◌, IfOk, map as map_list};
ghost use Rattle.land_tables_history.specs.Intervals.{is_stamp_among};

use crate::moment::Moment;
use std::alloc::{AllocError, Global};

/// Returns the stamps of commits, sorted.
pub(crate) fn stamps_of(alloc: Global, moments: &[Moment]) -> Result<Vec<i64>, AllocError>
    ensures same { IfOk result (λ it. IsPermutation (map_list (λ m. m.stamp) moments.now) it.items) }
    ensures sorted { IfOk result (λ it. IsSorted int_cmp it.items) }
{
    let mut stamps = copy_stamps(alloc, moments)?;
    stamps.sort_unstable();
    Ok(stamps)
}

fn copy_stamps(alloc: Global, moments: &[Moment]) -> Result<Vec<i64>, AllocError>
    ensures { IfOk result (λ it. it.items ≡ map_list (λ m. m.stamp) moments.now) }
{
    let mut stamps = Vec::new(alloc);
    for moment in moments {
        stamps.push(moment.stamp)?;
    }
    Ok(stamps)
}

/// Returns whether a moment is among sorted stamps, by binary search.
pub(crate) fn is_among(stamps: &[i64], at: i64) -> bool
    requires { IsSorted int_cmp stamps.now }
    ensures { result ≡ is_stamp_among stamps.now at }
{
    stamps.binary_search(&at).is_ok()
}
