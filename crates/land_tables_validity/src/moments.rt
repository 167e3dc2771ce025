//! Checks the commits of a history.
ghost use Rattle.std.specs.List.Sorted.{IsPermutation, IsSorted};
ghost use Rattle.std.specs.Prelude.{◌≡◌, IfOk};
ghost use Rattle.land_tables_history.specs.ValidHistory.{are_moments};
ghost use Rattle.land_tables_validity.specs.Chains.{precedes, precedes_first, is_increasing, is_chain};
ghost use Rattle.land_tables_validity.specs.Chains.{stamp_cmp};

use land_tables_history::moment::Moment;
use std::alloc::{AllocError, Global};

/// Returns whether there is a commit, stamps are distinct, and the next number never decreases. Sorts the
/// commits, so that only neighbours need comparison. Returns an error only if it is out of memory.
pub(crate) fn are_moments(alloc: Global, moments: &[Moment]) -> Result<bool, AllocError>
    ensures { IfOk result (λ it. it ≡ are_moments moments.now) }
{
    let sorted = in_order(alloc, moments)?;
    Ok(is_chain(sorted.as_slice()))
}

/// Returns the commits, sorted by stamp.
pub(crate) fn in_order(alloc: Global, moments: &[Moment]) -> Result<Vec<Moment>, AllocError>
    ensures same { IfOk result (λ it. IsPermutation moments.now it.items) }
    ensures sorted { IfOk result (λ it. IsSorted stamp_cmp it.items) }
{
    let mut sorted = copy_moments(alloc, moments)?;
    sorted.sort_unstable_by_key(|moment| moment.stamp);
    Ok(sorted)
}

fn copy_moments(alloc: Global, moments: &[Moment]) -> Result<Vec<Moment>, AllocError>
    ensures { IfOk result (λ it. it.items ≡ moments.now) }
{
    let mut list = Vec::new(alloc);
    for moment in moments {
        list.push(*moment)?;
    }
    Ok(list)
}

/// Returns whether there is a commit, and each may precede the next one.
fn is_chain(moments: &[Moment]) -> bool
    ensures { result ≡ is_chain moments.now }
{
    0 < moments.len() && is_increasing(moments)
}

/// Returns whether each commit may precede the next one.
fn is_increasing(moments: &[Moment]) -> bool
    ensures { result ≡ is_increasing moments.now }
{
    let mut rest = moments;
    while let [moment, later @ ..] = rest {
        if !precedes_first(moment, later) {
            return false;
        }
        rest = later;
    }
    true
}

fn precedes_first(moment: &Moment, later: &[Moment]) -> bool
    ensures { result ≡ precedes_first moment.now later.now }
{
    match later {
        [next, ..] => precedes(moment, next),
        [] => true,
    }
}

/// Returns whether a commit has an earlier stamp than another, and not a greater next number.
fn precedes(moment: &Moment, next: &Moment) -> bool
    ensures { result ≡ precedes moment.now next.now }
{
    moment.stamp < next.stamp && moment.next <= next.next
}
