//! Compares the ground of outlines: whether new outlines cover exactly what old ones cover.
ghost use Rattle.std.specs.Prelude.{◌≡◌, true, IfOk};
ghost use Rattle.std.specs.List.{list_all};
ghost use Rattle.land_acts.specs.Mutations.Areas.{outlines_at};
ghost use Rattle.land_acts.specs.Mutations.Grounds.{are_same_ground};
ghost use Rattle.land_acts.specs.Mutations.Subdividing.{all_parts, outlines_of};
ghost use Rattle.land_shape.specs.Matching.{runs_counterclockwise};

use crate::mutations::planning::Slice;
use land_core::sequence::Sequence;
use land_core::subdivision::Subdivision;
use land_shape::{Ring, chain_matches};
use std::alloc::{AllocError, Global};

/// Returns the outlines of the parcels that exist at these numbers.
pub(crate) fn outlines_at(
    alloc: Global,
    slice: &Slice,
    numbers: &[u64],
) -> Result<Sequence<Ring>, AllocError>
    ensures { IfOk result (λ rings. rings ≡ outlines_at slice.now numbers.now) }
{
    let mut rings = Sequence::new(alloc);
    for number in numbers {
        if let Some(parcel) = slice.parcels.get(*number) {
            rings.push(Ring::copy(&parcel.outline)?)?;
        }
    }
    Ok(rings)
}

/// Returns the outlines of the parts of a subdivision.
pub(crate) fn outlines_of_parts(
    alloc: Global,
    it: &Subdivision,
) -> Result<Sequence<Ring>, AllocError>
    ensures { IfOk result (λ rings. rings ≡ outlines_of (all_parts it.now)) }
{
    let mut rings = Sequence::of_one(alloc, Ring::copy(&it.first.outline)?)?;
    for part in it.rest.as_slice() {
        rings.push(Ring::copy(&part.outline)?)?;
    }
    Ok(rings)
}

/// Returns whether new outlines cover exactly the ground of the old ones. The only error is out of memory.
pub(crate) fn are_same_ground(alloc: Global, old: &[Ring], new: &[Ring]) -> Result<bool, AllocError>
    ensures { IfOk result (λ same. same ≡ are_same_ground old.now new.now) }
{
    run_counterclockwise(old);
    run_counterclockwise(new);
    chain_matches(alloc, old, new)
}

/// Proves that all outlines run counterclockwise: each ring has this invariant.
fn run_counterclockwise(rings: &[Ring])
    ensures { list_all runs_counterclockwise rings.now ≡ true }
{
    for ring in rings {
        ring.runs_counterclockwise();
    }
}
