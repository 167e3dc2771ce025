//! Lists of rings that have the same ground.

ghost use Rattle.std.specs.Prelude.{◌↔◌, IfOk, IsTrue};
ghost use Rattle.land_shape.specs.Matching.{Match};

use crate::grounds::{corners_of, edges_of};
use crate::outline::Ring;
use crate::sorting::{have_same_edges, sorted_points};
use crate::walking::pieces_one_way;
use std::alloc::{AllocError, Global};

/// Checks if two lists of rings have the same ground: with every edge cut at every corner of any of the
/// rings, each edge occurs in both equally often, minus the occurrences of the reversed edge.
pub fn chain_matches(alloc: Global, rings: &[Ring], others: &[Ring]) -> Result<bool, AllocError>
    ensures { IfOk result (λ yes. IsTrue yes ↔ Match rings.now others.now) }
{
    let corners = sorted_points(corners_of(alloc, rings, others)?);
    let ours = edges_of(alloc, rings)?;
    let theirs = edges_of(alloc, others)?;
    let forth = pieces_one_way(alloc, &corners, &ours, &theirs)?;
    let back = pieces_one_way(alloc, &corners, &theirs, &ours)?;
    Ok(have_same_edges(forth, back))
}
