//! The edges and corners of lists of rings.

ghost use Rattle.std.specs.Prelude.{◌≡◌, ◌<◌, ◌++◌, IfOk, length};
ghost use Rattle.land_shape.specs.Edges.{edges};
ghost use Rattle.land_shape.specs.Matching.{edges_of, places_of};
ghost use Rattle.land_shape.specs.Place.{ring_edges};
ghost use Rattle.land_shape.specs.Simple.{places};

use crate::edges::Edge;
use crate::outline::Ring;
use crate::plane::Point;
use std::alloc::{AllocError, Global};

/// Appends the edges of a ring.
fn with_ring(so_far: Vec<Edge>, points: &[Point]) -> Result<Vec<Edge>, AllocError>
    requires { 0 < length points.now }
    ensures { IfOk result (λ v. edges v.items ≡ edges so_far.items ++ ring_edges (places points.now)) }
{
    let mut all = so_far;
    let first = points[0];
    let mut last = first;
    for point in &points[1..] {
        all.push(Edge {
            from: last,
            to: *point,
        })?;
        last = *point;
    }
    all.push(Edge {
        from: last,
        to: first,
    })?;
    Ok(all)
}

/// Returns the edges of some rings.
pub(crate) fn edges_of(alloc: Global, rings: &[Ring]) -> Result<Vec<Edge>, AllocError>
    ensures { IfOk result (λ v. edges v.items ≡ edges_of rings.now) }
{
    let mut all = Vec::new(alloc);
    for ring in rings {
        all = with_ring(all, ring.points())?;
    }
    Ok(all)
}

/// Appends the corners of some rings.
fn with_corners(so_far: Vec<Point>, rings: &[Ring]) -> Result<Vec<Point>, AllocError>
    ensures { IfOk result (λ v. places v.items ≡ places so_far.items ++ places_of rings.now) }
{
    let mut all = so_far;
    for ring in rings {
        all.extend_from_slice(ring.points())?;
    }
    Ok(all)
}

/// Returns the corners of two lists of rings.
pub(crate) fn corners_of(
    alloc: Global,
    rings: &[Ring],
    others: &[Ring],
) -> Result<Vec<Point>, AllocError>
    ensures { IfOk result (λ v. places v.items ≡ places_of (rings.now ++ others.now)) }
{
    let corners = with_corners(Vec::new(alloc), rings)?;
    with_corners(corners, others)
}
