//! The pieces of edges, by walks from left to right over sorted corners.

ghost use Rattle.std.specs.Prelude.{◌≡◌, ◌≤◌, ◌++◌, false, true, IfOk, IsTrue, drop, length, map, take};
ghost use Rattle.std.specs.List.{AllByRecursion};
ghost use Rattle.land_shape.specs.Edges.{edges};
ghost use Rattle.land_shape.specs.Matching.{reversed_edge};
ghost use Rattle.land_shape.specs.Simple.{place_of, places};
ghost use Rattle.land_shape.specs.Walks.{IsAscendingBy, is_before, walk, walks};

use crate::edges::{Edge, lies_inside};
use crate::plane::Point;
use std::alloc::{AllocError, Global};

/// Checks if a point comes before another.
fn is_before(a: Point, b: Point) -> bool
    ensures { result ≡ is_before (place_of a) (place_of b) }
{
    a < b
}

/// Returns the number of corners before a point.
fn count_before(corners: &[Point], point: Point) -> usize
    requires { IsAscendingBy is_before (places corners.now) }
    ensures within { result ≤ length corners.now }
    ensures before { AllByRecursion (λ p. is_before p (place_of point) ≡ true)
        (take result (places corners.now)) }
    ensures others { AllByRecursion (λ p. is_before p (place_of point) ≡ false)
        (drop result (places corners.now)) }
{
    corners.partition_point(|corner| is_before(*corner, point))
}

/// Returns the corners that may lie inside an edge.
fn corners_near(corners: &[Point], edge: Edge) -> &[Point]
    requires rise { IsAscendingBy is_before (places corners.now) }
    requires up { IsTrue (is_before (place_of edge.from) (place_of edge.to)) }
    ensures { walk (place_of edge.from) (place_of edge.to) (places result.now)
        ≡ walk (place_of edge.from) (place_of edge.to) (places corners.now) }
{
    let start = count_before(corners, edge.from);
    let rest = &corners[start..];
    let end = count_before(rest, edge.to);
    &rest[..end]
}

/// Appends the pieces of an edge that leads to a later point: from each corner that lies inside it to the
/// next.
fn with_walk(so_far: Vec<Edge>, corners: &[Point], edge: Edge) -> Result<Vec<Edge>, AllocError>
    ensures { IfOk result (λ v. edges v.items ≡ edges so_far.items
        ++ walk (place_of edge.from) (place_of edge.to) (places corners.now)) }
{
    let mut all = so_far;
    let mut last = edge.from;
    for corner in corners {
        let left = Edge {
            from: last,
            to: edge.to,
        };
        if lies_inside(*corner, left) {
            all.push(Edge {
                from: last,
                to: *corner,
            })?;
            last = *corner;
        }
    }
    all.push(Edge {
        from: last,
        to: edge.to,
    })?;
    Ok(all)
}

/// Appends the pieces of those edges of a list that lead to a later point.
fn with_walks(so_far: Vec<Edge>, corners: &[Point], list: &[Edge]) -> Result<Vec<Edge>, AllocError>
    requires { IsAscendingBy is_before (places corners.now) }
    ensures { IfOk result (λ v. edges v.items ≡ edges so_far.items
        ++ walks (places corners.now) (edges list.now)) }
{
    let mut all = so_far;
    for edge in list {
        if is_before(edge.from, edge.to) {
            all = with_walk(all, corners_near(corners, *edge), *edge)?;
        }
    }
    Ok(all)
}

/// Returns the reversed edges.
fn reversed_edges(alloc: Global, list: &[Edge]) -> Result<Vec<Edge>, AllocError>
    ensures { IfOk result (λ v. edges v.items ≡ map reversed_edge (edges list.now)) }
{
    let mut all = Vec::new(alloc);
    for edge in list {
        all.push(edge.reversed_edge())?;
    }
    Ok(all)
}

/// Returns the pieces of some edges, and of other edges reversed, that lead from left to right.
pub(crate) fn pieces_one_way(
    alloc: Global,
    corners: &[Point],
    ours: &[Edge],
    theirs: &[Edge],
) -> Result<Vec<Edge>, AllocError>
    requires { IsAscendingBy is_before (places corners.now) }
    ensures { IfOk result (λ v. edges v.items ≡ walks (places corners.now)
        (edges ours.now ++ map reversed_edge (edges theirs.now))) }
{
    let all = with_walks(Vec::new(alloc), corners, ours)?;
    let back = reversed_edges(alloc, theirs)?;
    with_walks(all, corners, &back)
}
