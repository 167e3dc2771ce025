//! Edges, and the points that lie on them.

ghost use Rattle.std.specs.Prelude.{◌≡◌};
ghost use Rattle.land_shape.specs.Edges.{edge_of};
ghost use Rattle.land_shape.specs.Matching.{is_between, is_on_line, is_in_box, lies_on, lies_inside};
ghost use Rattle.land_shape.specs.Matching.{reversed_edge};
ghost use Rattle.land_shape.specs.Place.{is_same_place};
ghost use Rattle.land_shape.specs.Simple.{place_of};

use crate::plane::Point;

/// An edge from one point to another. Edges are ordered by their start and then by their end.
#[derive(Clone, Copy, PartialEq, Eq, PartialOrd, Ord)]
pub(crate) struct Edge {
    pub(crate) from: Point,
    pub(crate) to: Point,
}

impl Edge {
    /// Returns the reversed edge.
    pub(crate) fn reversed_edge(self) -> Edge
        ensures { edge_of result ≡ reversed_edge (edge_of self) }
    {
        Edge {
            from: self.to,
            to: self.from,
        }
    }
}

/// Checks if a coordinate lies between two ends, inclusive.
fn is_between(a: i64, b: i64, x: i64) -> bool
    ensures { result ≡ is_between a b x }
{
    a.min(b) <= x && x <= a.max(b)
}

/// Checks if two points are at one place.
fn is_at(a: Point, b: Point) -> bool
    ensures { result ≡ is_same_place (place_of a) (place_of b) }
{
    a.x == b.x && a.y == b.y
}

/// Checks if a point lies on the line through an edge.
fn is_on_line(point: Point, edge: Edge) -> bool
    ensures { result ≡ is_on_line (place_of point) (edge_of edge) }
{
    edge.from.shift_to(edge.to).cross(edge.from.shift_to(point)) == 0
}

/// Checks if a point lies in the box around an edge.
fn is_in_box(point: Point, edge: Edge) -> bool
    ensures { result ≡ is_in_box (place_of point) (edge_of edge) }
{
    is_between(edge.from.x, edge.to.x, point.x) && is_between(edge.from.y, edge.to.y, point.y)
}

/// Checks if a point lies on an edge.
fn lies_on(point: Point, edge: Edge) -> bool
    ensures { result ≡ lies_on (place_of point) (edge_of edge) }
{
    if !is_in_box(point, edge) {
        return false;
    }
    is_on_line(point, edge)
}

/// Checks if a point lies on an edge but not at its ends.
pub(crate) fn lies_inside(point: Point, edge: Edge) -> bool
    ensures { result ≡ lies_inside (place_of point) (edge_of edge) }
{
    if is_at(point, edge.from) || is_at(point, edge.to) {
        return false;
    }
    lies_on(point, edge)
}
