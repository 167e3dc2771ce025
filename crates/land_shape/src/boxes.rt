//! Boxes around edges.

ghost use Rattle.std.specs.Prelude.{◌≡◌, ◌↔◌, ◌<◌, ◌≤◌, IsTrue, length};
ghost use Rattle.std.specs.Int.{int_min, int_max};
ghost use Rattle.land_shape.specs.Place.{Place};
ghost use Rattle.land_shape.specs.Simple.{place_of, places};
ghost use Rattle.land_shape.specs.Turns.{BoxesOverlap, IsInBox, HoldsEdges};

use crate::corners::{corner, corner_after};
use crate::plane::Point;
use crate::segment::boxes_overlap;

/// A box along the axes, by its corners of least and of greatest coordinates.
#[derive(Clone, Copy)]
pub(crate) struct EdgeBox {
    least: Point,
    greatest: Point,
}

/// Returns the point of the lesser coordinates of two points.
fn lesser(a: Point, b: Point) -> Point
    ensures x { result.x ≡ int_min a.x b.x }
    ensures y { result.y ≡ int_min a.y b.y }
{
    Point {
        x: a.x.min(b.x),
        y: a.y.min(b.y),
    }
}

/// Returns the point of the greater coordinates of two points.
fn greater(a: Point, b: Point) -> Point
    ensures x { result.x ≡ int_max a.x b.x }
    ensures y { result.y ≡ int_max a.y b.y }
{
    Point {
        x: a.x.max(b.x),
        y: a.y.max(b.y),
    }
}

impl EdgeBox {
    /// Returns the box stretched to hold a point.
    fn with(self, point: Point) -> EdgeBox
        ensures holds { IsInBox (place_of result.least) (place_of result.greatest) (place_of point) }
        ensures still { (p : Place) → IsInBox (place_of self.least) (place_of self.greatest) p
            → IsInBox (place_of result.least) (place_of result.greatest) p }
    {
        EdgeBox {
            least: lesser(self.least, point),
            greatest: greater(self.greatest, point),
        }
    }

    /// Checks if the box overlaps that of the edge from `a` to `b`.
    pub(crate) fn overlaps_edge(self, a: Point, b: Point) -> bool
        ensures { IsTrue result
            ↔ BoxesOverlap (place_of self.least) (place_of self.greatest) (place_of a) (place_of b) }
    {
        boxes_overlap(self.least, self.greatest, a, b)
    }
}

/// Returns the box around the edges with index at least `start` and below `end`.
pub(crate) fn box_of(points: &[Point], start: usize, end: usize) -> EdgeBox
    requires order { start < end }
    requires within { end ≤ length points.now }
    ensures { HoldsEdges (places points.now) start end (place_of result.least) (place_of result.greatest) }
{
    let first = corner(points, start);
    let mut around = EdgeBox {
        least: first,
        greatest: first,
    };
    for i in start..end {
        around = around.with(corner(points, i)).with(corner_after(points, i));
    }
    around
}
