//! Common points of edges.

ghost use Rattle.std.specs.Prelude.{◌≡◌, ◌↔◌, ◌≤ℤ◌, ◌-ℤ◌, IsTrue};
ghost use Rattle.land_shape.specs.Segment.{HaveCommonPoint};
ghost use Rattle.land_shape.specs.Turns.{Overlap, BoxesOverlap, AreInside, AreTurns};
ghost use Rattle.land_shape.specs.Simple.{place_of};

use crate::plane::Point;

/// The cross products of two segments and of the vector between their starts.
#[derive(Clone, Copy)]
struct Turns {
    whole: i128,
    first: i128,
    second: i128,
}

fn turns_of(a: Point, b: Point, c: Point, d: Point) -> Turns
    ensures { AreTurns (place_of a) (place_of b) (place_of c)
        (place_of d) result.whole result.first result.second }
{
    let along_first = a.shift_to(b);
    let along_second = c.shift_to(d);
    let between = a.shift_to(c);
    Turns {
        whole: along_first.cross(along_second),
        first: between.cross(along_second),
        second: between.cross(along_first),
    }
}

/// Checks if both numbers lie between the bounds.
fn are_inside(low: i128, high: i128, first: i128, second: i128) -> bool
    ensures { IsTrue result ↔ AreInside low high first second }
{
    low <= first && first <= high && low <= second && second <= high
}

/// Checks if the closed segments from `a` to `b` and from `c` to `d` overlap on one axis.
fn overlap(a: i64, b: i64, c: i64, d: i64) -> bool
    ensures { IsTrue result ↔ Overlap a b c d }
{
    c.min(d) <= a.max(b) && a.min(b) <= c.max(d)
}

/// Checks if the boxes of the segments from `a` to `b` and from `c` to `d` overlap.
pub(crate) fn boxes_overlap(a: Point, b: Point, c: Point, d: Point) -> bool
    ensures { IsTrue result ↔ BoxesOverlap (place_of a) (place_of b) (place_of c) (place_of d) }
{
    overlap(a.x, b.x, c.x, d.x) && overlap(a.y, b.y, c.y, d.y)
}

/// Checks if the closed segments from `a` to `b` and from `c` to `d` have a common point.
pub(crate) fn have_common_point(a: Point, b: Point, c: Point, d: Point) -> bool
    ensures { IsTrue result ↔ HaveCommonPoint (place_of a) (place_of b) (place_of c) (place_of d) }
{
    if !boxes_overlap(a, b, c, d) {
        return false;
    }
    let turns = turns_of(a, b, c, d);
    if turns.whole > 0 {
        return are_inside(0, turns.whole, turns.first, turns.second);
    }
    if turns.whole < 0 {
        return are_inside(turns.whole, 0, turns.first, turns.second);
    }
    turns.first == 0 && turns.second == 0
}
