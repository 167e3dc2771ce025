//! Lists of points that close.

ghost use Rattle.std.specs.Prelude.{◌≡◌, ◌↔◌, ◌<◌, IsTrue, length};
ghost use Rattle.land_shape.specs.Simple.{place_of, places};
ghost use Rattle.land_shape.specs.Steps.{IsClosedOrFault, IsClosed};

use crate::faults::ShapeFault;
use crate::plane::Point;

/// The minimum number of points that a text lists.
const MIN_POINTS: usize = 4;

const MAX_POINTS: usize = 201;

/// Checks if two points are at one place.
pub(crate) fn is_same_place(a: Point, b: Point) -> bool
    ensures { IsTrue result ↔ (place_of a ≡ place_of b) }
{
    a.x == b.x && a.y == b.y
}

/// Checks if the last point is the first.
fn is_closed(listed: &[Point]) -> bool
    requires { 0 < length listed.now }
    ensures { IsTrue result ↔ IsClosed (places listed.now) }
{
    is_same_place(listed[listed.len() - 1], listed[0])
}

/// Checks that a list has 4 to 201 points and that its last point is its first. Errors: 116 `FewPoints`, 117
/// `ManyPoints`, 118 `NotClosed`.
pub(crate) fn check_closed(listed: &[Point]) -> Result<(), ShapeFault>
    ensures { IsClosedOrFault (places listed.now) result }
{
    if listed.len() < MIN_POINTS {
        return Err(ShapeFault::FewPoints);
    }
    if listed.len() > MAX_POINTS {
        return Err(ShapeFault::ManyPoints);
    }
    if !is_closed(listed) {
        return Err(ShapeFault::NotClosed);
    }
    Ok(())
}
