//! The only ring of a polygon in the plane.

ghost use Rattle.std.specs.Prelude.{◌≡◌, ◌↔◌, IsTrue};
ghost use Rattle.land_shape.specs.Faults.{SomeOf, HasManyWords};
ghost use Rattle.land_shape.specs.Reader.{written_polygon};
ghost use Rattle.land_shape.specs.Steps.{IsFull, PlainRing};

use crate::body::{WrittenPoint, WrittenRing};
use crate::faults::ShapeFault;
use crate::polygon::WrittenPolygon;

/// Checks if a point has three words or more.
fn has_long_point(points: &[WrittenPoint<'_>]) -> bool
    ensures { IsTrue result ↔ SomeOf HasManyWords points.now }
{
    for point in points {
        if point.words().len() > 2 {
            return true;
        }
    }
    false
}

/// Returns the only ring of a polygon without a tag, whose points have two words each. Errors: 111 `Empty`,
/// 112 `Inner`, 113 `ZOrM`.
pub(crate) fn plain_ring<'a>(polygon: WrittenPolygon<'a>) -> Result<WrittenRing<'a>, ShapeFault>
    requires { IsFull (written_polygon polygon) }
    ensures { PlainRing (written_polygon polygon.entry) result }
{
    let WrittenPolygon::Body { tagged, mut rings } = polygon else {
        return Err(ShapeFault::Empty);
    };
    if rings.len() > 1 {
        return Err(ShapeFault::Inner);
    }
    let ring = rings.pop().unwrap();
    if tagged || has_long_point(ring.points()) {
        return Err(ShapeFault::ZOrM);
    }
    Ok(ring)
}
