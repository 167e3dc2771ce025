//! Areas of rings.

ghost use Rattle.std.specs.Prelude.{◌≡◌, ◌<◌, ◌≤◌, ◌≤ℤ◌, length, negsuc};
ghost use Rattle.land_shape.specs.Simple.{places};
ghost use Rattle.land_shape.specs.Place.{area_of, ring_edges};

use crate::plane::Point;

/// Returns twice the area of the ring in square millimetres; negative if the ring is clockwise.
pub(crate) fn signed_area(points: &[Point]) -> i128
    requires some { 0 < length points.now }
    requires few { length points.now ≤ 200 }
    ensures value { result ≡ area_of (ring_edges (places points.now)) }
    ensures bounded { negsuc 40000000000000000000000 ≤ℤ result }
{
    let first = points[0];
    let mut last = first;
    let mut sum = 0;
    for point in &points[1..] {
        sum += last.cross(*point);
        last = *point;
    }
    sum + last.cross(first)
}
