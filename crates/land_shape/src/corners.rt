//! The corners of a ring.

ghost use Rattle.std.specs.Prelude.{◌≡◌, ◌<◌, length};
ghost use Rattle.land_shape.specs.Simple.{place_of, places, place_at, next_place_at};

use crate::plane::Point;

/// Returns the corner at `i`.
pub(crate) fn corner(points: &[Point], i: usize) -> Point
    requires { i < length points.now }
    ensures { place_of result ≡ place_at (places points.now) i }
{
    points[i]
}

/// Returns the corner after the one at `i`.
pub(crate) fn corner_after(points: &[Point], i: usize) -> Point
    requires { i < length points.now }
    ensures { place_of result ≡ next_place_at (places points.now) i }
{
    if i + 1 == points.len() {
        corner(points, 0)
    } else {
        corner(points, i + 1)
    }
}
