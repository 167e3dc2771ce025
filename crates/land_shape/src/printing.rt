//! Writes rings as text.

ghost use Rattle.std.specs.Prelude.{◌≡◌, ◌<◌, ◌++◌, length, OnOk, IfOk, string_bytes};
ghost use Rattle.land_shape.specs.Printed.{point_text, polygon_text};
ghost use Rattle.land_shape.specs.Simple.{place_of, places};

use crate::plane::Point;
use std::alloc::{AllocError, Global};
use std::fmt::Write;

/// Appends the two numbers of a point.
fn push_point(out: &mut String, point: Point) -> Result<(), AllocError>
    ensures { OnOk result (string_bytes out.new ≡ string_bytes out.old ++ point_text (place_of point)) }
{
    let x = point.x;
    let y = point.y;
    write!(out, "{x} {y}")
}

/// Returns the canonical form of a ring.
pub(crate) fn write_points(alloc: Global, points: &[Point]) -> Result<String, AllocError>
    requires { 0 < length points.now }
    ensures { IfOk result (λ text. string_bytes text ≡ polygon_text (places points.now)) }
{
    let first = points[0];
    let mut out = String::from_str(alloc, "POLYGON ((")?;
    for point in points {
        push_point(&mut out, *point)?;
        out.push_str(", ")?;
    }
    push_point(&mut out, first)?;
    out.push_str("))")?;
    Ok(out)
}
