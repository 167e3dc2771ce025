//! Points of the plane and the vectors between them, in whole millimetres.

ghost use Rattle.std.specs.Prelude.{◌≡◌, ◌-ℤ◌};
ghost use Rattle.land_shape.specs.Coordinate.{IsCoordinate, IsDistance, IsTriangle, cross_of, dot_of};

/// A corner of an outline, in whole millimetres.
///
/// Both coordinates lie between -10_000_000_000 and 10_000_000_000. Points are ordered from left to right,
/// then from bottom to top.
#[derive(Clone, Copy, PartialEq, Eq, PartialOrd, Ord, Debug)]
pub struct Point {
    pub x: i64,
    pub y: i64,
    ghost x_in_range: { IsCoordinate x },
    ghost y_in_range: { IsCoordinate y },
}

/// The vector from one point to another.
#[derive(Clone, Copy)]
pub(crate) struct Shift {
    x: i128,
    y: i128,
    ghost x_in_range: { IsDistance x },
    ghost y_in_range: { IsDistance y },
}

impl Point {
    /// Returns the vector from this point to another.
    pub(crate) fn shift_to(self, end: Point) -> Shift
        ensures x { result.x ≡ end.x -ℤ self.x }
        ensures y { result.y ≡ end.y -ℤ self.y }
    {
        Shift {
            x: end.x as i128 - self.x as i128,
            y: end.y as i128 - self.y as i128,
        }
    }

    /// Returns the vector from the origin to this point.
    fn from_origin(self) -> Shift
        ensures x { result.x ≡ self.x }
        ensures y { result.y ≡ self.y }
    {
        Shift {
            x: self.x as i128,
            y: self.y as i128,
        }
    }

    /// Returns twice the area of the triangle of the origin, this point and the other; positive if
    /// counterclockwise.
    pub(crate) fn cross(self, other: Point) -> i128
        ensures value { result ≡ cross_of self.x self.y other.x other.y }
        ensures small { IsTriangle result }
    {
        self.from_origin().cross(other.from_origin())
    }
}

impl Shift {
    /// Returns the cross product: twice the area of the triangle of two vectors, positive if
    /// counterclockwise.
    pub(crate) fn cross(self, other: Shift) -> i128
        ensures { result ≡ cross_of self.x self.y other.x other.y }
    {
        self.x * other.y - self.y * other.x
    }

    /// Returns the dot product.
    pub(crate) fn dot(self, other: Shift) -> i128
        ensures { result ≡ dot_of self.x self.y other.x other.y }
    {
        self.x * other.x + self.y * other.y
    }
}
