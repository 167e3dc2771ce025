//! Rings: simple, counterclockwise, and not too large.

ghost use Rattle.std.specs.Prelude.{◌≡◌, ◌<◌, ◌≤◌, ◌≤ℤ◌, IfOk, length, pos, string_bytes, true};
ghost use Rattle.land_shape.specs.Matching.{runs_counterclockwise};
ghost use Rattle.land_shape.specs.Outline.{IsOutline, counterclockwise_ring, doubled_area};
ghost use Rattle.land_shape.specs.Place.{area_of, is_same_ring, ring_edges};
ghost use Rattle.land_shape.specs.Printed.{polygon_text};
ghost use Rattle.land_shape.specs.Simple.{places};
ghost use Rattle.land_shape.specs.Steps.{IsRingOrFault};

use crate::area::signed_area;
use crate::faults::ShapeFault;
use crate::plane::Point;
use crate::printing::write_points;
use crate::simple::meets_only_at_joints;
use std::alloc::AllocError;
use std::marker::Model;

/// The greatest doubled area, in square millimetres.
const MAX_DOUBLED_AREA: i128 = 1_000_000_000_000_000_000;

/// The outline of a parcel: a simple ring of 3 to 200 points, counterclockwise, from the first point of its
/// text.
///
/// Contracts see a ring as the list of its places.
#[derive(Debug, Drop)]
pub struct Ring {
    points: Vec<Point>,
    doubled: u64,
}

impl Model for Ring {
    ghost use Rattle.std.specs.Prelude.{List, ◌≡◌};
    ghost use Rattle.land_shape.specs.Place.{Place};
    ghost use Rattle.land_shape.specs.Simple.{places};
    ghost use Rattle.land_shape.specs.Outline.{IsOutline, doubled_area};

    ghost Value = { List Place };

    ghost view = { λ r. places r.points.items };

    ghost invariant = { λ r. IsOutline (places r.points.items)
        × (r.doubled ≡ doubled_area (places r.points.items)) };
}

impl Ring {
    /// Returns the points; the first is not repeated at the end.
    pub fn points(&self) -> &[Point]
        ensures points { places result.now ≡ self.now }
        ensures sound { IsOutline self.now }
    {
        self.points.as_slice()
    }

    /// Returns twice the area, in square millimetres: 1 to 1_000_000_000_000_000_000.
    pub fn doubled_area(&self) -> u64
        ensures value { result ≡ doubled_area self.now }
        ensures some { 1 ≤ result }
        ensures bounded { result ≤ 1000000000000000000 }
    {
        self.doubled
    }

    /// Proves that a ring is counterclockwise. Does nothing else: it is for the proofs of callers.
    pub fn runs_counterclockwise(&self)
        ensures { runs_counterclockwise self.now ≡ true }
    {
        let _points = &self.points;
    }

    /// Returns the ring in well-known text: `POLYGON ((x y, x y, ...))`, with the first point repeated at the
    /// end.
    pub fn write_wkt(&self) -> Result<String, AllocError>
        ensures { IfOk result (λ text. string_bytes text ≡ polygon_text self.now) }
    {
        write_points(*self.points.allocator(), &self.points)
    }

    /// Checks if two rings have the same points in the same order, from the same first point.
    pub fn is_same(&self, other: &Ring) -> bool
        ensures { result ≡ is_same_ring self.now other.now }
    {
        self.points() == other.points()
    }

    /// Returns a copy of the ring.
    pub fn copy(&self) -> Result<Ring, AllocError>
        ensures { IfOk result (λ ring. ring ≡ self.now) }
    {
        let Ring { points, doubled } = self;
        Ok(Ring {
            points: Vec::from_slice(*points.allocator(), points)?,
            doubled: *doubled,
        })
    }
}

/// Makes a ring counterclockwise, and returns twice its area.
fn put_counterclockwise(points: &mut [Point]) -> i128
    requires some { 0 < length points.old }
    requires few { length points.old ≤ 200 }
    ensures ring { places points.new ≡ counterclockwise_ring (places points.old) }
    ensures area { result ≡ area_of (ring_edges (places points.new)) }
    ensures left { pos 0 ≤ℤ result }
{
    let area = signed_area(points);
    if area < 0 {
        points[1..].reverse();
        -area
    } else {
        area
    }
}

/// Returns the ring of listed points; the last one closes it and is dropped. Errors: 119 `NotSimple`, 120
/// `AreaTooLarge`.
pub(crate) fn ring_from_listed(listed: Vec<Point>) -> Result<Ring, ShapeFault>
    requires some { 4 ≤ length listed.items }
    requires few { length listed.items ≤ 201 }
    ensures { IsRingOrFault (places listed.items) result }
{
    let mut points = listed;
    points.pop();
    let area = put_counterclockwise(&mut points);
    if area == 0 || !meets_only_at_joints(&points) {
        return Err(ShapeFault::NotSimple);
    }
    if area > MAX_DOUBLED_AREA {
        return Err(ShapeFault::AreaTooLarge);
    }
    Ok(Ring {
        points,
        doubled: area as u64,
    })
}
