//! Reading outlines.

ghost use Rattle.std.specs.Prelude.{◌≢◌, IfOk, IfErr};
ghost use Rattle.land_shape.specs.Faults.{IsFirstFault, Denotes};
ghost use Rattle.land_shape.specs.Grammar.{IsPolygon};
ghost use Rattle.land_shape.specs.Reader.{written_polygon};
ghost use Rattle.land_shape.specs.Simple.{places};
ghost use Rattle.land_shape.specs.Steps.{IsPlainList};

use crate::closing::check_closed;
use crate::faults::ShapeFault;
use crate::listing::listed_points;
use crate::outline::{Ring, ring_from_listed};
use crate::plain::plain_ring;
use crate::plane::Point;
use crate::polygon::{WrittenPolygon, polygon_of};
use crate::tokens::tokens_of;
use std::alloc::Global;

/// Returns the polygon of the whole text. Error: 110 `NotPolygon`, or 501.
fn find_polygon<'a>(alloc: Global, text: &'a str) -> Result<WrittenPolygon<'a>, ShapeFault>
    ensures polygon { IfOk result (λ polygon. IsPolygon text.entry.now (written_polygon polygon)) }
    ensures fault { IfErr result (λ fault. fault ≢ ShapeFault.NoMemory → IsFirstFault text.entry.now fault) }
{
    let tokens = tokens_of(alloc, text)?;
    match polygon_of(alloc, &tokens)? {
        Some(polygon) => Ok(polygon),
        None => Err(ShapeFault::NotPolygon),
    }
}

/// Returns the points that the whole text lists, including the last. Errors: 110 to 115, or 501.
fn find_points(alloc: Global, text: &str) -> Result<Vec<Point>, ShapeFault>
    ensures points { IfOk result (λ points. IsPlainList text.now (places points.items)) }
    ensures fault { IfErr result (λ fault. fault ≢ ShapeFault.NoMemory → IsFirstFault text.now fault) }
{
    let polygon = find_polygon(alloc, text)?;
    let ring = plain_ring(polygon)?;
    listed_points(alloc, ring.points())
}

/// Reads the outline of a parcel: a polygon of one ring in the well-known text of OGC 06-103r4, in whole
/// millimetres.
///
/// Returns a ring if and only if the text has no fault. Errors: the first fault of the text, 110 to 120 in
/// the order of their numbers; or 501 if out of memory, which says nothing about the text.
pub fn read_wkt(alloc: Global, text: &str) -> Result<Ring, ShapeFault>
    ensures ring { IfOk result (Denotes text.now) }
    ensures fault { IfErr result (λ fault. fault ≢ ShapeFault.NoMemory → IsFirstFault text.now fault) }
{
    let listed = find_points(alloc, text)?;
    check_closed(&listed)?;
    ring_from_listed(listed)
}
