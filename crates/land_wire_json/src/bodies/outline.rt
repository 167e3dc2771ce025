//! Reads outlines in request bodies.
ghost use Rattle.std.specs.Prelude.{◌≡◌};
ghost use Rattle.land_wire_json.specs.Bodies.Outlines.{outline_in, outline_of};
ghost use Rattle.land_wire_json.specs.Bodies.WireFaults.{Returns};
ghost use Rattle.serde_json.specs.View.{view};

use crate::bodies::fields::text_at;
use crate::bodies::laws;
use crate::bodies::wire_fault::WireFault;
use land_shape::{Ring, ShapeFault, read_wkt};
use serde_json::Value;
use std::alloc::Global;

/// Reads the outline of the key `outline`, in millimetres.
///
/// Errors: 131 if it is missing or not a string; 110 to 120 if the text does not denote a ring; 501 if out of
/// memory.
#[tactic(auto, unfolding(crate::specs::Bodies::Outlines::outline_in))]
pub fn outline_in(alloc: Global, value: &Value) -> Result<Ring, WireFault>
    ensures { Returns (λ ring. ring) result (outline_in (view value.now)) }
{
    outline_of(alloc, text_at(value, "outline")?)
}

/// Reads the ring that a text denotes, in millimetres. Errors: 110 to 120; 501 if out of memory.
pub fn outline_of(alloc: Global, text: &str) -> Result<Ring, WireFault>
    ensures { Returns (λ ring. ring) result (outline_of text.now) }
{
    laws::outlines_are_answered();
    land_shape::laws::one_answer();
    match read_wkt(alloc, text) {
        Ok(ring) => Ok(ring),
        Err(fault) if fault == ShapeFault::NoMemory => Err(WireFault::NoMemory),
        Err(fault) => Err(WireFault::Outline(fault)),
    }
}
