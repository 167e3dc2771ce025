//! Finds the fields of a head by name, with their spans.
ghost use Rattle.std.specs.Prelude.{◌≡◌, map};
ghost use Rattle.httparse.specs.Spans.{header_bytes};
ghost use Rattle.land_wire.specs.Fields.{AreWithin, values_named};
ghost use Rattle.land_wire.specs.Framing.Frame.{IsOccurrence};

use crate::words::matches_ignoring_case;
use httparse::spans::{HeaderSpan, Span};

/// The number of fields with a name.
#[derive(Clone, Copy, Debug, PartialEq, Eq)]
pub enum Occurrence {
    /// None.
    Absent,
    /// One, with the span of its value.
    Once(Span),
    /// Two or more.
    Repeated,
}

/// Finds the fields with a name, compared without case.
pub fn find_field(head: &[u8], fields: &[HeaderSpan], name: &str) -> Occurrence
    requires { AreWithin head.now fields.now }
    ensures { IsOccurrence head.now (values_named name.now (map (header_bytes head.now) fields.now)) result }
{
    let mut found = Occurrence::Absent;
    for field in fields {
        if matches_ignoring_case(field.name.of(head), name) {
            found = match found {
                Occurrence::Absent => Occurrence::Once(field.value),
                _ => Occurrence::Repeated,
            };
        }
    }
    found
}
