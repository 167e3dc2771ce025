//! Errors of outlines.

ghost use Rattle.std.specs.Prelude.{◌≡◌, Some};
ghost use Rattle.land_shape.specs.FaultTexts.{shape_fault_number, shape_fault_text};

use std::alloc::{AllocError, AllocFailed};
use std::error::Error;
use std::fmt;

/// The error of reading an outline: a fault of the text, or out of memory.
#[derive(Clone, Copy, PartialEq, Eq, Debug)]
pub enum ShapeFault {
    /// 110: the text is not a polygon in well-known text.
    NotPolygon,
    /// 111: the polygon is `EMPTY`.
    Empty,
    /// 112: there are two or more rings.
    Inner,
    /// 113: there is a tag `Z`, `M` or `ZM`, or a point of three or four numbers.
    ZOrM,
    /// 114: a word of a point is not a whole number of millimetres.
    Number,
    /// 115: a coordinate is above 10_000_000_000 or below -10_000_000_000.
    Range,
    /// 116: fewer than 4 points are listed.
    FewPoints,
    /// 117: more than 201 points are listed.
    ManyPoints,
    /// 118: the last point is not the first.
    NotClosed,
    /// 119: the ring touches or crosses itself, has an edge without length, or no area.
    NotSimple,
    /// 120: the doubled area is above 1_000_000_000_000_000_000.
    AreaTooLarge,
    /// 501: memory ran out.
    NoMemory,
}

impl ShapeFault {
    /// Returns the number of the error: 110 to 120, or 501.
    pub fn number(self) -> u16
        ensures { result ≡ shape_fault_number self }
    {
        match self {
            ShapeFault::NotPolygon => 110,
            ShapeFault::Empty => 111,
            ShapeFault::Inner => 112,
            ShapeFault::ZOrM => 113,
            ShapeFault::Number => 114,
            ShapeFault::Range => 115,
            ShapeFault::FewPoints => 116,
            ShapeFault::ManyPoints => 117,
            ShapeFault::NotClosed => 118,
            ShapeFault::NotSimple => 119,
            ShapeFault::AreaTooLarge => 120,
            ShapeFault::NoMemory => 501,
        }
    }

    /// Returns the message of the error.
    pub fn text(self) -> &'static str
        ensures { result.now ≡ shape_fault_text self }
    {
        match self {
            ShapeFault::NotPolygon => "the outline is not a POLYGON in well-known text",
            ShapeFault::Empty => "the outline is EMPTY",
            ShapeFault::Inner => "the outline has more than one ring",
            ShapeFault::ZOrM => "the outline has Z or M: a point is two numbers",
            ShapeFault::Number => "a coordinate is not a whole number of millimetres",
            ShapeFault::Range => "a coordinate is more than 10000000000 millimetres from 0",
            ShapeFault::FewPoints => "the outline lists fewer than 4 points",
            ShapeFault::ManyPoints => "the outline lists more than 201 points",
            ShapeFault::NotClosed => "the outline does not end at its first point",
            ShapeFault::NotSimple => "the outline touches or crosses itself, or has no area",
            ShapeFault::AreaTooLarge => "the outline has a doubled area above 1000000000000000000",
            ShapeFault::NoMemory => "memory ran out",
        }
    }
}

impl fmt::Display for ShapeFault {
    ghost output = { λ f. Some (shape_fault_text f) };

    fn fmt<W: fmt::Write>(&self, f: &mut fmt::Formatter<W>) -> fmt::Result {
        f.write_str(self.text())
    }
}

impl Error for ShapeFault {}

impl<T: Drop> From<AllocFailed<T>> for ShapeFault {
    ghost use Rattle.std.specs.Prelude.{◌≡◌};
    ghost use Rattle.land_shape.specs.declared.faults.ShapeFault.TheVariants.{NoMemory};

    ghost from_gives = { λ _ f. f ≡ NoMemory };

    fn from(_: AllocFailed<T>) -> ShapeFault {
        ShapeFault::NoMemory
    }
}

impl From<AllocError> for ShapeFault {
    ghost use Rattle.std.specs.Prelude.{◌≡◌};
    ghost use Rattle.land_shape.specs.declared.faults.ShapeFault.TheVariants.{NoMemory};

    ghost from_gives = { λ _ f. f ≡ NoMemory };

    fn from(_: AllocError) -> ShapeFault {
        ShapeFault::NoMemory
    }
}
