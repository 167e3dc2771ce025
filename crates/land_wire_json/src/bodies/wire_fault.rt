//! The faults of requests and bodies.
ghost use Rattle.std.specs.Prelude.{◌≡◌, ◌++◌, Some, codes, decimal};
ghost use Rattle.land_wire_json.specs.Bodies.WireFaults.{fault_number};

use land_fraction::FractionFault;
use land_shape::ShapeFault;
use std::alloc::AllocError;
use std::fmt::{self, Display, Formatter, Write};

/// The first fault of a request, or out of memory.
#[derive(Clone, Copy, Debug, PartialEq, Eq)]
pub enum WireFault {
    /// 130: the text is not JSON.
    Json,
    /// 131: a field is missing, repeated, unknown, of another kind, or of another length or order than
    /// specified.
    Field,
    /// 132: a number has a sign, a point or an exponent, or is out of range; or a text is not a share.
    Number,
    /// 133: a text is not within its limits, or a word is unknown.
    Text,
    /// 134: a role is unknown.
    Role,
    /// 136: the path has no route.
    NoRoute,
    /// 137: the route has another method.
    Method,
    /// 101 to 103: the numbers of a share do not make a fraction.
    Share(FractionFault),
    /// 110 to 120: the text of an outline does not denote a ring.
    Outline(ShapeFault),
    /// 501: out of memory while reading.
    NoMemory,
}

impl WireFault {
    /// Returns the number that the reply contains.
    pub fn number(self) -> u16
        ensures { result ≡ fault_number self }
    {
        match self {
            WireFault::Json => 130,
            WireFault::Field => 131,
            WireFault::Number => 132,
            WireFault::Text => 133,
            WireFault::Role => 134,
            WireFault::NoRoute => 136,
            WireFault::Method => 137,
            WireFault::Share(fault) => fault.number(),
            WireFault::Outline(fault) => fault.number(),
            WireFault::NoMemory => 501,
        }
    }
}

impl Display for WireFault {
    ghost output = { λ fault. Some (codes "fault " ++ decimal (fault_number fault)) };

    fn fmt<W: Write>(&self, f: &mut Formatter<W>) -> fmt::Result {
        let number = self.number();
        write!(f, "fault {number}")
    }
}

impl From<AllocError> for WireFault {
    ghost use Rattle.land_wire_json.specs.declared.bodies.wire_fault.WireFault.TheVariants.{NoMemory};

    ghost from_gives = { λ _ fault. fault ≡ NoMemory };

    fn from(_error: AllocError) -> WireFault {
        WireFault::NoMemory
    }
}
