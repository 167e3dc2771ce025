//! The faults of framing.
ghost use Rattle.std.specs.Prelude.{◌≡◌};
ghost use Rattle.land_wire.specs.Framing.FrameFaults.{frame_fault_number};

/// The reason that a stream does not begin with a whole request.
#[derive(Clone, Copy, Debug, PartialEq, Eq)]
pub enum FrameFault {
    /// The bytes are not a prefix of a head, or a whole head has too many fields or a wrong length.
    Head,
    /// 8192 bytes contain only a part of a head.
    HeadLong,
    /// The body has more than 1_048_576 bytes.
    BodyLong,
    /// The head has a `Transfer-Encoding`.
    Encoding,
    /// The input ends inside a head or a body.
    Cut,
}

impl FrameFault {
    /// Returns the number in the reply: 140 `Head`, 141 `HeadLong`, 142 `BodyLong`, 143 `Encoding`, 144
    /// `Cut`.
    pub fn number(self) -> u16
        ensures { result ≡ frame_fault_number self }
    {
        match self {
            FrameFault::Head => 140,
            FrameFault::HeadLong => 141,
            FrameFault::BodyLong => 142,
            FrameFault::Encoding => 143,
            FrameFault::Cut => 144,
        }
    }
}
