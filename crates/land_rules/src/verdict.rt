//! The verdict of the policy on a request.
ghost use Rattle.std.specs.Prelude.{◌≡◌};

/// The verdict of the policy on a request.
#[derive(Clone, Copy, Debug, PartialEq, Eq)]
pub enum Verdict {
    /// No rule denies it.
    Allowed,
    /// The number of the first rule that denies it, 1 to 29.
    Denied(u8),
}

impl Verdict {
    ghost use Rattle.land_rules.specs.Rules.{is_allowed};

    /// Returns whether no rule denies the request.
    pub fn is_allowed(self) -> bool
        ensures { result ≡ is_allowed self }
    {
        match self {
            Verdict::Allowed => true,
            Verdict::Denied(_) => false,
        }
    }
}
