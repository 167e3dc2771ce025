//! Requests of callers.
ghost use Rattle.std.specs.Prelude.{◌≡◌};

use crate::act::Act;
use crate::caller::Caller;
use crate::kind::Kind;

/// A query or a command to the register.
#[derive(Debug, Drop)]
pub enum Ask {
    /// Views one object, at a moment or now.
    View {
        /// Its kind.
        kind: Kind,
        /// Its number.
        number: u64,
        /// The moment, in Unix milliseconds.
        at: Option<i64>,
    },
    /// Lists the numbers of a kind that the caller sees, at a moment or now.
    List {
        /// The kind.
        kind: Kind,
        /// The moment, in Unix milliseconds.
        at: Option<i64>,
    },
    /// Views the title sheet of a unit, at a moment or now.
    Sheet {
        /// The unit's number.
        unit: u64,
        /// The moment, in Unix milliseconds.
        at: Option<i64>,
    },
    /// Performs an act.
    Do(Act),
}

/// A request: a query or a command, with its caller.
#[derive(Debug, Drop)]
pub struct Request {
    /// The caller.
    pub caller: Caller,
    /// The query or the command.
    pub ask: Ask,
}

impl Request {
    ghost use Rattle.land_core.specs.Acts.{is_well_formed_request};

    /// Checks if each field is within its limits.
    pub fn is_well_formed(&self) -> bool
        ensures { result ≡ is_well_formed_request self.now }
    {
        match &self.ask {
            Ask::View { .. } | Ask::List { .. } | Ask::Sheet { .. } => true,
            Ask::Do(act) => act.is_well_formed(),
        }
    }
}
