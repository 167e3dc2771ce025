//! The caller.
use crate::role::Role;

/// The calling party and the role in which it calls. The gateway authenticates both.
#[derive(Clone, Copy, Debug, PartialEq, Eq)]
pub struct Caller {
    /// The party's number.
    pub party: u64,
    /// The role in which it calls.
    pub role: Role,
}
