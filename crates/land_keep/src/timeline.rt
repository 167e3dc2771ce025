//! The register through time.
use land_core::register::Register;

/// A version: the register from its stamp until the next version's.
#[derive(Debug, Drop)]
pub struct Version {
    /// The stamp, in Unix milliseconds.
    pub stamp: i64,
    /// The register.
    pub register: Register,
}
