//! Fallible copies.
ghost use Rattle.std.specs.Prelude.{◌≡◌, IfOk};

use std::alloc::{AllocError, Global};

/// A value that can be copied, unless memory runs out.
pub trait Duplicate: Drop {
    /// Returns an equal value.
    fn copy(&self, alloc: Global) -> Result<Self, AllocError>
        ensures { IfOk result (λ it. it ≡ self.now) };
}

impl Duplicate for u64 {
    fn copy(&self, _alloc: Global) -> Result<u64, AllocError> {
        Ok(*self)
    }
}
