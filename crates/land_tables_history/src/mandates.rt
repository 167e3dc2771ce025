//! The mandates at a moment.
ghost use Rattle.std.specs.Prelude.{◌≡◌, IfOk};
ghost use Rattle.land_core.specs.Mandates.{Mandates as Standing};
ghost use Rattle.land_tables_history.specs.Standing.{AreMandatesAt, mandates_at};

use crate::version::Version;
use land_core::mandates::{Mandate, Mandates};
use std::alloc::{AllocError, Global};

/// Returns the mandates that are current at a moment. Versions may be in any order. Returns an error only if
/// it is out of memory.
pub fn mandates_at(
    alloc: Global,
    versions: &[Version<Mandate>],
    at: i64,
) -> Result<Mandates, AllocError>
    ensures value { IfOk result (λ it. it ≡ mandates_at at versions.now) }
    ensures stands { IfOk result (λ it. (mandates : Standing) → AreMandatesAt at versions.now mandates → it
        ≡ mandates) }
{
    let mut mandates = Mandates::new(alloc);
    for version in versions {
        if version.is_current(at) {
            mandates.insert(version.what)?;
        }
    }
    Ok(mandates)
}
