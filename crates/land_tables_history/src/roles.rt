//! The roles at a moment.
ghost use Rattle.std.specs.Prelude.{◌≡◌, IfOk};
ghost use Rattle.land_core.specs.Grants.{Grants};
ghost use Rattle.land_tables_history.specs.Standing.{AreRolesAt, roles_at};

use crate::version::Version;
use land_core::roles::{Grant, Roles};
use std::alloc::{AllocError, Global};

/// Returns the roles that are current at a moment. Versions may be in any order. Returns an error only if it
/// is out of memory.
pub fn roles_at(alloc: Global, versions: &[Version<Grant>], at: i64) -> Result<Roles, AllocError>
    ensures value { IfOk result (λ it. it ≡ roles_at at versions.now) }
    ensures stands { IfOk result (λ it. (grants : Grants) → AreRolesAt at versions.now grants → it ≡ grants) }
{
    let mut roles = Roles::new(alloc);
    for version in versions {
        if version.is_current(at) {
            roles.insert(version.what)?;
        }
    }
    Ok(roles)
}
