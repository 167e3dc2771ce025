//! The records of a kind at a moment.
ghost use Rattle.std.specs.Prelude.{◌≡◌, IfOk};
ghost use Rattle.std.specs.FinMap.{FinMap};
ghost use Rattle.std.specs.Ordering.{nat_cmp};
ghost use Rattle.land_tables_history.specs.Standing.{IsPartAt, part_at};

use crate::version::Version;
use land_core::duplicate::Duplicate;
use land_core::records::Records;
use std::alloc::{AllocError, Global};

/// Returns the records that are current at a moment, by number. Versions may be in any order. If two of one
/// number are current, the later one in the list wins. Returns an error only if it is out of memory.
pub fn part_at<V: Duplicate>(
    alloc: Global,
    versions: &[Version<(u64, V)>],
    at: i64,
) -> Result<Records<V>, AllocError>
    ensures value { IfOk result (λ it. it ≡ part_at at versions.now) }
    ensures stands { IfOk result (λ it. (m : FinMap nat_cmp V) → IsPartAt at versions.now m → it ≡ m) }
{
    let mut part = Records::new(alloc);
    for version in versions {
        if version.is_current(at) {
            part.insert(version.what.0, version.what.1.copy(alloc)?)?;
        }
    }
    Ok(part)
}
