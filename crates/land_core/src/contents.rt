//! The number of entries of a unit, and the shares of its rights.
ghost use Rattle.std.specs.Prelude.{◌≡◌, IfOk};
ghost use Rattle.land_core.specs.Units.{rrr_count, type_shares};

use crate::register::Register;
use crate::rrr::RightType;
use crate::sequence::Sequence;
use land_fraction::Fraction;
use std::alloc::{AllocError, Global};

/// Returns the number of entries of a unit.
pub fn rrr_count(register: &Register, unit: u64) -> usize
    ensures { result ≡ rrr_count register.now unit }
{
    register
        .rrrs
        .iter()
        .filter(|(_, entry)| entry.unit == unit)
        .count()
}

/// Returns the shares of a unit's rights of one type, ordered by the rights' numbers.
pub fn type_shares(
    alloc: Global,
    register: &Register,
    unit: u64,
    right_type: RightType,
) -> Result<Sequence<Fraction>, AllocError>
    ensures { IfOk result (λ it. it ≡ type_shares register.now unit right_type) }
{
    let mut shares = Sequence::new(alloc);
    for (_, entry) in register.rrrs.iter() {
        if let Some(share) = entry.share_in(unit, right_type) {
            shares.push(share)?;
        }
    }
    Ok(shares)
}
