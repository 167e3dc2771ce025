//! The parcels and the entries of a register, grouped by unit in one pass.
ghost use Rattle.std.specs.Prelude.{◌≡◌, ℕ, IfOk};
ghost use Rattle.std.specs.FinMap as map;
ghost use Rattle.land_core.specs.ByUnit.{IsByUnit, claims_in, parcels_in, under};

use crate::register::Register;
use crate::soundness::claim::Claim;
use crate::soundness::groups::Groups;
use std::alloc::{AllocError, Global};

/// The parcels and the claims of each unit.
#[derive(Debug, Drop)]
pub(crate) struct ByUnit {
    /// The numbers of its parcels, ascending.
    pub(crate) parcels: Groups<u64>,
    /// The claims of its entries, ordered by the entries' numbers.
    pub(crate) claims: Groups<Claim>,
}

impl ByUnit {
    /// Groups the parcels and the entries of a register by unit.
    pub(crate) fn of(alloc: Global, register: &Register) -> Result<ByUnit, AllocError>
        ensures { IfOk result (λ it. IsByUnit it register.now) }
    {
        Ok(ByUnit {
            parcels: parcels_by_unit(alloc, register)?,
            claims: claims_by_unit(alloc, register)?,
        })
    }
}

fn parcels_by_unit(alloc: Global, register: &Register) -> Result<Groups<u64>, AllocError>
    ensures { IfOk result (λ it. (unit : ℕ) → under it unit
        ≡ parcels_in (map.entries register.now.parcels) unit) }
{
    let mut parcels = Groups::new(alloc);
    for (number, parcel) in register.parcels.iter() {
        parcels.add(alloc, parcel.unit, *number)?;
    }
    Ok(parcels)
}

fn claims_by_unit(alloc: Global, register: &Register) -> Result<Groups<Claim>, AllocError>
    ensures { IfOk result (λ it. (unit : ℕ) → under it unit
        ≡ claims_in (map.entries register.now.rrrs) unit) }
{
    let mut claims = Groups::new(alloc);
    for (_, entry) in register.rrrs.iter() {
        claims.add(alloc, entry.unit, Claim::of(entry))?;
    }
    Ok(claims)
}
