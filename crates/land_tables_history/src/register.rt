//! The register at a moment.
ghost use Rattle.std.specs.Prelude.{◌≡◌, IfOk};
ghost use Rattle.land_core.specs.declared.register.Register.{Register as Registered};
ghost use Rattle.land_tables_history.specs.Groups.{HaveMembers};
ghost use Rattle.land_tables_history.specs.History.{IsRegisterAt, register_of_history};

use crate::groups::groups_at;
use crate::history::History;
use crate::mandates::mandates_at;
use crate::part::part_at;
use crate::roles::roles_at;
use land_core::register::Register;
use std::alloc::{AllocError, Global};

/// Returns the register at a moment, in Unix milliseconds, with this number for the next new object. Returns
/// an error only if it is out of memory.
pub fn register_at(
    alloc: Global,
    history: &History,
    at: i64,
    next: u64,
) -> Result<Register, AllocError>
    ensures value { IfOk result (λ it. it ≡ register_of_history at history.now next) }
    ensures stands { IfOk result (λ it. (register : Registered) → HaveMembers register.members
        → IsRegisterAt at history.now register
        → it ≡ record register { next = next }) }
{
    Ok(Register {
        parties: part_at(alloc, history.parties.as_slice(), at)?,
        roles: roles_at(alloc, history.roles.as_slice(), at)?,
        members: groups_at(alloc, history.members.as_slice(), at)?,
        units: part_at(alloc, history.units.as_slice(), at)?,
        parcels: part_at(alloc, history.parcels.as_slice(), at)?,
        rrrs: part_at(alloc, history.rrrs.as_slice(), at)?,
        sources: part_at(alloc, history.sources.as_slice(), at)?,
        mutations: part_at(alloc, history.mutations.as_slice(), at)?,
        mandates: mandates_at(alloc, history.mandates.as_slice(), at)?,
        next,
    })
}
