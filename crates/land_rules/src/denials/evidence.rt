//! The evidence: the few records from which the standing rules are decided.
ghost use Rattle.std.specs.Prelude.{◌≡◌, Some, IfOk};
ghost use Rattle.land_rules.specs.Denials.Standing.{evidence_of, at_most_one};

use crate::denials::standing::{entry_of_ask, mutation_of_ask};
use land_core::ask::Ask;
use land_core::caller::Caller;
use land_core::mutation::MutationRecord;
use land_core::party::PartyRecord;
use land_core::records::Records;
use land_core::register::Register;
use land_core::roles::Roles;
use land_core::rrr::RrrRecord;
use std::alloc::{AllocError, Global};

/// Returns a map that has at most one record, under its number.
fn at_most_one<V: Drop>(
    alloc: Global,
    number: Option<u64>,
    found: Option<V>,
) -> Result<Records<V>, AllocError>
    ensures { IfOk result (λ it. it ≡ at_most_one number found) }
{
    let mut records = Records::new(alloc);
    if let (Some(number), Some(value)) = (number, found) {
        records.insert(number, value)?;
    }
    Ok(records)
}

/// Returns the evidence as a register. It has the records that were read by key: the caller with its roles,
/// the entry that the request would discharge, and the mutation that it would decide. The only error is out
/// of memory.
pub fn evidence_of(
    alloc: Global,
    caller: Caller,
    ask: &Ask,
    party: Option<PartyRecord>,
    roles: Roles,
    entry: Option<RrrRecord>,
    mutation: Option<MutationRecord>,
) -> Result<Register, AllocError>
    ensures { IfOk result (λ it. it ≡ evidence_of caller ask.now party roles entry mutation) }
{
    Ok(Register {
        parties: at_most_one(alloc, Some(caller.party), party)?,
        roles,
        rrrs: at_most_one(alloc, entry_of_ask(ask), entry)?,
        mutations: at_most_one(alloc, mutation_of_ask(ask), mutation)?,
        ..Register::empty(alloc)
    })
}
