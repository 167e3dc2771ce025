//! The conditions of soundness on mutations.
ghost use Rattle.std.specs.Prelude.{◌≡◌, IfOk};
ghost use Rattle.land_core.specs.Soundness.{has_dangling_mutation, has_reused_reference};
ghost use Rattle.land_core.specs.Soundness.{is_dangling_mutation};

use crate::kind::Kind;
use crate::mutation::MutationRecord;
use crate::register::Register;
use std::alloc::{AllocError, Global};
use std::collections::BTreeSet;

/// Checks if a mutation's lodger or source does not exist, or its content is not within its limits.
pub(crate) fn has_dangling_mutation(register: &Register) -> bool
    ensures { result ≡ has_dangling_mutation register.now }
{
    register
        .mutations
        .iter()
        .any(|(_, mutation)| is_dangling_mutation(register, mutation))
}

fn is_dangling_mutation(register: &Register, mutation: &MutationRecord) -> bool
    ensures { result ≡ is_dangling_mutation register.now mutation.now }
{
    !(register.stands(Kind::Party, mutation.lodger)
        && register.stands(Kind::Source, mutation.source)
        && mutation.content.is_well_formed())
}

/// Checks if a party has lodged two mutations with the same reference.
pub(crate) fn has_reused_reference(alloc: Global, register: &Register) -> Result<bool, AllocError>
    ensures { IfOk result (λ it. it ≡ has_reused_reference register.now) }
{
    let mut met = BTreeSet::new(alloc);
    for (_, mutation) in register.mutations.iter() {
        if !met.insert((mutation.lodger, mutation.reference.as_str()))? {
            return Ok(true);
        }
    }
    Ok(false)
}
