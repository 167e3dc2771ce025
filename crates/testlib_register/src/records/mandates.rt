//! Mandates: the parties between which they can exist, and changes that give and withdraw them.
use super::{Case, REFERENCE, WITH_GROUP, WITH_PERSONS, expect_faults, register_with};
use crate::facts::changes::change_all;
use crate::facts::facts::Fact;
use land_core::change::Change;
use land_core::duplicate::Duplicate;
use land_core::mandates::Mandate;
use land_core::register::{Register, apply};
use std::alloc::Global;
use testlib_cases::stop::{Stop, expect};

/// Group 5 can neither give nor have a mandate, nor can 9, which does not exist.
const PAIRS: &[Case] = &[
    Case(&[Fact::Mandate(2, 3)], None),
    Case(&[Fact::Mandate(2, 3), Fact::Mandate(3, 2)], None),
    Case(&[Fact::Mandate(4, 1), Fact::Mandate(4, 2)], None),
    Case(&[Fact::Mandate(2, 2)], REFERENCE),
    Case(&[Fact::Mandate(2, 5)], REFERENCE),
    Case(&[Fact::Mandate(5, 2)], REFERENCE),
    Case(&[Fact::Mandate(2, 9)], REFERENCE),
    Case(&[Fact::Mandate(9, 2)], REFERENCE),
    Case(&[Fact::Mandate(2, 3), Fact::Mandate(3, 3)], REFERENCE),
    Case(&[Fact::Mandate(3, 3), Fact::Withdrawn(3, 3)], None),
];

/// Checks that a mandate is between two single parties.
pub fn a_mandate_is_between_two_single_parties(alloc: Global) -> Result<(), Stop> {
    expect_faults(alloc, WITH_GROUP, PAIRS)
}

/// Anna and Sam give Ben their mandates.
const GIVING: &[Fact] = &[Fact::Mandate(2, 3), Fact::Mandate(4, 3)];

/// Anna's is withdrawn, and Ben gives Sam his.
const CHANGING: &[Fact] = &[Fact::Withdrawn(2, 3), Fact::Mandate(3, 4)];

/// Whether Ben has Anna's mandate, whether he has Sam's, and whether Sam has Ben's.
type Held = (bool, bool, bool);

fn holds(register: &Register, principal: u64, agent: u64) -> bool {
    register.mandates.contains(Mandate { principal, agent })
}

fn held(register: &Register) -> Held {
    (
        holds(register, 2, 3),
        holds(register, 4, 3),
        holds(register, 3, 4),
    )
}

/// Makes a change, and returns the mandates of a copy of the register after it.
fn held_after(alloc: Global, register: &mut Register, change: &Change) -> Result<Held, Stop> {
    apply(alloc, register, change)?;
    let copy = register.copy(alloc)?;
    Ok(held(&copy))
}

/// Does the same with the change of these facts.
fn change_by(alloc: Global, register: &mut Register, facts: &[Fact]) -> Result<Held, Stop> {
    let mut change = Change::empty(alloc, 6);
    change_all(alloc, &mut change, facts)?;
    held_after(alloc, register, &change)
}

/// Checks that the mandates are those of the change.
pub fn mandates_are_those_of_the_change(alloc: Global) -> Result<(), Stop> {
    let mut register = register_with(alloc, WITH_PERSONS)?;
    let given = change_by(alloc, &mut register, GIVING)?;
    let changed = change_by(alloc, &mut register, CHANGING)?;
    expect(given == (true, true, false), "what is given", 0)?;
    expect(changed == (false, true, true), "what is changed", 0)
}
