//! The new register, and copies that equal the original.
use super::garden::{ANNA, DEED, GARDEN, HEDGE, LEASE, LOAN, PATH, POND};
use super::objects::{OFFICE, is_shown};
use super::{WITH_ALL, register_with};
use crate::facts::registers::fault;
use land_core::duplicate::Duplicate;
use land_core::kind::Kind;
use land_core::object::Object;
use land_core::register::Register;
use land_core::role::Role;
use std::alloc::{AllocError, Global};
use std::fmt::Debug;
use testlib_cases::stop::{Stop, expect};

/// Returns all fields of a value, in one line.
pub(super) fn fields<T: Debug>(alloc: Global, value: &T) -> Result<String, AllocError> {
    format!(in alloc; "{value:?}")
}

/// Checks if a register is the new one.
fn is_new(alloc: Global, register: &Register) -> Result<bool, Stop> {
    Ok(
        is_shown(alloc, register, &OFFICE)?
            && fault(alloc, register)? == None
            && register.holds(1, Role::StateAdministrator)
            && !register.holds(2, Role::Citizen)
            && !register.stands(Kind::Party, 2)
            && register.next == 2,
    )
}

fn new_register(alloc: Global) -> Result<Register, Stop> {
    Ok(Register::new(alloc)?)
}

fn is_made_new(alloc: Global) -> Result<bool, Stop> {
    let register = new_register(alloc)?;
    is_new(alloc, &register)
}

/// Checks that a new register is sound.
pub fn a_new_register_is_sound(alloc: Global) -> Result<(), Stop> {
    expect(is_made_new(alloc)?, "a new register", 0)
}

fn are_new(alloc: Global, register: &Register, copy: &Register) -> Result<bool, Stop> {
    Ok(is_new(alloc, register)? && is_new(alloc, copy)?)
}

/// Checks if the register is still the new one after a failed copy. Then returns out of memory.
fn is_new_still(alloc: Global, register: &Register) -> Result<bool, Stop> {
    if is_new(alloc, register)? {
        Err(AllocError.into())
    } else {
        Ok(false)
    }
}

/// Checks if a copy of the register is the new one. The register stays so, whether or not memory was refused.
fn is_copied_new(alloc: Global, register: &Register) -> Result<bool, Stop> {
    match register.copy(alloc) {
        Ok(copy) => are_new(alloc, register, &copy),
        Err(AllocError) => is_new_still(alloc, register),
    }
}

fn stays_new(alloc: Global) -> Result<bool, Stop> {
    let register = new_register(alloc)?;
    is_copied_new(alloc, &register)
}

/// Checks that running out of memory leaves the original register unchanged.
pub fn out_of_memory_leaves_the_copied_register(alloc: Global) -> Result<(), Stop> {
    expect(stays_new(alloc)?, "the register", 0)
}

/// Checks if a copy prints the same fields as the original.
fn is_copied<T: Debug + Duplicate>(alloc: Global, value: &T) -> Result<bool, Stop> {
    let copied = fields(alloc, &value.copy(alloc)?)?;
    Ok(fields(alloc, value)?.as_str() == copied.as_str())
}

/// Checks if a register and another one are sound, and have one next number.
fn are_sound(alloc: Global, register: &Register, other: &Register) -> Result<bool, Stop> {
    Ok(
        register.next == other.next
            && fault(alloc, register)? == None
            && fault(alloc, other)? == None,
    )
}

fn copy_of(alloc: Global, register: &Register) -> Result<Register, Stop> {
    Ok(register.copy(alloc)?)
}

fn has_sound_copy(alloc: Global, register: &Register) -> Result<bool, Stop> {
    let copy = copy_of(alloc, register)?;
    are_sound(alloc, register, &copy)
}

fn is_well_copied(alloc: Global, register: &Register) -> Result<bool, Stop> {
    Ok(has_sound_copy(alloc, register)? && is_copied(alloc, register)?)
}

/// Returns a register of many records.
fn with_all(alloc: Global) -> Result<Register, Stop> {
    register_with(alloc, WITH_ALL)
}

/// Checks if a copy of a register of many records is alike and sound.
fn is_whole_copied(alloc: Global) -> Result<bool, Stop> {
    let register = with_all(alloc)?;
    is_well_copied(alloc, &register)
}

/// Checks that a register and its copy are alike and sound.
pub fn a_register_and_its_copy_are_alike_and_sound(alloc: Global) -> Result<(), Stop> {
    expect(is_whole_copied(alloc)?, "the copy", 0)
}

/// Checks if the copy of an object of a register is alike.
fn is_object_copied(
    alloc: Global,
    register: &Register,
    kind: Kind,
    number: u64,
) -> Result<bool, Stop> {
    match register.object(alloc, kind, number)? {
        Some(object) => is_copied::<Object>(alloc, &object),
        None => Ok(false),
    }
}

const OBJECTS: &[(Kind, u64)] = &[
    (Kind::Party, 1),
    (Kind::Party, ANNA),
    (Kind::Party, 5),
    (Kind::Unit, GARDEN),
    (Kind::Parcel, POND),
    (Kind::Rrr, LEASE),
    (Kind::Rrr, PATH),
    (Kind::Rrr, HEDGE),
    (Kind::Rrr, LOAN),
    (Kind::Source, DEED),
    (Kind::Mutation, 16),
    (Kind::Mutation, 17),
    (Kind::Mutation, 18),
];

/// Returns the number of objects are copied alike before the first that is not.
fn copied_rows(alloc: Global, register: &Register, rows: &[(Kind, u64)]) -> Result<usize, Stop> {
    for (place, row) in rows.iter().enumerate() {
        if !is_object_copied(alloc, register, row.0, row.1)? {
            return Ok(place);
        }
    }
    Ok(rows.len())
}

fn copied(alloc: Global, rows: &[(Kind, u64)]) -> Result<usize, Stop> {
    let register = with_all(alloc)?;
    copied_rows(alloc, &register, rows)
}

fn expect_copied(alloc: Global, rows: &[(Kind, u64)]) -> Result<(), Stop> {
    let copied = copied(alloc, rows)?;
    expect(copied == rows.len(), "row", copied)
}

/// Checks that a copied object has all fields.
pub fn a_copied_object_has_all_fields(alloc: Global) -> Result<(), Stop> {
    expect_copied(alloc, OBJECTS)
}
