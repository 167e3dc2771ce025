//! The small types return the values from which they were built.
use land_core::duplicate::Duplicate;
use land_core::mandates::{Mandate, Mandates};
use land_core::records::Records;
use land_core::role::Role;
use land_core::roles::{Grant, Roles};
use land_core::sequence::Sequence;
use land_core::text::Text;
use std::alloc::{AllocError, Global};
use std::test::Fail;

pub(super) fn text(alloc: Global, text: &str) -> Result<Text, AllocError> {
    Ok(Text::new(String::from_str(alloc, text)?))
}

fn is_text_given_back(alloc: Global, given: &str) -> Result<bool, AllocError> {
    let copy = text(alloc, given)?.copy(alloc)?;
    Ok(copy.into_string().as_str() == given)
}

#[test]
fn a_text_is_given_back(rt: HostRuntime) -> Result<(), Fail> {
    assert!(&rt; is_text_given_back(rt.alloc(), "Anna")?);
    Ok(())
}

fn is_list_given_back(alloc: Global, given: &[u64]) -> Result<bool, AllocError> {
    let copy = Sequence::from_vec(given.to_vec(alloc)?).copy(alloc)?;
    Ok(copy.into_vec().as_slice() == given)
}

fn is_list_of_one(alloc: Global, given: u64) -> Result<bool, AllocError> {
    let one = Sequence::of_one(alloc, given)?;
    Ok(one.as_slice() == [given].as_slice())
}

#[test]
fn a_list_is_given_back(rt: HostRuntime) -> Result<(), Fail> {
    assert!(&rt; is_list_given_back(rt.alloc(), &[3, 1, 2])? && is_list_of_one(rt.alloc(), 7)?);
    Ok(())
}

/// Returns records, one of which has ended.
fn records(alloc: Global) -> Result<Records<u64>, AllocError> {
    let mut records = Records::new(alloc);
    records.insert(7, 70)?;
    records.insert(8, 80)?;
    records.remove(7);
    Ok(Records::from_map(records.into_map()))
}

#[test]
fn records_are_given_back(rt: HostRuntime) -> Result<(), Fail> {
    let records = records(rt.alloc())?;
    assert!(&rt; records.get(7) == None && records.get(8) == Some(&80));
    Ok(())
}

const GRANT: Grant = Grant {
    party: 2,
    role: Role::Bank,
};

fn granted(alloc: Global) -> Result<Roles, AllocError> {
    let mut roles = Roles::new(alloc);
    roles.insert(GRANT)?;
    Ok(Roles::from_set(roles.into_set()))
}

#[test]
fn roles_are_given_back(rt: HostRuntime) -> Result<(), Fail> {
    let roles = granted(rt.alloc())?;
    assert!(&rt; roles.contains(GRANT) && !Roles::new(rt.alloc()).contains(GRANT));
    Ok(())
}

const MANDATE: Mandate = Mandate {
    principal: 2,
    agent: 3,
};

const TURNED: Mandate = Mandate {
    principal: 3,
    agent: 2,
};

fn given(alloc: Global) -> Result<Mandates, AllocError> {
    let mut mandates = Mandates::new(alloc);
    mandates.insert(MANDATE)?;
    Ok(Mandates::from_set(mandates.into_set()))
}

#[test]
fn mandates_are_given_back(rt: HostRuntime) -> Result<(), Fail> {
    let mandates = given(rt.alloc())?;
    assert!(&rt; mandates.contains(MANDATE) && !mandates.contains(TURNED));
    Ok(())
}
