//! Malformed and extreme input, for each keeper.
use crate::conclusion::conclude;
use std::test::Fail;
use testlib_keepers::hostile;

#[test]
fn every_cut(rt: HostRuntime) -> Result<(), Fail> {
    conclude(&rt, hostile::every_cut::every_cut(rt.alloc()))
}

#[test]
fn every_write(rt: HostRuntime) -> Result<(), Fail> {
    conclude(&rt, hostile::every_write::every_write(rt.alloc()))
}

#[test]
fn the_largest_registration_is_accepted(rt: HostRuntime) -> Result<(), Fail> {
    conclude(
        &rt,
        hostile::largest::the_largest_registration_is_accepted(rt.alloc()),
    )
}
