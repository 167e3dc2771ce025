//! Randomly generated registers, for each keeper.
use crate::conclusion::conclude;
use std::test::Fail;
use testlib_keepers::random::registers;

#[test]
fn the_register_of_seed_1(rt: HostRuntime) -> Result<(), Fail> {
    conclude(&rt, registers::the_register_of_seed_1(rt.alloc()))
}

#[test]
fn the_register_of_seed_2(rt: HostRuntime) -> Result<(), Fail> {
    conclude(&rt, registers::the_register_of_seed_2(rt.alloc()))
}

#[test]
fn the_register_of_seed_3(rt: HostRuntime) -> Result<(), Fail> {
    conclude(&rt, registers::the_register_of_seed_3(rt.alloc()))
}
