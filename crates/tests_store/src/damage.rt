//! Stores that are opened as registers, and corrupted ones that are refused.
use crate::conclusion::conclude;
use std::test::Fail;
use testlib_tables::damage;

#[test]
fn damaged_tables_have_their_faults(rt: HostRuntime) -> Result<(), Fail> {
    conclude(&rt, damage::damaged_tables_have_their_faults(rt.alloc()))
}

#[test]
fn stores_of_others_are_520(rt: HostRuntime) -> Result<(), Fail> {
    conclude(&rt, damage::stores_of_others_are_520(rt.alloc()))
}
