//! The register in tables.
use crate::conclusion::conclude;
use std::test::Fail;
use testlib_tables::tables::{again, continuing, creating, migrating, replies, rows, stamps};

#[test]
fn calls_that_lacked_memory_are_made_again(rt: HostRuntime) -> Result<(), Fail> {
    conclude(
        &rt,
        again::calls_that_lacked_memory_are_made_again(rt.alloc()),
    )
}

#[test]
fn a_register_is_made_in_an_empty_store(rt: HostRuntime) -> Result<(), Fail> {
    conclude(
        &rt,
        creating::a_register_is_made_in_an_empty_store(rt.alloc()),
    )
}

#[test]
fn a_register_is_made_once(rt: HostRuntime) -> Result<(), Fail> {
    conclude(&rt, creating::a_register_is_made_once(rt.alloc()))
}

#[test]
fn a_new_register_goes_on(rt: HostRuntime) -> Result<(), Fail> {
    conclude(&rt, continuing::a_new_register_goes_on(rt.alloc()))
}

#[test]
fn a_v1_register_is_migrated_once(rt: HostRuntime) -> Result<(), Fail> {
    conclude(&rt, migrating::a_v1_register_is_migrated_once(rt.alloc()))
}

#[test]
fn a_register_without_its_indexes_is_migrated(rt: HostRuntime) -> Result<(), Fail> {
    conclude(
        &rt,
        migrating::a_register_without_its_indexes_is_migrated(rt.alloc()),
    )
}

#[test]
fn callers_are_told_what_the_plain_keeper_tells(rt: HostRuntime) -> Result<(), Fail> {
    conclude(
        &rt,
        replies::callers_are_told_what_the_plain_keeper_tells(rt.alloc()),
    )
}

#[test]
fn tables_rows(rt: HostRuntime) -> Result<(), Fail> {
    conclude(&rt, rows::tables_rows(rt.alloc()))
}

#[test]
fn tables_rows_after_more(rt: HostRuntime) -> Result<(), Fail> {
    conclude(&rt, rows::tables_rows_after_more(rt.alloc()))
}

#[test]
fn tables_have_the_registers_of_the_plain_keeper(rt: HostRuntime) -> Result<(), Fail> {
    conclude(
        &rt,
        stamps::tables_have_the_registers_of_the_plain_keeper(rt.alloc()),
    )
}
