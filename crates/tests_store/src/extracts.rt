//! Extracts, and rows that are lent one at a time.
use crate::conclusion::conclude;
use std::test::Fail;
use testlib_keepers::extracts::lent_rows;

#[test]
fn extract_rows(rt: HostRuntime) -> Result<(), Fail> {
    conclude(
        &rt,
        testlib_keepers::extracts::extract_rows::extract_rows(rt.alloc()),
    )
}

#[test]
fn extract_rows_of_joins(rt: HostRuntime) -> Result<(), Fail> {
    conclude(
        &rt,
        testlib_keepers::extracts::extract_rows::extract_rows_of_joins(rt.alloc()),
    )
}

#[test]
fn rows_are_lent_by_the_keeper_in_memory(rt: HostRuntime) -> Result<(), Fail> {
    conclude(
        &rt,
        lent_rows::rows_are_lent_by_the_keeper_in_memory(rt.alloc()),
    )
}

#[test]
fn rows_are_lent_by_joins(rt: HostRuntime) -> Result<(), Fail> {
    conclude(&rt, lent_rows::rows_are_lent_by_joins(rt.alloc()))
}
