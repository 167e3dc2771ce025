//! Tables in SQLite, row by row.
use crate::conclusion::conclude;
use std::test::Fail;
use testlib_store::rows::{openness, register, versions};

#[test]
fn a_store_is_open_when_out_of_memory(rt: HostRuntime) -> Result<(), Fail> {
    conclude(
        &rt,
        openness::a_store_is_open_when_out_of_memory(rt.alloc()),
    )
}

#[test]
fn a_new_register_has_its_first_rows(rt: HostRuntime) -> Result<(), Fail> {
    conclude(&rt, register::a_new_register_has_its_first_rows(rt.alloc()))
}

#[test]
fn versions_are_inserted_and_closed(rt: HostRuntime) -> Result<(), Fail> {
    conclude(&rt, versions::versions_are_inserted_and_closed(rt.alloc()))
}

#[test]
fn uncommitted_rows_do_not_exist(rt: HostRuntime) -> Result<(), Fail> {
    conclude(&rt, versions::uncommitted_rows_do_not_exist(rt.alloc()))
}
