//! Verdicts, objects, title sheets and slices, read from whole tables and with queries, and objects and
//! sheets after their verdict: `.ci/alloc-counts` counts the allocations of each.
use crate::conclusion::conclude;
use std::test::Fail;
use testlib_keepers::growths::{calls_read_less, once};

#[test]
fn calls_by_tables(rt: HostRuntime) -> Result<(), Fail> {
    conclude(&rt, calls_read_less::calls_by_tables(&rt, rt.alloc()))
}

#[test]
fn calls_by_joins(rt: HostRuntime) -> Result<(), Fail> {
    conclude(&rt, calls_read_less::calls_by_joins(&rt, rt.alloc()))
}

#[test]
fn replies_by_joins(rt: HostRuntime) -> Result<(), Fail> {
    conclude(&rt, once::replies_by_joins(&rt, rt.alloc()))
}
