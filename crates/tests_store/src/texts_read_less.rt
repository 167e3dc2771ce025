//! Lists from whole tables and with queries: `.ci/alloc-counts` counts the allocations of each.
use crate::conclusion::conclude;
use std::test::Fail;
use testlib_keepers::growths::texts_read_less;

#[test]
fn lists_by_tables(rt: HostRuntime) -> Result<(), Fail> {
    conclude(&rt, texts_read_less::lists_by_tables(&rt, rt.alloc()))
}

#[test]
fn lists_by_joins(rt: HostRuntime) -> Result<(), Fail> {
    conclude(&rt, texts_read_less::lists_by_joins(&rt, rt.alloc()))
}
