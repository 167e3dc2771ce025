//! The view of a small register by each role, with queries.
use crate::conclusion::conclude;
use std::test::Fail;
use testlib_store::joins::sights;

#[test]
fn a_small_register_is_seen_by_role(rt: HostRuntime) -> Result<(), Fail> {
    conclude(&rt, sights::a_small_register_is_seen_by_role(rt.alloc()))
}
