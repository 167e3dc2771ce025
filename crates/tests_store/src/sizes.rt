//! Sizes that no other test reaches. `.ci/oom-tests` omits them, since they allocate too often.
use crate::conclusion::conclude;
use std::test::Fail;
use testlib_keepers::sizes;

#[test]
fn a_long_list_is_returned(rt: HostRuntime) -> Result<(), Fail> {
    conclude(&rt, sizes::a_long_list_is_returned(rt.alloc()))
}

#[test]
fn a_large_circle_is_seen(rt: HostRuntime) -> Result<(), Fail> {
    conclude(&rt, sizes::a_large_circle_is_seen(rt.alloc()))
}

#[test]
fn a_long_extract_is_written(rt: HostRuntime) -> Result<(), Fail> {
    conclude(&rt, sizes::a_long_extract_is_written(rt.alloc()))
}
