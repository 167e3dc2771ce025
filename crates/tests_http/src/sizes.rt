//! Sizes that only these tests reach. `.ci/oom-tests` leaves them out, since they allocate too often.
use crate::conclusion::conclude;
use std::test::Fail;
use testlib_desk::desk::{failures, long_streams};

#[test]
fn twenty_thousand_requests_are_answered(rt: HostRuntime) -> Result<(), Fail> {
    conclude(
        &rt,
        long_streams::twenty_thousand_requests_are_answered(rt.alloc()),
    )
}

#[test]
fn long_pieces_are_sent(rt: HostRuntime) -> Result<(), Fail> {
    conclude(&rt, failures::long_pieces_are_sent(rt.alloc()))
}
