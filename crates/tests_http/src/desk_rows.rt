//! Requests and replies as bytes, and streams of them.
use crate::conclusion::conclude;
use std::test::Fail;
use testlib_desk::desk::{
    exchanges, failures, last_reads, long_requests, long_streams, mandates, readings, replies,
    streams,
};

#[test]
fn requests_and_replies_as_bytes(rt: HostRuntime) -> Result<(), Fail> {
    conclude(&rt, exchanges::requests_and_replies_as_bytes(rt.alloc()))
}

#[test]
fn the_first_run(rt: HostRuntime) -> Result<(), Fail> {
    conclude(&rt, exchanges::the_first_run(rt.alloc()))
}

#[test]
fn readers_fail_at_each_byte(rt: HostRuntime) -> Result<(), Fail> {
    conclude(&rt, failures::readers_fail_at_each_byte(rt.alloc()))
}

#[test]
fn writers_fail_at_each_byte(rt: HostRuntime) -> Result<(), Fail> {
    conclude(&rt, failures::writers_fail_at_each_byte(rt.alloc()))
}

#[test]
fn bytes_are_sent(rt: HostRuntime) -> Result<(), Fail> {
    conclude(&rt, failures::bytes_are_sent(rt.alloc()))
}

#[test]
fn requests_have_limits(rt: HostRuntime) -> Result<(), Fail> {
    conclude(&rt, long_requests::requests_have_limits(rt.alloc()))
}

#[test]
fn bodies_have_depth_limits(rt: HostRuntime) -> Result<(), Fail> {
    conclude(&rt, long_requests::bodies_have_depth_limits(rt.alloc()))
}

#[test]
fn a_thousand_requests_are_answered(rt: HostRuntime) -> Result<(), Fail> {
    conclude(
        &rt,
        long_streams::a_thousand_requests_are_answered(rt.alloc()),
    )
}

#[test]
fn bytes_come_one_by_one(rt: HostRuntime) -> Result<(), Fail> {
    conclude(&rt, long_streams::bytes_come_one_by_one(rt.alloc()))
}

#[test]
fn mandates_as_bytes(rt: HostRuntime) -> Result<(), Fail> {
    conclude(&rt, mandates::mandates(rt.alloc()))
}

#[test]
fn a_list_is_read(rt: HostRuntime) -> Result<(), Fail> {
    conclude(&rt, readings::a_list_is_read(rt.alloc()))
}

#[test]
fn a_view_is_read(rt: HostRuntime) -> Result<(), Fail> {
    conclude(&rt, readings::a_view_is_read(rt.alloc()))
}

#[test]
fn an_enrolment_is_read(rt: HostRuntime) -> Result<(), Fail> {
    conclude(&rt, readings::an_enrolment_is_read(rt.alloc()))
}

#[test]
fn store_faults_have_their_bytes_without_memory(rt: HostRuntime) -> Result<(), Fail> {
    conclude(
        &rt,
        replies::store_faults_have_their_bytes_without_memory(rt.alloc()),
    )
}

#[test]
fn heads_have_limits(rt: HostRuntime) -> Result<(), Fail> {
    conclude(&rt, streams::heads_have_limits(rt.alloc()))
}

#[test]
fn streams_have_their_items(rt: HostRuntime) -> Result<(), Fail> {
    conclude(&rt, streams::streams_have_their_items(rt.alloc()))
}

#[test]
fn readers_fail(rt: HostRuntime) -> Result<(), Fail> {
    conclude(&rt, streams::readers_fail(rt.alloc()))
}

#[test]
fn read_ahead_is_not_read_again(rt: HostRuntime) -> Result<(), Fail> {
    conclude(&rt, streams::read_ahead_is_not_read_again(rt.alloc()))
}

#[test]
fn a_reader_is_not_called_after_the_last_reply(rt: HostRuntime) -> Result<(), Fail> {
    conclude(
        &rt,
        last_reads::a_reader_is_not_called_after_the_last_reply(rt.alloc()),
    )
}
