//! The command `serve`.
use crate::conclusion::conclude;
use std::test::Fail;
use testlib_store::town;

#[test]
fn a_command_serves_connections(rt: HostRuntime) -> Result<(), Fail> {
    conclude(&rt, town::a_command_serves_connections(rt.alloc()))
}

#[test]
fn a_failed_accept_ends_the_command(rt: HostRuntime) -> Result<(), Fail> {
    conclude(&rt, town::a_failed_accept_ends_the_command(rt.alloc()))
}

#[test]
fn a_command_serves_connections_at_once(rt: HostRuntime) -> Result<(), Fail> {
    conclude(&rt, town::a_command_serves_connections_at_once(rt.alloc()))
}

#[test]
fn a_failed_wait_ends_the_command(rt: HostRuntime) -> Result<(), Fail> {
    conclude(&rt, town::a_failed_wait_ends_the_command(rt.alloc()))
}
