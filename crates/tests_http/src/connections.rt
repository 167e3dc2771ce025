//! Connections that are served sequentially.
use crate::conclusion::conclude;
use land_desk::service::connections::Connections;
use land_desk::service::serving::{ServiceFault, serve_connections};
use land_keep::plain_keeper::PlainKeeper;
use std::alloc::Global;
use std::rt::HostRuntime;
use std::test::Fail;
use testlib_scenario::calls::{CALLS, Call, Calls, expect_all_outputs, serve_calls, sinks};
use testlib_scenario::doubles::ClockReadings;
use testlib_scenario::stop::{Stop, expect};

/// Serves a number of connections with a new register.
pub(crate) fn serve_new_register<L: Connections>(
    alloc: Global,
    listener: &mut L,
    connections: u32,
) -> Result<Result<(), ServiceFault>, Stop> {
    let mut keeper = PlainKeeper::new(alloc)?;
    let mut clock = ClockReadings { left: &[] };
    Ok(serve_connections(alloc, listener, connections, &mut keeper, &mut clock))
}

/// Checks that serving a number of connections has this result, and that each of them gets its replies.
fn expect_served(
    alloc: Global,
    calls: &'static [Call],
    connections: u32,
    ending: Result<(), ServiceFault>,
) -> Result<(), Stop> {
    let mut sinks = sinks(alloc, calls)?;
    let mut all = Calls {
        calls,
        sinks: sinks.iter_mut(),
    };
    let mut keeper = PlainKeeper::new(alloc)?;
    let mut clock = ClockReadings { left: &[] };
    let serve_new_register = serve_calls(alloc, &mut all, connections, &mut keeper, &mut clock);
    expect(serve_new_register == ending, "the ending", 0)?;
    expect_all_outputs(calls, &sinks)
}

#[test]
fn a_dropped_connection_ends_only_itself(rt: HostRuntime) -> Result<(), Fail> {
    conclude(&rt, expect_served(rt.alloc(), CALLS, 5, Ok(())))
}

#[test]
fn a_failed_accept_is_reported(rt: HostRuntime) -> Result<(), Fail> {
    let outcome = expect_served(rt.alloc(), &CALLS[..1], 2, Err(ServiceFault::Accept));
    conclude(&rt, outcome)
}
