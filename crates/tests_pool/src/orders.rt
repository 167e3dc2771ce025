//! Connections that are served at once, in each order of their turns.
use crate::conclusion::conclude;
use crate::connections::SEVEN;
use crate::one_run::{Talk, expect_one_run, scripts};
use crate::requests::{BEN, CARLA, DORA, EMIL, FAULTY, LIST, TRUNCATED};
use std::alloc::Global;
use std::test::Fail;
use testlib_scenario::first::ENROL_ANNA_REQUEST;
use testlib_scenario::stop::{Stop, expect};

/// Two connections with three requests each.
const TWO: &[Talk] = &[
    Talk {
        requests: &[ENROL_ANNA_REQUEST, LIST, BEN],
        last: b"",
    },
    Talk {
        requests: &[CARLA, DORA, LIST],
        last: b"",
    },
];

/// Three connections with two requests each. The input of the second one ends with a truncated request, that
/// of the third one with a fault.
const THREE: &[Talk] = &[
    Talk {
        requests: &[ENROL_ANNA_REQUEST, BEN],
        last: b"",
    },
    Talk {
        requests: &[CARLA, LIST],
        last: TRUNCATED,
    },
    Talk {
        requests: &[DORA, EMIL],
        last: FAULTY,
    },
];

/// Sizes of chunks, some of which would block: everything; byte by byte; with a block after each byte; odd
/// sizes.
const SIZES: &[&[usize]] = &[&[], &[1], &[1, 0], &[7, 0, 130, 0, 0, 1]];

/// Sets the six turns to the digits of a number. Returns whether each of the connections has equally many
/// turns.
fn set_turns(turns: &mut [usize], number: usize, connections: usize) -> bool {
    let mut left = number;
    for turn in turns.iter_mut() {
        *turn = left.checked_rem(connections).unwrap_or(0);
        left = left.checked_div(connections).unwrap_or(0);
    }
    for connection in 0..connections {
        let count = turns.iter().filter(|turn| **turn == connection).count();
        if count.saturating_mul(connections) != turns.len() {
            return false;
        }
    }
    true
}

/// Serves connections, all at once, with these turns first.
fn expect_turns(
    alloc: Global,
    talks: &'static [Talk],
    turns: &[usize],
    reads: &[usize],
    writes: &[usize],
) -> Result<(), Stop> {
    let scripts = scripts(alloc, talks, reads, writes)?;
    let served = expect_one_run(alloc, talks, scripts, turns, talks.len(), None)?;
    // A turn serves one item, if it can be read. So the requests are served in the order of the turns.
    expect(
        !reads.is_empty() || served.starts_with(turns),
        "the order",
        0,
    )
}

/// Checks all orders of the six turns of these connections, of which there are `orders`.
fn expect_orders(
    alloc: Global,
    talks: &'static [Talk],
    codes: usize,
    orders: usize,
) -> Result<(), Stop> {
    let mut turns = [0; 6];
    let mut count = 0usize;
    for code in 0..codes {
        if set_turns(&mut turns, code, talks.len()) {
            count = count.saturating_add(1);
            for reads in SIZES {
                expect_turns(alloc, talks, &turns, reads, &[])?;
            }
        }
    }
    expect(count == orders, "the number of orders", count)
}

#[test]
fn two_connections_in_each_order(rt: HostRuntime) -> Result<(), Fail> {
    conclude(&rt, expect_orders(rt.alloc(), TWO, 64, 20))
}

#[test]
fn three_connections_in_each_order(rt: HostRuntime) -> Result<(), Fail> {
    conclude(&rt, expect_orders(rt.alloc(), THREE, 729, 90))
}

/// Serves connections with each limit of those that are open at the same time, and each pair of sizes.
fn each_limit(alloc: Global) -> Result<(), Stop> {
    for at_once in 1..9usize {
        for reads in SIZES {
            for writes in SIZES {
                let scripts = scripts(alloc, SEVEN, reads, writes)?;
                expect_one_run(alloc, SEVEN, scripts, &[], at_once, None)?;
            }
        }
    }
    Ok(())
}

#[test]
fn seven_connections_with_each_limit(rt: HostRuntime) -> Result<(), Fail> {
    conclude(&rt, each_limit(rt.alloc()))
}
