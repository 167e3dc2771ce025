//! Connections that are served at once.
use crate::conclusion::conclude;
use crate::one_run::{Talk, expect_one_run, scripts};
use crate::requests::{BEN, CARLA, DORA, EMIL, FAULTY, FINN, LIST, TRUNCATED};
use std::alloc::Global;
use std::test::Fail;
use testlib_scenario::first::ENROL_ANNA_REQUEST;
use testlib_scenario::stop::{Stop, expect};

/// Many connections, some without any request.
pub(crate) const SEVEN: &[Talk] = &[
    Talk {
        requests: &[ENROL_ANNA_REQUEST, BEN, LIST],
        last: b"",
    },
    Talk {
        requests: &[],
        last: b"",
    },
    Talk {
        requests: &[CARLA],
        last: TRUNCATED,
    },
    Talk {
        requests: &[],
        last: FAULTY,
    },
    Talk {
        requests: &[LIST, DORA, LIST, EMIL],
        last: b"",
    },
    Talk {
        requests: &[FINN],
        last: FAULTY,
    },
    Talk {
        requests: &[],
        last: TRUNCATED,
    },
];

/// Serves the connections three at once, in chunks of odd sizes.
fn three_at_once(alloc: Global) -> Result<(), Stop> {
    let scripts = scripts(alloc, SEVEN, &[7, 0, 130, 0, 0, 1], &[50, 0, 3])?;
    expect_one_run(alloc, SEVEN, scripts, &[], 3, None)?;
    Ok(())
}

#[test]
fn seven_connections_three_at_once(rt: HostRuntime) -> Result<(), Fail> {
    conclude(&rt, three_at_once(rt.alloc()))
}

/// Checks that one connection at once is served before the next one is accepted.
fn one_at_once(alloc: Global) -> Result<(), Stop> {
    let scripts = scripts(alloc, SEVEN, &[1, 0], &[1, 0])?;
    let served = expect_one_run(alloc, SEVEN, scripts, &[], 1, None)?;
    let order = [0, 0, 0, 2, 2, 3, 4, 4, 4, 4, 5, 5, 6];
    expect(served.as_slice() == order.as_slice(), "the order", 0)
}

#[test]
fn one_at_once_is_one_after_another(rt: HostRuntime) -> Result<(), Fail> {
    conclude(&rt, one_at_once(rt.alloc()))
}
