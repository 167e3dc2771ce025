//! Connections of which one blocks or breaks at each byte, while another is served.
use crate::conclusion::conclude;
use crate::one_run::{Talk, expect_one_run, scripts};
use crate::requests::{BEN, CARLA, DORA, LIST};
use crate::scripts::copy;
use std::alloc::Global;
use std::test::Fail;
use testlib_scenario::first::ENROL_ANNA_REQUEST;
use testlib_scenario::stop::{Stop, expect};

/// The first connection blocks or breaks. The second one has more requests.
const TALKS: &[Talk] = &[
    Talk {
        requests: &[ENROL_ANNA_REQUEST, LIST, BEN],
        last: b"",
    },
    Talk {
        requests: &[LIST, CARLA, LIST, DORA, LIST],
        last: b"",
    },
];

/// Returns the length of the input of the first connection.
fn input_length() -> usize {
    let mut length = 0usize;
    for request in TALKS[0].requests {
        length = length.saturating_add(request.len());
    }
    length
}

/// Checks that both connections are served if each read or write of the first one would block once after this
/// number of bytes, and after each byte of the second one.
fn blocked(alloc: Global, bytes: usize) -> Result<(), Stop> {
    let sizes = [bytes.max(1), 0, 0, usize::MAX];
    let mut scripts = scripts(alloc, TALKS, &[1, 0], &[])?;
    if let Some(first) = scripts.front_mut() {
        first.reads = copy(alloc, &sizes)?;
        first.writes = copy(alloc, &sizes)?;
    }
    expect_one_run(alloc, TALKS, scripts, &[], 2, None)?;
    Ok(())
}

/// Checks a block after each byte.
fn each_block(alloc: Global) -> Result<(), Stop> {
    for bytes in 0..input_length().saturating_add(2) {
        blocked(alloc, bytes)?;
    }
    Ok(())
}

#[test]
fn reads_and_writes_block_after_each_byte(rt: HostRuntime) -> Result<(), Fail> {
    conclude(&rt, each_block(rt.alloc()))
}

/// Checks writers that accept this number of bytes at a time, and then block.
fn each_size_of_writes(alloc: Global) -> Result<(), Stop> {
    for size in 1..120usize {
        let sizes = [size, 0];
        let scripts = scripts(alloc, TALKS, &[], &sizes)?;
        expect_one_run(alloc, TALKS, scripts, &[], 2, None)?;
    }
    Ok(())
}

#[test]
fn writers_accept_some_bytes_at_a_time(rt: HostRuntime) -> Result<(), Fail> {
    conclude(&rt, each_size_of_writes(rt.alloc()))
}

/// Returns the number of requests of the first connection that end within this number of bytes.
fn requests_within(bytes: usize) -> usize {
    let mut end = 0usize;
    let mut count = 0usize;
    for request in TALKS[0].requests {
        end = end.saturating_add(request.len());
        if end <= bytes {
            count = count.saturating_add(1);
        }
    }
    count
}

/// Checks that a reader which fails after this number of bytes has the requests before that served, and no
/// other.
fn unreadable(alloc: Global, bytes: usize, reads: &[usize]) -> Result<(), Stop> {
    let mut scripts = scripts(alloc, TALKS, reads, &[])?;
    if let Some(first) = scripts.front_mut() {
        first.readable = bytes;
    }
    let served = expect_one_run(alloc, TALKS, scripts, &[], 2, Some(0))?;
    let requests = served.iter().filter(|number| **number == 0).count();
    let within = requests_within(bytes);
    if requests < within {
        return Err(Stop::Memory);
    }
    expect(requests == within, "requests", bytes)
}

/// Checks readers that fail after each byte, the last one included.
fn each_unreadable(alloc: Global) -> Result<(), Stop> {
    for bytes in 0..=input_length() {
        unreadable(alloc, bytes, &[])?;
        unreadable(alloc, bytes, &[3, 0])?;
    }
    Ok(())
}

#[test]
fn readers_fail_after_each_byte(rt: HostRuntime) -> Result<(), Fail> {
    conclude(&rt, each_unreadable(rt.alloc()))
}

/// The length of the output of the first connection: two receipts, and a list of two parties.
const OUTPUT_LENGTH: usize = 107 + 88 + 107;

/// Checks that a writer which fails after this number of bytes has a prefix of the replies.
fn unwritable(alloc: Global, bytes: usize, broken: Option<usize>) -> Result<(), Stop> {
    let mut scripts = scripts(alloc, TALKS, &[], &[])?;
    if let Some(first) = scripts.front_mut() {
        first.writable = bytes;
    }
    expect_one_run(alloc, TALKS, scripts, &[], 2, broken)?;
    Ok(())
}

/// Checks writers that fail after each byte of the output. If no byte is left, the connection is complete.
fn each_unwritable(alloc: Global) -> Result<(), Stop> {
    for bytes in 0..OUTPUT_LENGTH {
        unwritable(alloc, bytes, Some(0))?;
    }
    unwritable(alloc, OUTPUT_LENGTH, None)
}

#[test]
fn writers_fail_after_each_byte(rt: HostRuntime) -> Result<(), Fail> {
    conclude(&rt, each_unwritable(rt.alloc()))
}
