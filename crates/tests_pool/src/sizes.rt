//! Sizes that only these tests reach. `.ci/oom-tests` leaves them out, since they take long.
use crate::conclusion::conclude;
use crate::one_run::{Outcome, plain_output, serve_scripts};
use crate::requests::{BEN, CARLA, DORA, LIST};
use crate::scripts::Script;
use land_keep::plain_keeper::PlainKeeper;
use std::alloc::{AllocError, Global};
use std::collections::VecDeque;
use std::test::Fail;
use testlib_scenario::stop::{Stop, expect};

/// The longest body.
const BODY: usize = 1_048_576;

/// The head of an enrolment with such a body.
const LONG_HEAD: &[u8] =
    b"POST /acts/enrol HTTP/1.1\r\nRegister-Party: 1\r\nRegister-Role: stateAdministrator\r\nContent-Length: 1048576\r\n\r\n";

/// The start of the body. Spaces follow.
const LONG_BODY: &[u8] = b"{\"kind\":\"naturalPerson\",\"name\":\"Anna\"}";

/// Returns the input of the first connection: the enrolment, and a list.
fn first_input(alloc: Global) -> Result<Vec<u8>, AllocError> {
    let end = LONG_HEAD.len().saturating_add(LONG_BODY.len());
    let length = LONG_HEAD.len().saturating_add(BODY);
    let mut input = Vec::with_capacity(alloc, length.saturating_add(LIST.len()))?;
    input.extend_from_slice(LONG_HEAD)?;
    input.extend_from_slice(LONG_BODY)?;
    input.resize(input.len().saturating_add(length.saturating_sub(end)), b' ')?;
    input.extend_from_slice(LIST)?;
    Ok(input)
}

/// Returns the input of the second connection.
fn second_input(alloc: Global) -> Result<Vec<u8>, AllocError> {
    let mut input = Vec::new(alloc);
    for request in [BEN, LIST, CARLA, DORA] {
        input.extend_from_slice(request)?;
    }
    Ok(input)
}

/// Returns scripts of these inputs, which are read byte by byte.
fn scripts(alloc: Global, first: Vec<u8>, second: Vec<u8>) -> Result<VecDeque<Script>, AllocError> {
    let mut scripts = VecDeque::new(alloc);
    scripts.push_back(Script::new(alloc, first, &[1], &[])?)?;
    scripts.push_back(Script::new(alloc, second, &[1], &[])?)?;
    Ok(scripts)
}

/// Checks the output of a connection.
fn expect_replies(outcome: &Outcome, number: usize, wanted: &[u8]) -> Result<(), Stop> {
    match outcome.outputs.get(number) {
        Some(output) => expect(output.as_slice() == wanted, "the replies", number),
        None => Err(Stop::Mismatch("no such connection", number)),
    }
}

/// Serves a request with a body of 1 MiB that comes byte by byte, while the requests of another connection
/// are served before it.
fn long_body(alloc: Global) -> Result<(), Stop> {
    let first = first_input(alloc)?;
    let second = second_input(alloc)?;
    let mut plain = PlainKeeper::new(alloc)?;
    let second_replies = plain_output(alloc, &mut plain, &second)?;
    let first_replies = plain_output(alloc, &mut plain, &first)?;
    let scripts = scripts(alloc, first, second)?;
    let mut keeper = PlainKeeper::new(alloc)?;
    let outcome = serve_scripts(alloc, scripts, &[], 2, &mut keeper)?;
    expect(outcome.result == Ok(()), "the result", 0)?;
    let order = [1, 1, 1, 1, 0, 0];
    expect(
        outcome.served.as_slice() == order.as_slice(),
        "the order",
        0,
    )?;
    for ending in &outcome.endings {
        expect(ending.complete, "a complete connection", ending.number)?;
    }
    expect_replies(&outcome, 0, &first_replies.taken)?;
    expect_replies(&outcome, 1, &second_replies.taken)
}

#[test]
fn a_body_of_a_mebibyte_comes_byte_by_byte(rt: HostRuntime) -> Result<(), Fail> {
    conclude(&rt, long_body(rt.alloc()))
}
