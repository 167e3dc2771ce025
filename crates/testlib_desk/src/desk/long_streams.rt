//! Streams of a thousand and of twenty thousand requests in one input, and one that arrives byte by byte.
use crate::desk::office::{Office, is_answered};
use land_keep::plain_keeper::PlainKeeper;
use std::alloc::{AllocError, Global};
use std::fmt::Write;
use testlib_scenario::scenario::STEPS;
use testlib_scenario::stop::{Stop, expect};
use testlib_scenario::talk::{ExpectedReply, Transcript};

/// The number of parties to enrol, each with a hundred requests: the enrolment, a list, and 98 without a
/// route.
const PARTIES: u64 = 10;

/// The same for the longest stream.
const MANY_PARTIES: u64 = 200;

const ENROLMENT: &[u8] =
    b"POST /acts/enrol HTTP/1.1\r\nRegister-Party: 1\r\nRegister-Role: stateAdministrator\r\nContent-Length: 38\r\n\r\n{\"kind\":\"naturalPerson\",\"name\":\"Anna\"}";

const LIST: &[u8] =
    b"GET /parties HTTP/1.1\r\nRegister-Party: 1\r\nRegister-Role: stateAdministrator\r\n\r\n";

const NO_ROUTE: &[u8] = b"GET / HTTP/1.1\r\n\r\n";

/// Appends the enrolment of a party: party 2 at 1000, each next one a millisecond later.
fn ask_enrolment(talk: &mut Transcript, text: &mut String, party: u64) -> Result<(), AllocError> {
    let stamp = party.saturating_add(998);
    text.clear();
    write!(
        text,
        "{{\"made\":[{party}],\"number\":{party},\"stamp\":{stamp}}}"
    )?;
    talk.input.extend_from_slice(ENROLMENT)?;
    talk.expect_object(text.as_str())
}

/// Appends the list of the parties up to this one.
fn ask_list(talk: &mut Transcript, text: &mut String, party: u64) -> Result<(), AllocError> {
    text.clear();
    text.push_str("{\"numbers\":[1")?;
    for number in 2..=party {
        write!(text, ",{number}")?;
    }
    text.push_str("]}")?;
    talk.input.extend_from_slice(LIST)?;
    talk.expect_object(text.as_str())
}

fn ask_a_hundred(talk: &mut Transcript, text: &mut String, party: u64) -> Result<(), AllocError> {
    ask_enrolment(talk, text, party)?;
    ask_list(talk, text, party)?;
    for _ in 0..98 {
        talk.input.extend_from_slice(NO_ROUTE)?;
        talk.tell(ExpectedReply::Fault(136), false)?;
    }
    Ok(())
}

/// Checks that the requests of these parties get their replies.
fn are_hundreds_answered(alloc: Global, parties: u64) -> Result<bool, Stop> {
    let mut talk = Transcript::new(alloc)?;
    let mut text = String::with_capacity(alloc, 256)?;
    for place in 0..parties {
        ask_a_hundred(&mut talk, &mut text, place.saturating_add(2))?;
    }
    let replies = parties.saturating_mul(100);
    is_answered(alloc, &talk.input, 65536, replies, talk.output.as_bytes())
}

/// Checks a thousand requests in one input.
pub fn a_thousand_requests_are_answered(alloc: Global) -> Result<(), Stop> {
    expect(are_hundreds_answered(alloc, PARTIES)?, "a thousand", 0)
}

/// Checks twenty thousand requests in one input.
pub fn twenty_thousand_requests_are_answered(alloc: Global) -> Result<(), Stop> {
    let answered = are_hundreds_answered(alloc, MANY_PARTIES)?;
    expect(answered, "twenty thousand", 0)
}

/// Returns the name and the index of the first of ten requests whose reply differs if bytes arrive one at a
/// time.
fn wrong_byte_by_byte(alloc: Global) -> Result<Option<(&'static str, usize)>, Stop> {
    let mut talk = Transcript::new(alloc)?;
    for (place, step) in STEPS.iter().take(10).enumerate() {
        talk.ask("the scenario", place, step)?;
    }
    let mut keeper = PlainKeeper::new(alloc)?;
    let mut office = Office::of(&mut keeper);
    office.first_mismatch(alloc, &talk, 1)
}

/// Checks requests that arrive byte by byte.
pub fn bytes_come_one_by_one(alloc: Global) -> Result<(), Stop> {
    match wrong_byte_by_byte(alloc)? {
        Some((name, place)) => Err(Stop::Mismatch(name, place)),
        None => Ok(()),
    }
}
