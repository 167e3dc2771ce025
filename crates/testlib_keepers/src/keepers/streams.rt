//! Streams that end within a request, and heads at the size limit.
use std::alloc::{AllocError, Global};
use testlib_scenario::talk::ExpectedReply::{self, Fault, Shown};
use testlib_scenario::talk::{ENROL, OFFICE, Row, Transcript};

const NAME: &str = "streams";

/// The size limit of a head, in bytes.
const LONGEST_HEAD: usize = 8192;

const ENROLLED: Row = Row(
    "POST /acts/enrol",
    OFFICE,
    ENROL,
    Shown(r#"{"made":[2],"number":2,"stamp":1000}"#),
);

/// The same request without the last byte of its body.
const CUT: &[u8] =
    b"POST /acts/enrol HTTP/1.1\r\nRegister-Party: 1\r\nRegister-Role: stateAdministrator\r\nContent-Length: 38\r\n\r\n{\"kind\":\"naturalPerson\",\"name\":\"Anna\"";

/// The start of a head that lists the parties, up to its padding.
const LISTING: &[u8] =
    b"GET /parties HTTP/1.1\r\nRegister-Party: 1\r\nRegister-Role: stateAdministrator\r\nPadding: ";

const END_OF_HEAD: &[u8] = b"\r\n\r\n";

/// Adds the reply to the input since the row before.
fn push_reply(talk: &mut Transcript, told: ExpectedReply, ends: bool) -> Result<(), AllocError> {
    talk.tell(told, ends)?;
    let place = talk.marks.len();
    talk.mark(NAME, place)
}

/// Adds a head of the given length, which lists the parties.
fn push_head(talk: &mut Transcript, length: usize) -> Result<(), AllocError> {
    talk.input.extend_from_slice(LISTING)?;
    for _ in LISTING.len() + END_OF_HEAD.len()..length {
        talk.input.push(b'a')?;
    }
    talk.input.extend_from_slice(END_OF_HEAD)
}

/// An enrolment, and the same again, which ends a byte too early.
pub(crate) fn cut_in_a_body(alloc: Global) -> Result<Transcript, AllocError> {
    let mut talk = Transcript::new(alloc)?;
    talk.ask(NAME, 0, &ENROLLED)?;
    talk.input.extend_from_slice(CUT)?;
    push_reply(&mut talk, Fault(144), true)?;
    Ok(talk)
}

/// An enrolment, then a head at the size limit, and one that is a byte longer.
pub(crate) fn heads_at_their_limit(alloc: Global) -> Result<Transcript, AllocError> {
    let mut talk = Transcript::new(alloc)?;
    talk.ask(NAME, 0, &ENROLLED)?;
    push_head(&mut talk, LONGEST_HEAD)?;
    push_reply(&mut talk, Shown(r#"{"numbers":[1,2]}"#), false)?;
    push_head(&mut talk, LONGEST_HEAD + 1)?;
    push_reply(&mut talk, Fault(141), true)?;
    Ok(talk)
}
