//! Mandates as bytes, after the first twelve steps of the scenario.
use crate::desk::office::Office;
use land_keep::plain_keeper::PlainKeeper;
use std::alloc::{AllocError, Global};
use testlib_scenario::mandates::MANDATES;
use testlib_scenario::scenario::STEPS;
use testlib_scenario::stop::Stop;
use testlib_scenario::talk::ExpectedReply::Fault;
use testlib_scenario::talk::{ANNA, BEN, NOTARY, Row, Transcript};

/// Bodies are read before the policy is checked: kinds of fields, and which fields exist.
const READING: &[Row] = &[
    Row("POST /acts/mandate", ANNA, b"", Fault(130)),
    Row("POST /acts/mandate", ANNA, b"{}", Fault(131)),
    Row(
        "POST /acts/mandate",
        NOTARY,
        br#"{"principal":2,"agent":5}"#,
        Fault(131),
    ),
    Row("POST /acts/mandate", ANNA, br#"{"agent":"5"}"#, Fault(131)),
    Row("POST /acts/mandate", ANNA, br#"{"agent":0}"#, Fault(132)),
    Row("POST /acts/withdraw", BEN, br#"{"agent":5}"#, Fault(131)),
    Row(
        "POST /acts/withdraw",
        BEN,
        br#"{"principal":1.0,"agent":"5"}"#,
        Fault(132),
    ),
    Row("GET /acts/mandate", ANNA, b"", Fault(137)),
];

fn talk(alloc: Global) -> Result<Transcript, AllocError> {
    let mut talk = Transcript::new(alloc)?;
    for (place, step) in STEPS.iter().take(12).enumerate() {
        talk.ask("the scenario", place, step)?;
    }
    talk.ask_all("mandates", MANDATES)?;
    talk.ask_all("reading", READING)?;
    Ok(talk)
}

/// Returns the name and the index of the first request whose reply differs.
fn first_mismatch(alloc: Global) -> Result<Option<(&'static str, usize)>, Stop> {
    let talk = talk(alloc)?;
    let mut keeper = PlainKeeper::new(alloc)?;
    let mut office = Office::of(&mut keeper);
    office.first_mismatch(alloc, &talk, 1000)
}

/// Checks that mandates are created and withdrawn, that a citizen sees by them, and that bodies are read.
pub fn mandates(alloc: Global) -> Result<(), Stop> {
    match first_mismatch(alloc)? {
        Some((name, place)) => Err(Stop::Mismatch(name, place)),
        None => Ok(()),
    }
}
