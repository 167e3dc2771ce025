//! A request from a draft, and its replies.
use crate::random::dice::Dice;
use crate::random::drafts::{ANYBODY, DRAFTS, Draft, THROWS};
use crate::random::drawn::Drawn;
use crate::random::tally::Tally;
use crate::serving::serve_stream;
use land_desk::serve::DeskFault;
use land_keep::keeper::Keeper;
use std::alloc::{AllocError, Global};
use testlib_scenario::doubles::Sink;
use testlib_scenario::run_scenario::open_sink;
use testlib_scenario::stop::{Stop, expect};

/// The end of a reply of error 501.
const NO_ROOM: &[u8] = b"{\"store\":501}";

/// A request, the reply of the register in memory, and the reply of another keeper.
#[derive(Drop)]
pub struct Page {
    body: String,
    pub request: String,
    pub told: Sink,
    pub other: Sink,
    pub tally: Tally,
}

/// Writes a text, with a random value for each mark.
fn fill(output: &mut String, text: &str, drawn: &Drawn) -> Result<(), AllocError> {
    for mark in text.chars() {
        match drawn.number(mark) {
            Some(number) => write!(output, "{number}")?,
            None if mark == '_' => output.push_str(drawn.role)?,
            None => output.push(mark)?,
        }
    }
    Ok(())
}

/// Returns the draft of a throw.
fn draft_of(throw: u32) -> Option<&'static Draft> {
    DRAFTS.iter().find(|draft| throw < draft.0)
}

impl Page {
    /// Returns an empty page.
    pub fn new(alloc: Global) -> Result<Page, AllocError> {
        Ok(Page {
            body: String::with_capacity(alloc, 2048)?,
            request: String::with_capacity(alloc, 2048)?,
            told: open_sink(alloc, 2048)?,
            other: open_sink(alloc, 2048)?,
            tally: Tally::new(),
        })
    }

    /// Writes the request of a draft, sometimes with a random caller.
    pub fn write(&mut self, dice: &mut Dice, drawn: &Drawn) -> Result<(), AllocError> {
        let Some(draft) = draft_of(dice.throw(THROWS)) else {
            return Ok(());
        };
        let caller = if dice.throw(10) == 0 {
            ANYBODY
        } else {
            draft.2
        };
        self.body.clear();
        fill(&mut self.body, draft.3, drawn)?;
        self.request.clear();
        fill(&mut self.request, draft.1, drawn)?;
        self.request.push_str(" HTTP/1.1\r\n")?;
        fill(&mut self.request, caller, drawn)?;
        let length = self.body.len();
        write!(self.request, "Content-Length: {length}\r\n\r\n")?;
        self.request.push_str(self.body.as_str())
    }

    /// Checks if the other keeper returned the same reply.
    pub fn is_alike(&self) -> bool {
        self.told.taken.as_slice() == self.other.taken.as_slice()
    }
}

/// Fails if a reply is a store error.
fn expect_store(told: &[u8]) -> Result<(), Stop> {
    if told.ends_with(NO_ROOM) {
        return Err(Stop::Memory);
    }
    expect(!told.starts_with(b"HTTP/1.1 5"), "a fault of the store", 0)
}

/// Returns a keeper's reply to one request, with the clock at 1000.
pub fn tell<K: Keeper>(
    alloc: Global,
    keeper: &mut K,
    request: &str,
    told: &mut Sink,
) -> Result<(), Stop> {
    match serve_stream(alloc, keeper, request.as_bytes(), told) {
        Ok(served) => expect(served.replies == 1, "replies", 0)?,
        Err(DeskFault::NoMemory) => return Err(Stop::Memory),
        Err(_) => return Err(Stop::Call),
    }
    expect_store(&told.taken)
}
