//! Checks that connections which were served at once had the replies of one run: those of a plain keeper that
//! gets the items in the order in which they were served.
use crate::scripts::{Record, RecordingClock, Script, ScriptedEnding, ScriptedSource};
use land_core::kind::Kind;
use land_core::object::Object;
use land_desk::serve::serve;
use land_keep::keeper::Keeper;
use land_keep::plain_keeper::PlainKeeper;
use land_pool::pool::{PoolFault, serve_at_once};
use std::alloc::{AllocError, Global};
use std::collections::VecDeque;
use testlib_scenario::doubles::{ChunkReader, ClockReadings, Sink};
use testlib_scenario::run_scenario::open_sink;
use testlib_scenario::stop::{Stop, expect};
use testlib_scenario::talk::common;

/// The input of a connection: requests, and at the end bytes that are no request or a truncated one, if any.
#[derive(Clone, Copy)]
pub(crate) struct Talk {
    pub(crate) requests: &'static [&'static [u8]],
    pub(crate) last: &'static [u8],
}

/// The response to a request if out of memory. The connection stays open.
const NO_MEMORY: &[u8] =
    b"HTTP/1.1 503 Service Unavailable\r\nContent-Type: application/json\r\nContent-Length: 13\r\n\r\n{\"store\":501}";

/// The same to the bytes after the requests. The connection closes.
const LAST_NO_MEMORY: &[u8] =
    b"HTTP/1.1 503 Service Unavailable\r\nContent-Type: application/json\r\nContent-Length: 13\r\nConnection: close\r\n\r\n{\"store\":501}";

/// The start of each response for a store fault.
pub(crate) const STORE_FAULT: &[u8] = b"HTTP/1.1 503 ";

impl Talk {
    /// Returns the bytes of the input.
    fn input(&self, alloc: Global) -> Result<Vec<u8>, AllocError> {
        let mut input = Vec::new(alloc);
        for request in self.requests {
            input.extend_from_slice(request)?;
        }
        input.extend_from_slice(self.last)?;
        Ok(input)
    }

    /// Returns the number of items: its requests, and the bytes after them if there are any.
    fn items(&self) -> usize {
        let last = usize::from(!self.last.is_empty());
        self.requests.len().saturating_add(last)
    }

    /// Returns the item at a place, and its response if out of memory.
    fn item(&self, place: usize) -> Option<(&'static [u8], &'static [u8])> {
        if place >= self.items() {
            return None;
        }
        match self.requests.get(place) {
            Some(request) => Some((*request, NO_MEMORY)),
            None => Some((self.last, LAST_NO_MEMORY)),
        }
    }
}

/// Returns scripts of these connections in which nothing fails, with these sizes of the chunks that are read
/// and written.
pub(crate) fn scripts(
    alloc: Global,
    talks: &'static [Talk],
    reads: &[usize],
    writes: &[usize],
) -> Result<VecDeque<Script>, AllocError> {
    let mut scripts = VecDeque::new(alloc);
    for talk in talks {
        let input = talk.input(alloc)?;
        scripts.push_back(Script::new(alloc, input, reads, writes)?)?;
    }
    Ok(scripts)
}

/// Serves a stream on a plain keeper, and returns the output.
pub(crate) fn plain_output(
    alloc: Global,
    keeper: &mut PlainKeeper,
    input: &[u8],
) -> Result<Sink, Stop> {
    let mut reader = ChunkReader {
        left: input,
        piece: 4096,
        reads: u64::MAX,
    };
    let mut sink = open_sink(alloc, 4096)?;
    let mut clock = ClockReadings { left: &[] };
    match serve(alloc, &mut reader, &mut sink, keeper, &mut clock) {
        Err(_) => Err(Stop::Memory),
        Ok(_) if sink.taken.starts_with(STORE_FAULT) => Err(Stop::Memory),
        Ok(_) => Ok(sink),
    }
}

/// Checks if two keepers have the same party with a number, or none.
fn have_same_party(
    alloc: Global,
    keeper: &mut PlainKeeper,
    plain: &mut PlainKeeper,
    number: u64,
) -> Result<bool, Stop> {
    let last = plain.last();
    let found = keeper.object(alloc, Kind::Party, number, last)?;
    let wanted = plain.object(alloc, Kind::Party, number, last)?;
    match (found, wanted) {
        (None, None) => Ok(true),
        (Some(Object::Party(one)), Some(Object::Party(other))) => {
            Ok(one.name.as_str() == other.name.as_str())
        }
        _ => Ok(false),
    }
}

/// Checks that two keepers have the same last stamp and the same parties, of which there are fewer than 15.
fn expect_same_register(
    alloc: Global,
    keeper: &mut PlainKeeper,
    plain: &mut PlainKeeper,
) -> Result<(), Stop> {
    expect(keeper.last() == plain.last(), "the last stamp", 0)?;
    for number in 1..16u64 {
        let is_same = have_same_party(alloc, keeper, plain, number)?;
        expect(is_same, "the register", number as usize)?;
    }
    Ok(())
}

/// A connection as far as it is checked.
#[derive(Clone, Copy)]
struct Checked {
    /// The number of its items that were served.
    items: usize,
    /// The number of bytes of its output that were expected.
    bytes: usize,
    /// Whether its output ended within a reply.
    is_truncated: bool,
}

/// The check of one run.
#[derive(Drop)]
pub(crate) struct OneRun<'a> {
    talks: &'static [Talk],
    outputs: &'a [Vec<u8>],
    plain: PlainKeeper,
    checked: Vec<Checked>,
    /// Whether a reply was that of out of memory.
    is_out_of_memory: bool,
}

/// Checks if each of these connections has ended once, and no other.
fn have_ended(endings: &[ScriptedEnding], connections: usize) -> bool {
    for number in 0..connections {
        if endings
            .iter()
            .filter(|ending| ending.number == number)
            .count()
            != 1
        {
            return false;
        }
    }
    endings.len() == connections
}

impl<'a> OneRun<'a> {
    /// Starts the check of these connections and their outputs, with a new register.
    pub(crate) fn new(
        alloc: Global,
        talks: &'static [Talk],
        outputs: &'a [Vec<u8>],
    ) -> Result<OneRun<'a>, Stop> {
        let start = Checked {
            items: 0,
            bytes: 0,
            is_truncated: false,
        };
        Ok(OneRun {
            talks,
            outputs,
            plain: PlainKeeper::new(alloc)?,
            checked: vec![in alloc; start; talks.len()]?,
            is_out_of_memory: false,
        })
    }

    /// Returns a connection, as far as it is checked, and its output after that.
    fn connection(&self, number: usize) -> Result<(Talk, Checked, &'a [u8]), Stop> {
        let found = (
            self.talks.get(number),
            self.checked.get(number),
            self.outputs.get(number),
        );
        match found {
            (Some(talk), Some(checked), Some(output)) => {
                let rest = output.get(checked.bytes..).unwrap_or(&[]);
                Ok((*talk, *checked, rest))
            }
            _ => Err(Stop::Mismatch("no such connection", number)),
        }
    }

    /// Serves the next item of a connection on the plain keeper, and checks that its reply follows in the
    /// output of the connection, or a prefix of it at the end. An item for which there was no memory changes
    /// nothing.
    pub(crate) fn expect_item(&mut self, alloc: Global, number: usize) -> Result<(), Stop> {
        let (talk, checked, output) = self.connection(number)?;
        let Some((item, no_memory)) = talk.item(checked.items) else {
            return Err(Stop::Mismatch("more items than were sent", number));
        };
        let mut bytes = no_memory.len();
        let mut is_truncated = checked.is_truncated;
        if output.starts_with(no_memory) {
            self.is_out_of_memory = true;
        } else {
            let reply = plain_output(alloc, &mut self.plain, item)?;
            bytes = reply.taken.len().min(output.len());
            expect(common(&reply.taken, output) == bytes, "a reply", number)?;
            is_truncated = is_truncated || bytes < reply.taken.len();
        }
        if let Some(checked) = self.checked.get_mut(number) {
            checked.items = checked.items.saturating_add(1);
            checked.bytes = checked.bytes.saturating_add(bytes);
            checked.is_truncated = is_truncated;
        }
        Ok(())
    }

    /// Checks that each reply to a connection is whole, and that this is its output after them.
    pub(crate) fn expect_rest(&self, number: usize, wanted: &[u8]) -> Result<(), Stop> {
        let (_talk, checked, output) = self.connection(number)?;
        expect(!checked.is_truncated, "a truncated reply", number)?;
        expect(output == wanted, "the output after the replies", number)
    }

    /// Checks the end of a connection: if it was served completely, each item had its reply. No other byte
    /// was written to it.
    fn expect_end(&self, ending: ScriptedEnding) -> Result<(), Stop> {
        let number = ending.number;
        let (talk, checked, output) = self.connection(number)?;
        if !ending.complete {
            return expect(output.is_empty(), "the output after the replies", number);
        }
        expect(checked.items == talk.items(), "the items", number)?;
        self.expect_rest(number, b"")
    }
}

/// A run of a source: its result, the connection of each item that was served, the connections that ended,
/// and the output of each.
#[derive(Drop)]
pub(crate) struct Outcome {
    pub(crate) result: Result<(), PoolFault>,
    pub(crate) served: Vec<usize>,
    pub(crate) endings: Vec<ScriptedEnding>,
    pub(crate) outputs: Vec<Vec<u8>>,
}

/// Serves scripts at once with a keeper of a new register.
pub(crate) fn serve_scripts<K: Keeper>(
    alloc: Global,
    scripts: VecDeque<Script>,
    turns: &[usize],
    at_once: usize,
    keeper: &mut K,
) -> Result<Outcome, Stop> {
    let connections = u32::try_from(scripts.len()).unwrap_or(0);
    let record = Record::new(alloc)?;
    let mut source = ScriptedSource::new(alloc, scripts, turns, record.clone()?)?;
    let mut clock = RecordingClock { record };
    let result = serve_at_once(alloc, &mut source, connections, at_once, keeper, &mut clock);
    if result == Err(PoolFault::NoMemory) {
        return Err(Stop::Memory);
    }
    let (endings, outputs) = source.end(alloc)?;
    Ok(Outcome {
        result,
        served: clock.record.end(alloc),
        endings,
        outputs,
    })
}

/// Checks that the outcome of these connections is that of one run, which left the register of this keeper,
/// that each connection ended once, and that exactly one connection, `broken`, was not served completely, or
/// none.
///
/// If a reply was that of out of memory, or another connection was not served completely, the test stops with
/// out of memory, once all replies are checked.
fn expect_outcome(
    alloc: Global,
    talks: &'static [Talk],
    outcome: &Outcome,
    keeper: &mut PlainKeeper,
    broken: Option<usize>,
) -> Result<(), Stop> {
    expect(outcome.result == Ok(()), "the result", 0)?;
    expect(have_ended(&outcome.endings, talks.len()), "the endings", 0)?;
    let mut run = OneRun::new(alloc, talks, &outcome.outputs)?;
    for number in &outcome.served {
        run.expect_item(alloc, *number)?;
    }
    for ending in &outcome.endings {
        run.expect_end(*ending)?;
    }
    expect_same_register(alloc, keeper, &mut run.plain)?;
    for ending in &outcome.endings {
        let is_broken = broken == Some(ending.number);
        if run.is_out_of_memory || !is_broken && !ending.complete {
            return Err(Stop::Memory);
        }
        expect(
            is_broken != ending.complete,
            "a broken connection",
            ending.number,
        )?;
    }
    Ok(())
}

/// Serves scripts of these connections at once with a new register, and checks the outcome. Returns the
/// connection of each item that was served.
pub(crate) fn expect_one_run(
    alloc: Global,
    talks: &'static [Talk],
    scripts: VecDeque<Script>,
    turns: &[usize],
    at_once: usize,
    broken: Option<usize>,
) -> Result<Vec<usize>, Stop> {
    let mut keeper = PlainKeeper::new(alloc)?;
    let outcome = serve_scripts(alloc, scripts, turns, at_once, &mut keeper)?;
    expect_outcome(alloc, talks, &outcome, &mut keeper, broken)?;
    let Outcome { served, .. } = outcome;
    Ok(served)
}
