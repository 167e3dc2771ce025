//! Connections from scripts: known input in chunks of chosen sizes, with reads and writes that would block or
//! that fail at chosen places, and turns in a chosen order.
use land_keep::clock::Clock;
use land_pool::connection_source::ConnectionSource;
use std::alloc::{AllocError, Global};
use std::cell::Cell;
use std::collections::VecDeque;
use std::io;
use std::io::{ErrorKind, Read, Write};
use std::rc::Rc;

/// More rounds than any test needs. If there are more, waiting fails, which ends the service.
const MAX_ROUNDS: u64 = 1_000_000;

/// The capacity of an output, enough for the replies of most tests.
const OUTPUT_CAPACITY: usize = 4096;

/// The capacity of a record, enough for the items of each test.
const RECORD_CAPACITY: usize = 4096;

/// Returns a copy of these numbers.
pub(crate) fn copy(alloc: Global, numbers: &[usize]) -> Result<Vec<usize>, AllocError> {
    let mut copied = Vec::new(alloc);
    copied.extend_from_slice(numbers)?;
    Ok(copied)
}

/// Sizes of chunks, repeated without end; without any, each chunk is as large as possible.
#[derive(Drop)]
struct Sizes {
    all: Vec<usize>,
    /// The place of the next size.
    next: usize,
}

impl Sizes {
    fn new(all: Vec<usize>) -> Sizes {
        Sizes { all, next: 0 }
    }

    /// Returns the next size.
    fn next_size(&mut self) -> usize {
        if self.next >= self.all.len() {
            self.next = 0;
        }
        match self.all.get(self.next) {
            Some(size) => {
                self.next = self.next.saturating_add(1);
                *size
            }
            None => usize::MAX,
        }
    }
}

/// A connection.
#[derive(Drop)]
pub(crate) struct Script {
    /// Its input.
    pub(crate) input: Vec<u8>,
    /// The sizes of the chunks that are read. At a size of 0 the read would block.
    pub(crate) reads: Vec<usize>,
    /// The number of bytes after which a read fails.
    pub(crate) readable: usize,
    /// The sizes of the chunks that are written. At a size of 0 the write would block.
    pub(crate) writes: Vec<usize>,
    /// The number of bytes after which a write fails.
    pub(crate) writable: usize,
}

impl Script {
    /// Returns a script of this input in which nothing fails, with these sizes of the chunks that are read
    /// and written.
    pub(crate) fn new(
        alloc: Global,
        input: Vec<u8>,
        reads: &[usize],
        writes: &[usize],
    ) -> Result<Script, AllocError> {
        Ok(Script {
            input,
            reads: copy(alloc, reads)?,
            readable: usize::MAX,
            writes: copy(alloc, writes)?,
            writable: usize::MAX,
        })
    }
}

/// Reads the input of a script.
#[derive(Drop)]
pub(crate) struct ScriptedReader {
    input: Vec<u8>,
    /// The number of bytes that were read.
    place: usize,
    sizes: Sizes,
    readable: usize,
    has_failed: bool,
}

impl Read for ScriptedReader {
    fn read(&mut self, buf: &mut [u8]) -> io::Result<usize> {
        let size = self.sizes.next_size();
        if size == 0 {
            return Err(io::Error::from(ErrorKind::WouldBlock));
        }
        if self.readable == 0 {
            self.has_failed = true;
            return Err(io::Error::from(ErrorKind::ConnectionReset));
        }
        let left = self.input.get(self.place..).unwrap_or(&[]);
        let most = size.min(self.readable);
        let count = most.min(buf.len()).min(left.len());
        let (piece, _) = left.split_at(count);
        buf[..count].copy_from_slice(piece);
        self.place = self.place.saturating_add(count);
        self.readable = self.readable.saturating_sub(count);
        Ok(count)
    }
}

/// An output, which a writer shares with the source. It is `None` only while bytes are added.
type Output = Rc<Cell<Option<Vec<u8>>>>;

/// Returns an empty output.
fn new_output(alloc: Global) -> Result<Output, AllocError> {
    let bytes = Vec::with_capacity(alloc, OUTPUT_CAPACITY)?;
    Ok(Rc::new(alloc, Cell::new(Some(bytes)))?)
}

/// Adds bytes to an output.
fn extend(output: &Cell<Option<Vec<u8>>>, added: &[u8]) -> Result<(), AllocError> {
    let mut bytes = output.replace(None);
    let result = match &mut bytes {
        Some(bytes) => bytes.extend_from_slice(added),
        None => Ok(()),
    };
    output.set(bytes);
    result
}

/// A record of the items that were served, in their order. A source, its writers and a clock share it.
///
/// A turn serves at most one item. It is recorded if the clock is read, or if the output grows. An item for
/// which there is no memory may have a reply without a reading, or a reading without a reply.
#[derive(Drop)]
pub(crate) struct Record {
    /// The number of the connection that has its turn.
    turn: Cell<usize>,
    /// Whether the item of this turn is recorded.
    is_recorded: Cell<bool>,
    /// The number of the connection of each item. It is `None` only while one is added.
    served: Cell<Option<Vec<usize>>>,
}

impl Record {
    /// Returns an empty record.
    pub(crate) fn new(alloc: Global) -> Result<Rc<Record>, AllocError> {
        let served = Vec::with_capacity(alloc, RECORD_CAPACITY)?;
        let record = Record {
            turn: Cell::new(0),
            is_recorded: Cell::new(true),
            served: Cell::new(Some(served)),
        };
        Ok(Rc::new(alloc, record)?)
    }

    /// Starts a turn of a connection.
    fn start_turn(&self, number: usize) {
        self.turn.set(number);
        self.is_recorded.set(false);
    }

    /// Records the item of this turn, once.
    fn add_item(&self) {
        if self.is_recorded.replace(true) {
            return;
        }
        let mut served = self.served.replace(None);
        if let Some(numbers) = &mut served {
            match numbers.push(self.turn.get()) {
                Ok(()) | Err(_) => {}
            }
        }
        self.served.set(served);
    }

    /// Returns the number of the connection of each item.
    pub(crate) fn end(&self, alloc: Global) -> Vec<usize> {
        match self.served.replace(None) {
            Some(served) => served,
            None => Vec::new(alloc),
        }
    }
}

/// Writes to the output of a script.
#[derive(Drop)]
pub(crate) struct ScriptedWriter {
    output: Output,
    record: Rc<Record>,
    /// The number of bytes that were written.
    written: usize,
    /// The same and the unsent bytes of the last write. Each write passes all unsent bytes.
    replied: usize,
    sizes: Sizes,
    writable: usize,
    has_failed: bool,
}

impl Write for ScriptedWriter {
    fn write(&mut self, buf: &[u8]) -> io::Result<usize> {
        let replied = self.written.saturating_add(buf.len());
        if replied > self.replied {
            self.replied = replied;
            self.record.add_item();
        }
        let size = self.sizes.next_size();
        if size == 0 {
            return Err(io::Error::from(ErrorKind::WouldBlock));
        }
        if self.writable == 0 {
            self.has_failed = true;
            return Err(io::Error::from(ErrorKind::BrokenPipe));
        }
        let most = size.min(self.writable);
        let count = most.min(buf.len());
        extend(&self.output, &buf[..count])?;
        self.written = self.written.saturating_add(count);
        self.writable = self.writable.saturating_sub(count);
        Ok(count)
    }

    fn flush(&mut self) -> io::Result<()> {
        Ok(())
    }
}

/// How a connection ended: its number, and whether it was served completely.
#[derive(Clone, Copy)]
pub(crate) struct ScriptedEnding {
    pub(crate) number: usize,
    pub(crate) complete: bool,
}

/// A source of connections from scripts.
///
/// In each round the next connection of `turns` has a turn, once it is accepted. After those, each open
/// connection has a turn in each round.
#[derive(Drop)]
pub(crate) struct ScriptedSource {
    pending: VecDeque<Script>,
    /// The output of each connection.
    outputs: Vec<Output>,
    /// The numbers of the connections that have a turn, in this order.
    turns: Vec<usize>,
    /// The number of `turns` that were had.
    turns_had: usize,
    /// Whether one of `turns` was had in this round.
    has_had_turn: bool,
    /// The first number that may have a turn in this round, after `turns`.
    next: usize,
    /// The key of each connection that was accepted, or `None` if it has ended.
    keys: Vec<Option<usize>>,
    record: Rc<Record>,
    rounds_left: u64,
    /// The connections that ended.
    endings: Vec<ScriptedEnding>,
}

impl ScriptedSource {
    /// Returns a source of these connections, whose turns and replies are recorded.
    pub(crate) fn new(
        alloc: Global,
        scripts: VecDeque<Script>,
        turns: &[usize],
        record: Rc<Record>,
    ) -> Result<ScriptedSource, AllocError> {
        let connections = scripts.len();
        let mut outputs = Vec::new(alloc);
        for _connection in 0..connections {
            outputs.push(new_output(alloc)?)?;
        }
        Ok(ScriptedSource {
            pending: scripts,
            outputs,
            turns: copy(alloc, turns)?,
            turns_had: 0,
            has_had_turn: false,
            next: 0,
            keys: Vec::with_capacity(alloc, connections)?,
            record,
            rounds_left: MAX_ROUNDS,
            endings: Vec::with_capacity(alloc, connections)?,
        })
    }

    /// Returns the connections that ended, and the output of each connection.
    pub(crate) fn end(
        self,
        alloc: Global,
    ) -> Result<(Vec<ScriptedEnding>, Vec<Vec<u8>>), AllocError> {
        let ScriptedSource {
            outputs,
            endings,
            ..
        } = self;
        let mut written = Vec::new(alloc);
        for output in &outputs {
            let bytes = match output.replace(None) {
                Some(bytes) => bytes,
                None => Vec::new(alloc),
            };
            written.push(bytes)?;
        }
        Ok((endings, written))
    }

    /// Returns the key of the next of `turns`, unless it is pending or this round has had its turn.
    fn next_of_turns(&mut self) -> Option<usize> {
        let number = *self.turns.get(self.turns_had)?;
        if self.has_had_turn {
            return None;
        }
        let key = *self.keys.get(number)?;
        self.turns_had = self.turns_had.saturating_add(1);
        self.has_had_turn = true;
        self.record.start_turn(number);
        key
    }

    /// Returns the key of the next open connection in this round.
    fn next_open(&mut self) -> Option<usize> {
        for number in self.next..self.keys.len() {
            if let Some(Some(key)) = self.keys.get(number) {
                self.next = number.saturating_add(1);
                self.record.start_turn(number);
                return Some(*key);
            }
        }
        None
    }
}

impl ConnectionSource for ScriptedSource {
    type Reader = ScriptedReader;

    type Writer = ScriptedWriter;

    fn wait(&mut self) -> io::Result<()> {
        if self.rounds_left == 0 {
            return Err(io::Error::from(ErrorKind::TimedOut));
        }
        self.rounds_left -= 1;
        self.has_had_turn = false;
        self.next = 0;
        Ok(())
    }

    fn accept(&mut self, key: usize) -> io::Result<(ScriptedReader, ScriptedWriter)> {
        let Some(shared) = self.outputs.get(self.keys.len()) else {
            return Err(io::Error::from(ErrorKind::WouldBlock));
        };
        let output = shared.clone()?;
        let record = self.record.clone()?;
        self.keys.push(Some(key))?;
        let Some(script) = self.pending.pop_front() else {
            return Err(io::Error::from(ErrorKind::ConnectionAborted));
        };
        let Script {
            input,
            reads,
            readable,
            writes,
            writable,
        } = script;
        let reader = ScriptedReader {
            input,
            place: 0,
            sizes: Sizes::new(reads),
            readable,
            has_failed: false,
        };
        let writer = ScriptedWriter {
            output,
            record,
            written: 0,
            replied: 0,
            sizes: Sizes::new(writes),
            writable,
            has_failed: false,
        };
        Ok((reader, writer))
    }

    fn next_ready(&mut self) -> Option<usize> {
        if self.turns_had >= self.turns.len() && !self.has_had_turn {
            return self.next_open();
        }
        self.next_of_turns()
    }

    fn close(
        &mut self,
        number: u64,
        _reader: ScriptedReader,
        _writer: ScriptedWriter,
        complete: bool,
    ) {
        let ended = number as usize;
        if let Some(key) = self.keys.get_mut(ended) {
            *key = None;
        }
        let ending = ScriptedEnding {
            number: ended,
            complete,
        };
        match self.endings.push(ending) {
            Ok(()) | Err(_) => {}
        }
    }

    fn has_failed(reader: &ScriptedReader, writer: &ScriptedWriter) -> bool {
        reader.has_failed || writer.has_failed
    }
}

/// A clock that always reads 1000. Records the item of the turn in which it is read.
#[derive(Drop)]
pub(crate) struct RecordingClock {
    /// The record of the source.
    pub(crate) record: Rc<Record>,
}

impl Clock for RecordingClock {
    ghost reads = { λ _ _ _. Unit {0} };

    fn read(&mut self) -> i64 {
        self.record.add_item();
        1000
    }
}
