//! A reader with a limit on the number of reads.
ghost use Rattle.std.specs.Prelude.{◌≡◌, ◌<◌, ◌-◌, IfOk};
ghost use Rattle.std.specs.Io.{ReadsAtMost};
ghost use Rattle.std.specs.Io.KnownBytes.{ReadConsumes};

use crate::stream_fault::StreamFault;
use std::io::Read;

/// The maximum number of reads of a stream.
pub const MAX_READS: u64 = 10_000_000;

/// A borrowed reader, with the number of reads left.
#[derive(Debug, Drop)]
pub struct CountedReader<'a, R> {
    reader: &'a mut R,
    left: u64,
}

impl<'a, R> CountedReader<'a, R> {
    /// Returns a reader with the full budget of reads.
    pub fn new(reader: &'a mut R) -> CountedReader<'a, R>
        ensures same { result.reader.now ≡ reader.old }
        ensures left { result.left ≡ 10000000 }
        ensures same_reference { result.reader.ghost_name ≡ reader.entry.ghost_name }
    {
        CountedReader::with_budget(reader, MAX_READS)
    }

    /// Returns a reader with this budget of reads.
    pub fn with_budget(reader: &'a mut R, left: u64) -> CountedReader<'a, R>
        ensures same { result.reader.now ≡ reader.old }
        ensures left { result.left ≡ left }
        ensures same_reference { result.reader.ghost_name ≡ reader.entry.ghost_name }
    {
        CountedReader { reader, left }
    }

    /// Returns the number of reads left.
    pub fn reads_left(&self) -> u64
        ensures { result ≡ self.now.left }
    {
        self.left
    }
}

impl<R: Read> CountedReader<'_, R> {
    /// Reads once, and counts the read. Error: `Read` if the reader failed, or if the budget is spent, in
    /// which case the reader is not called.
    pub fn read(&mut self, piece: &mut [u8]) -> Result<usize, StreamFault>
        ensures spends { self.new.left ≡ self.old.left - 1 }
        ensures asked { IfOk result (λ n. 0 < self.old.left) }
        ensures unasked { self.old.left ≡ 0 → self.new.reader.now ≡ self.old.reader.now }
        ensures bound { ReadsAtMost result piece.new }
        ensures bytes { ReadConsumes (R.remaining self.old.reader.now)
            (R.remaining self.new.reader.now) result piece.new }
        ensures same_reference { self.new.reader.ghost_name ≡ self.old.reader.ghost_name }
    {
        if self.left == 0 {
            return Err(StreamFault::Read);
        }
        self.left -= 1;
        match self.reader.read(piece) {
            Ok(n) => Ok(n),
            Err(_) => Err(StreamFault::Read),
        }
    }
}
