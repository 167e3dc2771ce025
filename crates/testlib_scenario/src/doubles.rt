//! Test doubles of a reader, a writer and a clock.
ghost use Rattle.std.specs.Prelude.{Some};

use land_keep::clock::Clock;
use std::io;
use std::io::{Read, Write};

/// A reader of known bytes. Returns at most `piece` bytes at a time, at least one, and fails after `reads`
/// calls.
#[derive(Drop)]
pub struct ChunkReader<'a> {
    pub left: &'a [u8],
    pub piece: usize,
    pub reads: u64,
}

impl Read for ChunkReader<'_> {
    ghost remaining = { λ it. Some it.left.now };

    fn read(&mut self, buf: &mut [u8]) -> io::Result<usize> {
        if self.reads == 0 {
            return Err(io::Error::from(io::ErrorKind::TimedOut));
        }
        self.reads -= 1;
        let count = self.piece.max(1).min(buf.len()).min(self.left.len());
        let (piece, left) = self.left.split_at(count);
        buf[..count].copy_from_slice(piece);
        self.left = left;
        Ok(count)
    }
}

/// A writer that accepts at most `piece` bytes at a time, `writes` times, and then fails or accepts none.
/// Records whether its connection was closed.
#[derive(Drop)]
pub struct Sink {
    pub taken: Vec<u8>,
    pub piece: usize,
    pub writes: usize,
    pub fails: bool,
    pub is_ended: bool,
}

impl Write for Sink {
    fn write(&mut self, buf: &[u8]) -> io::Result<usize> {
        if self.writes == 0 {
            if self.fails {
                return Err(io::Error::from(io::ErrorKind::BrokenPipe));
            }
            return Ok(0);
        }
        self.writes -= 1;
        let count = self.piece.min(buf.len());
        self.taken.extend_from_slice(&buf[..count])?;
        Ok(count)
    }

    fn flush(&mut self) -> io::Result<()> {
        Ok(())
    }
}

/// A clock that reads these moments in order, and then always 1000.
#[derive(Clone, Copy)]
pub struct ClockReadings {
    pub left: &'static [i64],
}

impl Clock for ClockReadings {
    ghost reads = { λ _ _ _. Unit {0} };

    fn read(&mut self) -> i64 {
        match self.left.split_first() {
            Some((reading, left)) => {
                self.left = left;
                *reading
            }
            None => 1000,
        }
    }
}
