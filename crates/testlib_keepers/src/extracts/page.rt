//! A writer that stores the bytes.
use std::alloc::{AllocError, Global};
use std::io;
use std::io::Write;

/// A writer that accepts at most 7 bytes at a time up to a total, and then fails or accepts none.
#[derive(Drop)]
pub struct Page {
    pub taken: Vec<u8>,
    pub room: usize,
    pub fails: bool,
}

impl Page {
    /// Returns an empty page.
    pub fn new(alloc: Global, room: usize, fails: bool) -> Result<Page, AllocError> {
        Ok(Page {
            taken: Vec::with_capacity(alloc, 2048)?,
            room,
            fails,
        })
    }
}

impl Write for Page {
    fn write(&mut self, buf: &[u8]) -> io::Result<usize> {
        if self.room == 0 && self.fails {
            return Err(io::Error::from(io::ErrorKind::BrokenPipe));
        }
        let count = buf.len().min(7).min(self.room);
        self.taken.extend_from_slice(&buf[..count])?;
        self.room -= count;
        Ok(count)
    }

    fn flush(&mut self) -> io::Result<()> {
        Ok(())
    }
}
