//! Counts of replies, by their kind.
use testlib_scenario::stop::{Stop, expect};

/// The numbers of requests that were accepted, denied and refused.
#[derive(Clone, Copy)]
pub struct Tally {
    done: usize,
    denied: usize,
    refused: usize,
}

impl Tally {
    /// Returns zero counts.
    pub fn new() -> Tally {
        Tally {
            done: 0,
            denied: 0,
            refused: 0,
        }
    }

    /// Counts a reply.
    pub fn count(&mut self, told: &[u8]) {
        if told.starts_with(b"HTTP/1.1 200 ") {
            self.done = self.done.saturating_add(1);
        } else if told.starts_with(b"HTTP/1.1 403 ") {
            self.denied = self.denied.saturating_add(1);
        } else if told.starts_with(b"HTTP/1.1 409 ") {
            self.refused = self.refused.saturating_add(1);
        }
    }

    /// Checks that there are enough replies of each kind.
    pub fn expect_enough(&self) -> Result<(), Stop> {
        expect(200 <= self.done, "done", self.done)?;
        expect(150 <= self.denied, "denied", self.denied)?;
        expect(50 <= self.refused, "refused", self.refused)
    }
}
