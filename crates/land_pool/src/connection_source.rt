//! Sources of connections that are open at the same time.
ghost use Rattle.std.specs.Prelude.{◌≡◌, IfOk, List, None, Option, ℕ};
ghost use Rattle.land_desk.specs.Service.Coming.{Accepts, brought};
ghost use Rattle.land_pool.specs.Endings.{Ending, Records};

use std::io;
use std::io::{Read, Write};

/// A source of connections, several of which are open at the same time. Their reads and writes do not block:
/// they fail where they would.
pub trait ConnectionSource {
    /// Reads the input of a connection.
    type Reader: Read + Drop;

    /// Writes the replies to a connection.
    type Writer: Write + Drop;

    /// The inputs of the pending connections, if they are known.
    ghost coming: { Self → Option (List (Option (List ℕ))) } = { λ _. None };

    /// The connections that ended, in their order, if they are recorded.
    ghost ended: { Self → Option (List Ending) } = { λ _. None };

    /// The bytes that the writer of a new connection holds, if they are known.
    ghost fresh: { Option (List ℕ) } = { None };

    /// Waits until a connection arrives or an open one is ready, and at most one second.
    fn wait(&mut self) -> io::Result<()>
        ensures coming { coming self.new ≡ coming self.old }
        ensures ended { ended self.new ≡ ended self.old };

    /// Accepts the next connection, which `next_ready` calls by this key. Returns an error if none is
    /// pending.
    fn accept(&mut self, key: usize) -> io::Result<(Self::Reader, Self::Writer)>
        ensures coming { Accepts (coming self.old) (coming self.new) (brought Self.Reader.remaining result) }
        ensures ended { ended self.new ≡ ended self.old }
        ensures fresh { IfOk result (λ pair. Self.Writer.contents pair.1 ≡ fresh) };

    /// Returns the key of an open connection that may have something to do, each at most once in a round;
    /// `None` ends the round.
    fn next_ready(&mut self) -> Option<usize>
        ensures coming { coming self.new ≡ coming self.old }
        ensures ended { ended self.new ≡ ended self.old };

    /// Closes a connection. `number`: so many were accepted before it. `complete`: each of its requests was
    /// answered, and the last reply is to arrive; else it is dropped.
    fn close(&mut self, number: u64, reader: Self::Reader, writer: Self::Writer, complete: bool)
        ensures coming { coming self.new ≡ coming self.old }
        ensures ended { Records (ended self.old) (ended self.new) number complete fresh
            (Self.Writer.contents writer) };

    /// Checks if a connection is broken, or has been idle too long.
    fn has_failed(reader: &Self::Reader, writer: &Self::Writer) -> bool;
}
