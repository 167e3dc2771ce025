//! Sources of connections.
ghost use Rattle.std.specs.Prelude.{List, None, Option, ℕ};
ghost use Rattle.land_desk.specs.Service.Coming.{Accepts, brought};

use std::io;
use std::io::{Read, Write};

/// A source of connections, accepted one at a time.
pub trait Connections {
    /// Reads the input of a connection.
    type Reader: Read + Drop;

    /// Writes the replies to a connection.
    type Writer: Write + Drop;

    /// The inputs of the pending connections, if they are known.
    ghost coming: { Self → Option (List (Option (List ℕ))) } = { λ _. None };

    /// Waits for the next connection and accepts it.
    fn accept_connection(&mut self) -> io::Result<(Self::Reader, Self::Writer)>
        ensures { Accepts (coming self.old) (coming self.new) (brought Self.Reader.remaining result) };

    /// Closes a connection that was served, so that its last reply arrives. Has access to the connection
    /// only.
    fn close_connection(reader: &mut Self::Reader, writer: &mut Self::Writer);
}
