//! The host of the program: its memory, files and ports.
ghost use Rattle.std.specs.Prelude.{◌≡◌, List, None, Option, ℕ, IfErr, IfOk, IfSome, OnOk};
ghost use Rattle.land_commands.specs.Filed.{HoldsFileState};
ghost use Rattle.land_commands.specs.ProgramFaults.{IsFaultOfClosing, IsFaultOfOpeningExisting};
ghost use Rattle.land_commands.specs.ProgramFaults.{IsFaultOfOpening};
ghost use Rattle.land_pool.specs.Endings.{Ending};
ghost use Rattle.sqlite.specs.Held.{Held};
ghost use Rattle.sqlite.specs.State.{State};

use crate::program_fault::ProgramFault;
use land_desk::service::connections::Connections;
use land_pool::connection_source::ConnectionSource;
use sqlite::{Alter, Connection};
use std::alloc::Global;
use std::io;

/// A host: memory, files by their names, and ports.
pub trait Host {
    /// The store of a file.
    type Store: Alter + Drop;

    /// Listens for connections on a port, one after another.
    type Listener: Connections + Drop;

    /// Listens for connections on a port, several of which are open at the same time.
    type Source: ConnectionSource + Drop;

    /// The states that the store of this file may have when it is opened, if its disk is honest.
    ghost holds: { List ℕ → State → Type 0 };

    /// The files of this connection were closed, with all of the log copied into the database file.
    ghost is_closed: { Held Self.Store → Type 0 };

    /// The inputs of the pending connections to a port, if they are known.
    ghost coming: { Self → ℕ → Option (List (Option (List ℕ))) };

    /// The connections to a port that ended, of those that were open at the same time, if they are recorded.
    ghost ended: { Self → ℕ → Option (List Ending) } = { λ _ _. None };

    /// Returns the allocator of the process.
    fn alloc(&self) -> Global;

    /// Opens a file, or creates it. Does not change a file that is neither empty nor a store.
    fn open_or_create(&mut self, file: &str) -> Result<Connection<Self::Store>, ProgramFault>
        ensures shows { IfOk result (HoldsFileState Self.Store.Store (holds file.now)) }
        ensures fault { IfErr result IsFaultOfOpening }
        ensures port { coming self.new ≡ coming self.old }
        ensures ended { ended self.new ≡ ended self.old };

    /// Opens an existing file. Does not create one, and does not change a file that is empty or not a store.
    fn open_existing(&mut self, file: &str) -> Result<Connection<Self::Store>, ProgramFault>
        ensures shows { IfOk result (HoldsFileState Self.Store.Store (holds file.now)) }
        ensures fault { IfErr result IsFaultOfOpeningExisting }
        ensures port { coming self.new ≡ coming self.old }
        ensures ended { ended self.new ≡ ended self.old };

    /// Closes a file, if there is one. The database file then holds all commits, and its log is empty.
    fn close(left: &mut Option<Connection<Self::Store>>) -> Result<(), ProgramFault>
        ensures closed { OnOk result (IfSome left.old is_closed) }
        ensures fault { IfErr result IsFaultOfClosing };

    /// Listens on a port, for connections from this host only.
    fn listen(&mut self, port: u16) -> io::Result<Self::Listener>
        ensures { IfOk result (λ listener. Self.Listener.coming listener ≡ coming self.old port) };

    /// Stops listening on a port. The connections that were not accepted are still pending.
    fn stop_listening(&mut self, port: u16, listener: Self::Listener)
        ensures { coming self.new port ≡ Self.Listener.coming listener };

    /// Listens on a port, for connections from this host only, several of which are open at the same time.
    fn listen_at_once(&mut self, port: u16) -> io::Result<Self::Source>
        ensures coming { IfOk result (λ source. Self.Source.coming source ≡ coming self.old port) }
        ensures ended { IfOk result (λ source. Self.Source.ended source ≡ ended self.old port) };

    /// Stops listening on a port. The connections that were not accepted are still pending.
    fn stop_listening_at_once(&mut self, port: u16, source: Self::Source)
        ensures coming { coming self.new port ≡ Self.Source.coming source }
        ensures ended { ended self.new port ≡ Self.Source.ended source };
}
