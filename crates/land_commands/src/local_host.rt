//! The local host.
ghost use Rattle.std.specs.Prelude.{◌≡◌, None, IfErr, IfOk, IfSome, OnOk};
ghost use Rattle.land_commands.specs.Closing.{IsClosedFile};
ghost use Rattle.land_commands.specs.ProgramFaults.{IsFaultOfClosing, IsFaultOfOpening};
ghost use Rattle.sqlite.specs.Files.{file_state};
ghost use Rattle.sqlite.specs.Start.{FindsIn};
ghost use Rattle.sqlite.specs.State.{HasCleanDisk};
ghost use Rattle.sqlite_wal.specs.Files.{image_at};

use crate::host::Host;
use crate::program_fault::ProgramFault;
use land_desk::service::callers::Callers;
use land_desk::service::timer::RequestTimer;
use land_port::port::Port;
use sqlite::{Connection, Error, ErrorCode, FileFrom, FileStore, Start, Wary};
use std::alloc::Global;
use std::fs::File;
use std::io::Read;
use std::net::{Ipv4Addr, TcpListener};
use std::rt::HostRuntime;
use std::{fs, io};

/// The first 16 bytes of every SQLite database file.
const MAGIC: &[u8] = b"SQLite format 3\0";

/// The host that the program runs on.
///
/// Opens files as `Wary`: it assumes nothing about their earlier content, and that a torn write may leave any
/// bytes. So each commit syncs twice.
#[derive(Drop)]
pub struct LocalHost<'a> {
    rt: HostRuntime,
    watch: &'a RequestTimer<HostRuntime>,
}

impl<'a> LocalHost<'a> {
    /// Creates the host, without an open file. `watch`: the timer of connections.
    pub fn new(rt: &HostRuntime, watch: &'a RequestTimer<HostRuntime>) -> LocalHost<'a> {
        LocalHost { rt: *rt, watch }
    }
}

/// The content of a file, as far as its size and first bytes show.
#[derive(Clone, Copy, Debug, PartialEq, Eq)]
enum FileKind {
    /// The file does not exist, or its metadata cannot be read.
    Nothing,
    /// An empty file.
    Empty,
    /// A file that starts with the header of a SQLite database.
    Store,
    /// Anything else.
    Other,
}

/// Returns the kind of a file. Does not open it for writing.
fn file_kind_of(rt: &HostRuntime, file: &str) -> FileKind {
    let Ok(stands) = fs::metadata(rt, file) else {
        return FileKind::Nothing;
    };
    if !stands.is_file() {
        return FileKind::Other;
    }
    if stands.len() == 0 {
        return FileKind::Empty;
    }
    match has_store_header(rt, file) {
        Ok(true) => FileKind::Store,
        Ok(false) | Err(_) => FileKind::Other,
    }
}

/// Checks whether a file starts with the header of a SQLite database.
fn has_store_header(rt: &HostRuntime, file: &str) -> io::Result<bool> {
    let mut opened = File::open(rt, file)?;
    let mut front = [0; 16];
    opened.read_exact(&mut front)?;
    Ok(front.as_slice() == MAGIC)
}

/// Opens a file as a store, or creates it. `S` describes its earlier content, and is not read by code.
fn open_store<S: Start>(
    rt: &HostRuntime,
    file: &str,
    start: S,
) -> Result<Connection<FileStore<FileFrom<S>>>, ProgramFault>
    ensures shows { IfOk result (λ c. HasCleanDisk (file_state c)
        → FindsIn (image_at S.Start) (file_state c)) }
    ensures fault { IfErr result IsFaultOfOpening }
{
    match Connection::open_from(rt, file, false, start) {
        Ok(conn) => Ok(conn),
        Err((Error::SqliteFailure(ErrorCode::OutOfMemory), _)) => Err(ProgramFault::NoMemory),
        Err(_) => Err(ProgramFault::Open),
    }
}

/// Closes the files of a store. The database file then holds everything that was in its log.
fn close_store<S: Start>(conn: Connection<FileStore<FileFrom<S>>>) -> Result<(), ProgramFault>
    ensures closed { OnOk result (IsClosedFile conn) }
    ensures fault { IfErr result IsFaultOfClosing }
{
    match conn.close_files() {
        Ok(_files) => Ok(()),
        Err(failure) => Err(closing_fault(failure)),
    }
}

/// Returns the fault of a store that could not be closed: 501 if it ran out of memory, else 502. The store is
/// dropped.
fn closing_fault<S: Drop>(failure: (Error, S)) -> ProgramFault
    ensures { IsFaultOfClosing result }
{
    match failure {
        (Error::SqliteFailure(ErrorCode::OutOfMemory), _store) => ProgramFault::NoMemory,
        (_error, _store) => ProgramFault::Closed,
    }
}

impl<'a> Host for LocalHost<'a> {
    type Store = FileStore<FileFrom<Wary>>;

    type Listener = Callers<'a, HostRuntime>;

    type Source = Port<HostRuntime>;

    ghost holds = { λ _ s. FindsIn (image_at ⟦<Wary as Start>⟧) s };

    ghost is_closed = { λ c. IsClosedFile c };

    ghost coming = { λ _ _. None };

    fn alloc(&self) -> Global {
        self.rt.alloc()
    }

    fn open_or_create(
        &mut self,
        file: &str,
    ) -> Result<Connection<FileStore<FileFrom<Wary>>>, ProgramFault> {
        match file_kind_of(&self.rt, file) {
            FileKind::Other => Err(ProgramFault::Open),
            _ => open_store(&self.rt, file, Wary),
        }
    }

    fn open_existing(
        &mut self,
        file: &str,
    ) -> Result<Connection<FileStore<FileFrom<Wary>>>, ProgramFault> {
        match file_kind_of(&self.rt, file) {
            FileKind::Nothing | FileKind::Other => Err(ProgramFault::Open),
            FileKind::Empty => Err(ProgramFault::NotOurs),
            FileKind::Store => open_store(&self.rt, file, Wary),
        }
    }

    fn close(left: &mut Option<Connection<FileStore<FileFrom<Wary>>>>) -> Result<(), ProgramFault>
        ensures closed { OnOk result (IfSome left.old (λ c. IsClosedFile c)) }
        ensures fault { IfErr result IsFaultOfClosing }
    {
        match left.take() {
            Some(conn) => close_store(conn),
            None => Ok(()),
        }
    }

    fn listen(&mut self, port: u16) -> io::Result<Callers<'a, HostRuntime>> {
        let listener = TcpListener::bind(&self.rt, (Ipv4Addr::LOCALHOST, port))?;
        Ok(Callers::new(listener, self.watch))
    }

    fn stop_listening(&mut self, _port: u16, listener: Callers<'a, HostRuntime>) {
        drop(listener);
    }

    fn listen_at_once(&mut self, port: u16) -> io::Result<Port<HostRuntime>> {
        Port::listen(self.rt, &self.rt, self.rt.alloc(), port)
    }

    fn stop_listening_at_once(&mut self, _port: u16, mut source: Port<HostRuntime>) {
        source.drain();
    }
}
