//! An open connection.
ghost use Rattle.std.specs.Prelude.{◌≡◌, ◌≤◌, ◌<◌, ◌+◌, Some, [], true, false, ℕ, List, Option};
ghost use Rattle.std.specs.Prelude.{length, take, drop};
ghost use Rattle.std.specs.Io.KnownBytes.{Appends, prepend_known};
ghost use Rattle.land_desk.specs.Keepers.{ServesFirst};
ghost use Rattle.land_desk.specs.Serving.{Exchange};
ghost use Rattle.land_keep.specs.Keepers.{Simulates, WasHonest};
ghost use Rattle.land_pool.specs.OpenConnections.{AddsExchanges, AnswersItems, IsOpenWith, IsThen};
ghost use Rattle.land_pool.specs.OpenConnections.{KeepsInputSmall};
ghost use Rattle.land_wire.specs.Framing.Reads.{StaysWithin, input_limit};
ghost use Rattle.land_wire.specs.Framing.Stream.{field_room};
ghost use Rattle.land_wire.specs.Routes.Table.{RoutesCorrectly};

use crate::connection_source::ConnectionSource;
use httparse::spans::HeaderSpan;
use land_desk::next_item::{AfterItem, serve_next_item};
use land_desk::serve::DeskFault;
use land_keep::clock::Clock;
use land_keep::keeper::Keeper;
use land_streams::buffer::{consume_front, read_to};
use land_streams::counted_reader::CountedReader;
use land_streams::stream_fault::StreamFault;
use land_wire::framing::framing::body_length_of;
use land_wire::framing::head::{HEAD_LIMIT, HeadParse, parse_head};
use land_wire::routes::table::Endpoint;
use matchit::Router;
use std::alloc::Global;
use std::io::{ErrorKind, Read, Write};

/// No item of a connection is served while more bytes of its replies than this are unsent.
pub const MAX_UNSENT: usize = 65_536;

/// The maximum number of reads in one turn of a connection, of 1024 bytes each.
pub const READS_PER_TURN: u64 = 64;

/// Whether a connection stays open.
#[derive(Clone, Copy, Debug, PartialEq, Eq)]
pub enum Progress {
    /// It stays open.
    Open,
    /// It ends: each of its items was answered, and each reply was written.
    Complete,
    /// It ends early.
    Broken,
}

/// An open connection.
#[derive(Drop)]
pub struct OpenConnection<R, W> {
    /// The number of connections that were accepted before it.
    pub number: u64,
    /// Reads its input.
    pub reader: R,
    /// Writes its replies.
    pub writer: W,
    /// The bytes that were read and not served.
    pub input: Vec<u8>,
    /// The bytes of replies that were not written.
    pub output: Vec<u8>,
    /// The number of bytes that the input has once its next item is complete, or 0 if that is not known.
    pub needed: usize,
    /// The number of reads left.
    pub reads_left: u64,
    /// Whether no more items are served: the input ended, or the last reply closes the connection.
    pub finished: bool,
}

/// Serves the next item of a connection if it is complete, and writes what the writer accepts.
///
/// Serves no item while more than 65,536 bytes of its replies are unsent. Out of memory ends the connection.
pub fn serve_turn<L: ConnectionSource, K: Keeper, C: Clock>(
    alloc: Global,
    router: &Router<Endpoint>,
    headers: &mut [HeaderSpan],
    connection: &mut OpenConnection<L::Reader, L::Writer>,
    keeper: &mut K,
    clock: &mut C,
) -> Progress
    requires routed { RoutesCorrectly router.now }
    requires room { field_room ≤ length headers.old }
    requires is_open { K.closed keeper.old ≡ false }
    ensures room { length headers.new ≡ length headers.old }
    ensures served { K.honest keeper.new → Simulates K.Keeper keeper.old clock.old keeper.new clock.new
        (λ from to. (added : List Exchange) × AnswersItems C.reads from added to
        × (65536 < length connection.old.output.items → added ≡ [])
        × AddsExchanges L.Reader.remaining L.Writer.contents result connection.old added connection.new) }
    ensures number { connection.new.number ≡ connection.old.number }
    ensures input { KeepsInputSmall connection.old connection.new }
    ensures was { WasHonest K.Keeper keeper.old keeper.new }
{
    match serve_item(alloc, router, headers, connection, keeper, clock) {
        Progress::Complete => return Progress::Complete,
        Progress::Broken => return Progress::Broken,
        Progress::Open => {}
    }
    match flush(connection) {
        Progress::Complete => return Progress::Complete,
        Progress::Broken => return Progress::Broken,
        Progress::Open => {}
    }
    if L::has_failed(&connection.reader, &connection.writer) {
        return Progress::Broken;
    }
    Progress::Open
}

/// Serves the next item of a connection, if it is complete and not too many bytes are unsent. Its reply is
/// appended to the output.
fn serve_item<R: Read, W: Write, K: Keeper, C: Clock>(
    alloc: Global,
    router: &Router<Endpoint>,
    headers: &mut [HeaderSpan],
    connection: &mut OpenConnection<R, W>,
    keeper: &mut K,
    clock: &mut C,
) -> Progress
    requires routed { RoutesCorrectly router.now }
    requires room { field_room ≤ length headers.old }
    requires is_open { K.closed keeper.old ≡ false }
    ensures room { length headers.new ≡ length headers.old }
    ensures served { K.honest keeper.new → Simulates K.Keeper keeper.old clock.old keeper.new clock.new
        (λ from to. (added : List Exchange) × AnswersItems C.reads from added to
        × (65536 < length connection.old.output.items → added ≡ [])
        × AddsExchanges R.remaining W.contents result connection.old added connection.new) }
    ensures number { connection.new.number ≡ connection.old.number }
    ensures input { KeepsInputSmall connection.old connection.new }
    ensures was { WasHonest K.Keeper keeper.old keeper.new }
{
    if connection.finished || connection.output.len() > MAX_UNSENT {
        return Progress::Open;
    }
    match serve_counted(alloc, router, headers, connection, keeper, clock) {
        Ok(AfterItem::KeepAlive) => {
            connection.needed = 0;
            Progress::Open
        }
        Ok(AfterItem::Close) => {
            connection.finished = true;
            Progress::Open
        }
        Ok(AfterItem::Eof) => {
            connection.finished = true;
            Progress::Open
        }
        Err(DeskFault::Read) => {
            if connection.reads_left == 0 && connection.output.is_empty() {
                return Progress::Broken;
            }
            connection.needed = next_needed(connection.needed, &connection.input, headers);
            Progress::Open
        }
        Err(DeskFault::Write) => Progress::Broken,
        Err(DeskFault::NoMemory) => Progress::Broken,
    }
}

/// Serves the next item of a connection with at most 64 of the reads that are left. Its reply is appended to
/// the output.
fn serve_counted<R: Read, W, K: Keeper, C: Clock>(
    alloc: Global,
    router: &Router<Endpoint>,
    headers: &mut [HeaderSpan],
    connection: &mut OpenConnection<R, W>,
    keeper: &mut K,
    clock: &mut C,
) -> Result<AfterItem, DeskFault>
    requires routed { RoutesCorrectly router.now }
    requires room { field_room ≤ length headers.old }
    ensures room { length headers.new ≡ length headers.old }
    ensures next_item { ServesFirst K.Keeper C.reads keeper.old clock.old keeper.new clock.new
        (prepend_known connection.old.input.items (R.remaining connection.old.reader))
        (prepend_known connection.new.input.items (R.remaining connection.new.reader))
        (Some connection.old.output.items) (Some connection.new.output.items) result }
    ensures number { connection.new.number ≡ connection.old.number }
    ensures writer { connection.new.writer ≡ connection.old.writer }
    ensures finished { connection.new.finished ≡ connection.old.finished }
    ensures needed { connection.new.needed ≡ connection.old.needed }
    ensures fewer { connection.new.reads_left ≤ connection.old.reads_left }
    ensures limit { connection.old.needed + 1023 ≤ input_limit
        → StaysWithin input_limit connection.old.input.items connection.new.input.items }
    ensures was { WasHonest K.Keeper keeper.old keeper.new }
{
    let budget = connection.reads_left.min(READS_PER_TURN);
    let mut reader = CountedReader::with_budget(&mut connection.reader, budget);
    let served = serve_when_read(
        alloc,
        router,
        headers,
        &mut reader,
        &mut connection.output,
        keeper,
        clock,
        &mut connection.input,
        connection.needed,
    );
    let unused = reader.reads_left();
    connection.reads_left -= budget - unused;
    served
}

/// Reads until the input has `needed` bytes, and then serves the next item. So a body that arrives in many
/// pieces is counted, and its head is not parsed for each of them.
fn serve_when_read<R: Read, W: Write, K: Keeper, C: Clock>(
    alloc: Global,
    router: &Router<Endpoint>,
    headers: &mut [HeaderSpan],
    reader: &mut CountedReader<'_, R>,
    output: &mut W,
    keeper: &mut K,
    clock: &mut C,
    input: &mut Vec<u8>,
    needed: usize,
) -> Result<AfterItem, DeskFault>
    requires routed { RoutesCorrectly router.now }
    requires room { field_room ≤ length headers.old }
    ensures room { length headers.new ≡ length headers.old }
    ensures next_item { ServesFirst K.Keeper C.reads keeper.old clock.old keeper.new clock.new
        (prepend_known input.old.items (R.remaining reader.old.reader.now))
        (prepend_known input.new.items (R.remaining reader.new.reader.now))
        (W.contents output.old) (W.contents output.new) result }
    ensures was { WasHonest K.Keeper keeper.old keeper.new }
    ensures same_reference { reader.new.reader.ghost_name ≡ reader.old.reader.ghost_name }
    ensures limit { needed + 1023 ≤ input_limit → StaysWithin input_limit input.old.items input.new.items }
    ensures fewer { reader.new.left ≤ reader.old.left }
{
    match read_to(reader, input, needed) {
        Err(StreamFault::Read) => return Err(DeskFault::Read),
        Err(StreamFault::NoMemory) => return Err(DeskFault::NoMemory),
        Ok(_) => {}
    }
    serve_next_item(alloc, router, reader, output, keeper, clock, input, headers)
}

/// Returns how many bytes the input must have before the next item is complete: the same number if it has
/// fewer, else the length of the request at its front, or 0 if the head of that is not complete.
fn next_needed(needed: usize, input: &[u8], headers: &mut [HeaderSpan]) -> usize
    requires room { field_room ≤ length headers.old }
    ensures room { length headers.new ≡ length headers.old }
    ensures limit { needed + 1023 ≤ input_limit → result + 1023 ≤ input_limit }
{
    if input.len() < needed {
        return needed;
    }
    let end = input.len().min(HEAD_LIMIT);
    let window = &input[..end];
    match parse_head(window, headers) {
        HeadParse::Whole(spans) => match body_length_of(&spans, window, headers) {
            Ok(length) => spans.len + length,
            Err(_) => 0,
        },
        HeadParse::More | HeadParse::Never => 0,
    }
}

/// Writes what the writer accepts of the output. The connection is complete once its last reply is written.
fn flush<R, W: Write>(connection: &mut OpenConnection<R, W>) -> Progress
    ensures sent { (remaining : R → Option (List ℕ)) (bytes old : Option (List ℕ)) (xs : List Exchange)
        → IsOpenWith remaining W.contents bytes old xs connection.old
        → IsThen remaining W.contents result bytes old xs connection.new }
    ensures number { connection.new.number ≡ connection.old.number }
    ensures input { KeepsInputSmall connection.old connection.new }
{
    if !write_some(&mut connection.writer, &mut connection.output) {
        return Progress::Broken;
    }
    if is_complete(connection.finished, connection.output.as_slice()) {
        return Progress::Complete;
    }
    Progress::Open
}

/// Checks if the last reply is written.
fn is_complete(finished: bool, output: &[u8]) -> bool
    ensures { result ≡ true → (finished ≡ true) × (output.now ≡ []) }
{
    finished && output.is_empty()
}

/// Writes a prefix of the output and removes it. Returns `false` if the writer failed. Frees the capacity
/// that a long reply needed.
fn write_some<W: Write>(writer: &mut W, output: &mut Vec<u8>) -> bool
    ensures { (n : ℕ) × Appends (W.contents writer.old) (W.contents writer.new) (take n output.old.items)
        × (output.new.items ≡ drop n output.old.items) }
{
    if output.is_empty() {
        return true;
    }
    match writer.write(output.as_slice()) {
        Ok(0) => false,
        Ok(n) => {
            consume_front(output, n);
            true
        }
        Err(error) => {
            error.kind() == ErrorKind::WouldBlock || error.kind() == ErrorKind::Interrupted
        }
    }
}
