//! Serves a byte stream of HTTP requests.
ghost use Rattle.std.specs.Prelude.{◌≡◌, ◌≤◌, ◌*◌, length};
ghost use Rattle.land_desk.specs.Keepers.{Reaches, ServesStream};
ghost use Rattle.land_desk.specs.Serving.Asking.{IfBoth, ReadsAtMost, ReadsOnlyItems};
ghost use Rattle.land_desk.specs.Turns.{CountsFailedRead, SpendsReadBudget};
ghost use Rattle.land_keep.specs.Keepers.{WasHonest};
ghost use Rattle.land_wire.specs.Framing.Stream.{field_room};
ghost use Rattle.land_wire.specs.Routes.Table.{RoutesCorrectly};

use crate::next_item::{AfterItem, serve_next_item};
use httparse::spans::{EMPTY_HEADER_SPAN, HeaderSpan};
use land_keep::clock::Clock;
use land_keep::keeper::Keeper;
use land_streams::counted_reader::CountedReader;
use land_wire::framing::head::FIELD_ROOM;
use land_wire::routes::table::{Endpoint, routes};
use matchit::Router;
use std::alloc::Global;
use std::io::{Read, Write};

/// The outcome of serving a stream.
#[derive(Clone, Copy, Debug, PartialEq, Eq)]
pub struct Served {
    /// The number of replies sent.
    pub replies: u64,
}

/// Why serving a stream ended early.
#[derive(Clone, Copy, Debug, PartialEq, Eq)]
pub enum DeskFault {
    /// A read failed, or the reader was called 10,000,000 times.
    Read,
    /// A write failed, or accepted no bytes. The change of the reply that was being written is committed.
    Write,
    /// Out of memory for the input.
    NoMemory,
}

/// Answers the requests of a stream in order, until the input ends or a reply closes the connection.
///
/// Reads chunks of 1024 bytes, at most 10,000,000 of them, and never reads past the last item.
pub fn serve<R: Read, W: Write, K: Keeper, C: Clock>(
    alloc: Global,
    reader: &mut R,
    writer: &mut W,
    keeper: &mut K,
    clock: &mut C,
) -> Result<Served, DeskFault>
    ensures served { ServesStream K.Keeper C.reads keeper.old clock.old keeper.new clock.new
        (R.remaining reader.old) (W.contents writer.old) (W.contents writer.new) result }
    ensures reached { Reaches K.Keeper C.reads keeper.old clock.old keeper.new clock.new }
    ensures was { WasHonest K.Keeper keeper.old keeper.new }
    ensures reads { ReadsOnlyItems (R.remaining reader.old) (R.remaining reader.new) result }
    ensures budget { ReadsAtMost (1024 * 10000000) (R.remaining reader.old) (R.remaining reader.new) }
{
    let Ok(router) = routes(alloc) else {
        return Err(DeskFault::NoMemory);
    };
    let Ok(mut headers) = vec![in alloc; EMPTY_HEADER_SPAN; FIELD_ROOM] else {
        return Err(DeskFault::NoMemory);
    };
    let mut counted = CountedReader::new(reader);
    serve_items(
        alloc,
        &router,
        &mut counted,
        writer,
        keeper,
        clock,
        &mut headers,
    )
}

/// Serves a stream with a router and header spans that are allocated once. `reader.left`: the calls of the
/// reader that are left.
fn serve_items<R: Read, W: Write, K: Keeper, C: Clock>(
    alloc: Global,
    router: &Router<Endpoint>,
    reader: &mut CountedReader<'_, R>,
    writer: &mut W,
    keeper: &mut K,
    clock: &mut C,
    headers: &mut [HeaderSpan],
) -> Result<Served, DeskFault>
    requires routed { RoutesCorrectly router.now }
    requires room { field_room ≤ length headers.old }
    requires budget { reader.old.left ≤ 10000000 }
    ensures served { ServesStream K.Keeper C.reads keeper.old clock.old keeper.new clock.new
        (R.remaining reader.old.reader.now) (W.contents writer.old) (W.contents writer.new) result }
    ensures reached { Reaches K.Keeper C.reads keeper.old clock.old keeper.new clock.new }
    ensures was { WasHonest K.Keeper keeper.old keeper.new }
    ensures reads { ReadsOnlyItems (R.remaining reader.old.reader.now)
        (R.remaining reader.new.reader.now) result }
    ensures budget { IfBoth (R.remaining reader.old.reader.now) (R.remaining reader.new.reader.now)
        (SpendsReadBudget (1024 * reader.old.left) (1024 * reader.new.left)) }
    ensures same_reference { reader.new.reader.ghost_name ≡ reader.old.reader.ghost_name }
    ensures read_fault { CountsFailedRead reader.old.left reader.new.left result }
{
    let mut buffer = Vec::new(alloc);
    let mut replies = 0;
    loop {
        match serve_next_item(
            alloc,
            router,
            reader,
            writer,
            keeper,
            clock,
            &mut buffer,
            headers,
        ) {
            Err(fault) => return Err(fault),
            Ok(AfterItem::Eof) => return Ok(Served { replies }),
            Ok(AfterItem::Close) => {
                return Ok(Served {
                    replies: replies + 1,
                });
            }
            Ok(AfterItem::KeepAlive) => replies += 1,
        }
    }
}
