//! The loop that serves all open connections.
ghost use Rattle.std.specs.Prelude.{◌≡◌, ◌+◌, ◌≤◌, false, ℕ, length};
ghost use Rattle.slab.specs.Slab.{get};
ghost use Rattle.land_keep.specs.Keepers.{Represents, WasHonest, state_of};
ghost use Rattle.land_pool.specs.Endings.{Records};
ghost use Rattle.land_pool.specs.Interleaving.{ReportsClosedStore, ServesAtOnce};
ghost use Rattle.land_pool.specs.OpenConnections.{AcceptsMore, ServesOn};
ghost use Rattle.land_wire.specs.Framing.Stream.{field_room};
ghost use Rattle.land_wire.specs.Routes.Table.{RoutesCorrectly};

use crate::connection_source::ConnectionSource;
use crate::open_connection::{OpenConnection, Progress, serve_turn};
use httparse::spans::{EMPTY_HEADER_SPAN, HeaderSpan};
use land_keep::clock::Clock;
use land_keep::keeper::Keeper;
use land_streams::counted_reader::MAX_READS;
use land_wire::framing::head::FIELD_ROOM;
use land_wire::routes::table::{Endpoint, routes};
use matchit::Router;
use slab::Slab;
use std::alloc::Global;

/// Why the service ended early.
#[derive(Clone, Copy, Debug, PartialEq, Eq)]
pub enum PoolFault {
    /// 502: a store operation failed, and the keeper is closed.
    Closed,
    /// Waiting for connections failed.
    Accept,
    /// 501: out of memory for the tables of the service.
    NoMemory,
}

/// Serves this number of connections, at most `at_once` of them at the same time.
///
/// A connection that is dropped, that fails or for which memory runs out ends only itself. Once a store
/// operation has failed, no other item is answered, and the error is `Closed`; the connections that are open
/// are dropped. If waiting for connections fails, the error is `Accept`. `NoMemory` is returned only before
/// the first connection is accepted.
pub fn serve_at_once<L: ConnectionSource, K: Keeper, C: Clock>(
    alloc: Global,
    source: &mut L,
    connections: u32,
    at_once: usize,
    keeper: &mut K,
    clock: &mut C,
) -> Result<(), PoolFault>
    ensures closed { ReportsClosedStore result (K.closed keeper.new) }
    ensures served { K.honest keeper.new → ServesAtOnce C.reads connections
        (state_of K.Keeper keeper.old clock.old) (Represents K.Keeper keeper.new clock.new)
        (L.coming source.old) (L.coming source.new) (L.ended source.old) (L.ended source.new) result }
    ensures was { WasHonest K.Keeper keeper.old keeper.new }
{
    if keeper.is_closed() {
        return Err(PoolFault::Closed);
    }
    let Ok(router) = routes(alloc) else {
        return Err(PoolFault::NoMemory);
    };
    let Ok(mut headers) = vec![in alloc; EMPTY_HEADER_SPAN; FIELD_ROOM] else {
        return Err(PoolFault::NoMemory);
    };
    serve_all(
        alloc,
        &router,
        &mut headers,
        source,
        connections,
        at_once,
        keeper,
        clock,
    )
}

/// Serves connections with a router and header spans that are allocated once. The keeper is open.
fn serve_all<L: ConnectionSource, K: Keeper, C: Clock>(
    alloc: Global,
    router: &Router<Endpoint>,
    headers: &mut [HeaderSpan],
    source: &mut L,
    connections: u32,
    at_once: usize,
    keeper: &mut K,
    clock: &mut C,
) -> Result<(), PoolFault>
    requires routed { RoutesCorrectly router.now }
    requires room { field_room ≤ length headers.old }
    requires is_open { K.closed keeper.old ≡ false }
    ensures closed { ReportsClosedStore result (K.closed keeper.new) }
    ensures served { K.honest keeper.new → ServesAtOnce C.reads connections
        (state_of K.Keeper keeper.old clock.old) (Represents K.Keeper keeper.new clock.new)
        (L.coming source.old) (L.coming source.new) (L.ended source.old) (L.ended source.new) result }
    ensures was { WasHonest K.Keeper keeper.old keeper.new }
{
    let mut pool: Slab<OpenConnection<L::Reader, L::Writer>> = Slab::new(alloc);
    let mut accepted: u32 = 0;
    for _round in 0..u64::MAX {
        if accepted >= connections && pool.is_empty() {
            return Ok(());
        }
        if source.wait().is_err() {
            return Err(PoolFault::Accept);
        }
        accepted = accept_if_room(alloc, source, &mut pool, accepted, connections, at_once);
        serve_ready(alloc, router, headers, source, &mut pool, keeper, clock);
        if keeper.is_closed() {
            return Err(PoolFault::Closed);
        }
    }
    Err(PoolFault::Accept)
}

/// Accepts the next connection if one is wanted, there is room for it, and one is pending. Returns the number
/// of connections accepted until now.
fn accept_if_room<L: ConnectionSource>(
    alloc: Global,
    source: &mut L,
    pool: &mut Slab<OpenConnection<L::Reader, L::Writer>>,
    accepted: u32,
    wanted: u32,
    at_once: usize,
) -> u32
    requires { accepted ≤ wanted }
    ensures wanted { result ≤ wanted }
    ensures accepts { (more : ℕ) × (result ≡ accepted + more)
        × AcceptsMore L.Reader.remaining L.Writer.contents L.fresh (get pool.old) (get pool.new)
        (L.coming source.old) (L.coming source.new) (L.ended source.old) (L.ended source.new) accepted more }
{
    if accepted == wanted || pool.len() >= at_once {
        return accepted;
    }
    accepted + accept_one(alloc, source, pool, accepted)
}

/// Accepts the next connection if one is pending. Returns the number of connections accepted, 0 or 1. One for
/// which there is no memory is dropped.
fn accept_one<L: ConnectionSource>(
    alloc: Global,
    source: &mut L,
    pool: &mut Slab<OpenConnection<L::Reader, L::Writer>>,
    accepted: u32,
) -> u32
    ensures one { result ≤ 1 }
    ensures accepts { AcceptsMore L.Reader.remaining L.Writer.contents L.fresh (get pool.old) (get pool.new)
        (L.coming source.old) (L.coming source.new) (L.ended source.old) (L.ended source.new)
        accepted result }
{
    let key = pool.vacant_key();
    let Ok((reader, writer)) = source.accept(key) else {
        return 0;
    };
    let connection = OpenConnection {
        number: u64::from(accepted),
        reader,
        writer,
        input: Vec::new(alloc),
        output: Vec::new(alloc),
        needed: 0,
        reads_left: MAX_READS,
        finished: false,
    };
    match pool.insert(connection) {
        Ok(_) => 1,
        Err(failed) => {
            close(source, failed.value, false);
            1
        }
    }
}

/// Serves one turn of each connection that is ready, until the store is closed.
fn serve_ready<L: ConnectionSource, K: Keeper, C: Clock>(
    alloc: Global,
    router: &Router<Endpoint>,
    headers: &mut [HeaderSpan],
    source: &mut L,
    pool: &mut Slab<OpenConnection<L::Reader, L::Writer>>,
    keeper: &mut K,
    clock: &mut C,
)
    requires routed { RoutesCorrectly router.now }
    requires room { field_room ≤ length headers.old }
    requires is_open { K.closed keeper.old ≡ false }
    ensures room { length headers.new ≡ length headers.old }
    ensures served { K.honest keeper.new → ServesOn L.Reader.remaining L.Writer.contents L.fresh C.reads
        (Represents K.Keeper keeper.old clock.old) (Represents K.Keeper keeper.new clock.new)
        (get pool.old) (get pool.new) (L.ended source.old) (L.ended source.new) }
    ensures was { WasHonest K.Keeper keeper.old keeper.new }
    ensures coming { L.coming source.new ≡ L.coming source.old }
{
    for _turn in 0..pool.capacity() {
        if keeper.is_closed() {
            return;
        }
        match source.next_ready() {
            None => return,
            Some(key) => serve_key(alloc, router, headers, source, pool, key, keeper, clock),
        }
    }
}

/// Serves one turn of the connection at a key, if there is one.
fn serve_key<L: ConnectionSource, K: Keeper, C: Clock>(
    alloc: Global,
    router: &Router<Endpoint>,
    headers: &mut [HeaderSpan],
    source: &mut L,
    pool: &mut Slab<OpenConnection<L::Reader, L::Writer>>,
    key: usize,
    keeper: &mut K,
    clock: &mut C,
)
    requires routed { RoutesCorrectly router.now }
    requires room { field_room ≤ length headers.old }
    requires is_open { K.closed keeper.old ≡ false }
    ensures room { length headers.new ≡ length headers.old }
    ensures served { K.honest keeper.new → ServesOn L.Reader.remaining L.Writer.contents L.fresh C.reads
        (Represents K.Keeper keeper.old clock.old) (Represents K.Keeper keeper.new clock.new)
        (get pool.old) (get pool.new) (L.ended source.old) (L.ended source.new) }
    ensures was { WasHonest K.Keeper keeper.old keeper.new }
    ensures coming { L.coming source.new ≡ L.coming source.old }
{
    let mut connection = match pool.try_remove(key) {
        None => return,
        Some(connection) => connection,
    };
    match serve_turn::<L, K, C>(alloc, router, headers, &mut connection, keeper, clock) {
        Progress::Open => {
            pool.insert_reserved(connection);
        }
        Progress::Complete => close(source, connection, true),
        Progress::Broken => close(source, connection, false),
    }
}

/// Closes a connection, and records its ending.
fn close<L: ConnectionSource>(
    source: &mut L,
    connection: OpenConnection<L::Reader, L::Writer>,
    complete: bool,
)
    ensures coming { L.coming source.new ≡ L.coming source.old }
    ensures ended { Records (L.ended source.old) (L.ended source.new) connection.number complete L.fresh
        (L.Writer.contents connection.writer) }
{
    let OpenConnection {
        number,
        reader,
        writer,
        ..
    } = connection;
    source.close(number, reader, writer, complete);
}
