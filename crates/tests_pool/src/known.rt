//! Connections whose inputs, outputs and endings are known. At this source, the statement on connections that
//! are served at once names the bytes that arrive and those that are written.
ghost use Rattle.std.specs.Prelude.{[], Some, map as map_list};
ghost use Rattle.land_keep.specs.Keepers.{Represents, state_of};
ghost use Rattle.land_pool.specs.Interleaving.{ServesAtOnce};

use crate::conclusion::conclude;
use land_keep::clock::Clock;
use land_keep::keeper::Keeper;
use land_keep::plain_keeper::PlainKeeper;
use land_pool::connection_source::ConnectionSource;
use land_pool::pool::{PoolFault, serve_at_once};
use std::alloc::{AllocError, Global};
use std::collections::VecDeque;
use std::io;
use std::process::Abort;
use std::rt::HostRuntime;
use std::test::Fail;
use testlib_scenario::calls::{CUT, ENROL, ENROLLED, expect_output};
use testlib_scenario::doubles::ClockReadings;
use testlib_scenario::stop::{Stop, expect};

/// The number of keys that are ready in each round.
const KEYS: usize = 2;

/// The first bytes of a request.
const BEGUN: &[u8] = b"POST /acts/enrol HTTP/1.1\r\nX: ";

/// A connection that ended, with all bytes that were written to it.
#[derive(Drop)]
struct KnownEnding {
    number: u64,
    complete: bool,
    written: Vec<u8>,
}

/// A source of connections with these inputs. Waiting fails after `rounds_left` rounds.
#[derive(Drop)]
struct KnownSource<M> {
    machine: M,
    alloc: Global,
    pending: VecDeque<VecDeque<u8>>,
    endings: Vec<KnownEnding>,
    next: usize,
    rounds_left: u64,
}

impl<M: Abort> ConnectionSource for KnownSource<M> {
    type Reader = VecDeque<u8>;

    type Writer = Vec<u8>;

    ghost coming = { λ it. Some (map_list (λ input. Some input.items) it.pending.items) };

    ghost ended = { λ it. Some (map_list (λ ending. record {
      number = ending.number;
      complete = ending.complete;
      fresh = Some [];
      written = Some ending.written.items;
    }) it.endings.items) };

    ghost fresh = { Some [] };

    fn wait(&mut self) -> io::Result<()> {
        if self.rounds_left == 0 {
            return Err(io::Error::from(io::ErrorKind::TimedOut));
        }
        self.rounds_left -= 1;
        Ok(())
    }

    fn accept(&mut self, _key: usize) -> io::Result<(VecDeque<u8>, Vec<u8>)> {
        match self.pending.pop_front() {
            Some(input) => Ok((input, Vec::new(self.alloc))),
            None => Err(io::Error::from(io::ErrorKind::WouldBlock)),
        }
    }

    fn next_ready(&mut self) -> Option<usize> {
        if self.next >= KEYS {
            self.next = 0;
            return None;
        }
        let key = self.next;
        self.next += 1;
        Some(key)
    }

    /// Records the ending, for which there is room.
    fn close(&mut self, number: u64, _reader: VecDeque<u8>, writer: Vec<u8>, complete: bool) {
        let ending = KnownEnding {
            number,
            complete,
            written: writer,
        };
        match self.endings.push(ending) {
            Ok(()) => {}
            Err(_) => panic!(self.machine; "no room for an ending"),
        }
    }

    fn has_failed(_reader: &VecDeque<u8>, _writer: &Vec<u8>) -> bool {
        false
    }
}

/// Serves this number of connections of a source, two at once.
fn serve_known<M: Abort, K: Keeper, C: Clock>(
    source: &mut KnownSource<M>,
    connections: u32,
    keeper: &mut K,
    clock: &mut C,
) -> Result<(), PoolFault>
    ensures { K.honest keeper.new → ServesAtOnce C.reads connections
        (state_of K.Keeper keeper.old clock.old) (Represents K.Keeper keeper.new clock.new)
        (Some (map_list (λ input. Some input.items) source.old.pending.items))
        (Some (map_list (λ input. Some input.items) source.new.pending.items))
        (Some (map_list (λ ending. record {
          number = ending.number;
          complete = ending.complete;
          fresh = Some [];
          written = Some ending.written.items;
        }) source.old.endings.items))
        (Some (map_list (λ ending. record {
          number = ending.number;
          complete = ending.complete;
          fresh = Some [];
          written = Some ending.written.items;
        }) source.new.endings.items)) result }
{
    serve_at_once(source.alloc, source, connections, KEYS, keeper, clock)
}

/// Returns queues of these bytes.
fn queues(alloc: Global, inputs: &[&[u8]]) -> Result<VecDeque<VecDeque<u8>>, AllocError> {
    let mut queues = VecDeque::new(alloc);
    for input in inputs {
        let mut queue = VecDeque::new(alloc);
        for byte in *input {
            queue.push_back(*byte)?;
        }
        queues.push_back(queue)?;
    }
    Ok(queues)
}

/// Serves a request and the start of one, and checks what was written.
fn two_known<M: Abort + Drop>(machine: M, alloc: Global) -> Result<(), Stop> {
    let mut source = KnownSource {
        machine,
        alloc,
        pending: queues(alloc, &[ENROL, BEGUN])?,
        endings: Vec::with_capacity(alloc, KEYS)?,
        next: 0,
        rounds_left: 1000,
    };
    let mut keeper = PlainKeeper::new(alloc)?;
    let mut clock = ClockReadings { left: &[] };
    match serve_known(&mut source, 2, &mut keeper, &mut clock) {
        Ok(()) => {}
        Err(PoolFault::NoMemory) => return Err(Stop::Memory),
        Err(_) => return Err(Stop::Mismatch("the ending", 0)),
    }
    expect(source.endings.len() == 2, "the endings", 0)?;
    for (place, ending) in source.endings.iter().enumerate() {
        if !ending.complete {
            return Err(Stop::Memory);
        }
        let wanted = if ending.number == 0 { ENROLLED } else { CUT };
        expect_output(place, &ending.written, wanted)?;
    }
    Ok(())
}

#[test]
fn known_connections_are_served_as_stated(rt: HostRuntime) -> Result<(), Fail> {
    let alloc = rt.alloc();
    conclude(&rt, two_known(&rt, alloc))
}
