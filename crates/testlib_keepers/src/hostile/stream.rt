//! A stream that a keeper serves, with its expected end.
use land_desk::serve::{DeskFault, Served, serve};
use land_keep::keeper::Keeper;
use std::alloc::Global;
use testlib_scenario::doubles::{ChunkReader, ClockReadings, Sink};
use testlib_scenario::run_scenario::{open_sink, ran_out_of_memory};
use testlib_scenario::stop::Stop;

/// A stream that arrives in chunks until the given number of reads, with a writer that accepts the given
/// number of bytes, one at a time; and the expected result, replies, and stamp of the latest change.
#[derive(Clone, Copy)]
pub struct Stream<'a> {
    pub input: &'a [u8],
    pub piece: usize,
    pub reads: u64,
    pub writes: usize,
    pub ending: Result<Served, DeskFault>,
    pub told: &'a [u8],
    pub last: i64,
}

impl Stream<'_> {
    /// Returns a writer that accepts the given number of bytes, one at a time, and then fails.
    fn sink(&self, alloc: Global) -> Result<Sink, Stop> {
        let mut sink = open_sink(alloc, self.told.len())?;
        sink.piece = 1;
        sink.writes = self.writes;
        sink.fails = true;
        Ok(sink)
    }

    /// Checks if a keeper serves the stream as expected, with the clock at 1000. The test ends without a
    /// failure if out of memory.
    pub fn is_served<K: Keeper>(&self, alloc: Global, keeper: &mut K) -> Result<bool, Stop> {
        let mut reader = ChunkReader {
            left: self.input,
            piece: self.piece,
            reads: self.reads,
        };
        let mut sink = self.sink(alloc)?;
        let mut clock = ClockReadings { left: &[] };
        let ending = serve(alloc, &mut reader, &mut sink, keeper, &mut clock);
        if ran_out_of_memory(&ending, &sink.taken, self.told) {
            return Err(Stop::Memory);
        }
        Ok(
            ending == self.ending
                && sink.taken.as_slice() == self.told
                && keeper.last() == self.last,
        )
    }
}
