//! A server with a keeper and a clock, for tests.
use land_desk::serve::{DeskFault, Served, serve};
use land_keep::keeper::Keeper;
use land_keep::plain_keeper::PlainKeeper;
use std::alloc::Global;
use testlib_scenario::doubles::{ChunkReader, ClockReadings, Sink};
pub use testlib_scenario::run_scenario::open_sink;
use testlib_scenario::stop::Stop;
pub use testlib_scenario::talk::common;
use testlib_scenario::talk::{ExpectedReply, Transcript};

/// A keeper with its clock.
#[derive(Drop)]
pub struct Office<'a, K> {
    pub keeper: &'a mut K,
    pub clock: ClockReadings,
}

impl<'a, K: Keeper> Office<'a, K> {
    /// Returns a server for a keeper. Its clock reads 1000 each time.
    pub fn of(keeper: &'a mut K) -> Office<'a, K> {
        Office {
            keeper,
            clock: ClockReadings { left: &[] },
        }
    }

    /// Serves a stream from a borrowed reader.
    pub fn serve_from(
        &mut self,
        alloc: Global,
        reader: &mut ChunkReader<'_>,
        writer: &mut Sink,
    ) -> Result<Served, DeskFault> {
        serve(alloc, reader, writer, self.keeper, &mut self.clock)
    }

    /// Serves a stream.
    pub fn serve(
        &mut self,
        alloc: Global,
        reader: ChunkReader<'_>,
        writer: &mut Sink,
    ) -> Result<Served, DeskFault> {
        let mut reader = reader;
        self.serve_from(alloc, &mut reader, writer)
    }

    /// Checks that the input, in chunks of this size, gets exactly these bytes, which are this number of
    /// replies. Returns an error if memory ran out.
    pub fn gives_replies(
        &mut self,
        alloc: Global,
        input: &[u8],
        piece: usize,
        replies: u64,
        answer: &[u8],
    ) -> Result<bool, Stop> {
        let mut sink = open_sink(alloc, answer.len())?;
        let reader = ChunkReader {
            left: input,
            piece,
            reads: u64::MAX,
        };
        let served = self.serve(alloc, reader, &mut sink);
        if is_out_of_memory(&served, &sink.taken, answer) {
            return Err(Stop::Memory);
        }
        Ok(served == Ok(Served { replies }) && sink.taken.as_slice() == answer)
    }

    /// Returns the name and the index of the first row whose reply differs, if any. The input arrives in
    /// chunks.
    pub fn first_mismatch(
        &mut self,
        alloc: Global,
        talk: &Transcript,
        piece: usize,
    ) -> Result<Option<(&'static str, usize)>, Stop> {
        let mut sink = open_sink(alloc, talk.output.len())?;
        let reader = ChunkReader {
            left: talk.input.as_slice(),
            piece,
            reads: u64::MAX,
        };
        let served = self.serve(alloc, reader, &mut sink);
        if is_out_of_memory(&served, &sink.taken, talk.output.as_bytes()) {
            return Err(Stop::Memory);
        }
        Ok(talk.first_mismatch(&served, &sink.taken))
    }
}

/// Checks whether memory ran out: serving stopped for it, or the first reply that differs has the status 503.
pub fn is_out_of_memory(served: &Result<Served, DeskFault>, taken: &[u8], wanted: &[u8]) -> bool {
    if *served == Err(DeskFault::NoMemory) {
        return true;
    }
    let same = common(taken, wanted);
    9 <= same && same <= taken.len() && taken[same - 9..].starts_with(b"HTTP/1.1 5")
}

/// Checks that a new server answers the input, in chunks of this size, with these bytes, which are this
/// number of replies.
pub fn is_answered(
    alloc: Global,
    input: &[u8],
    piece: usize,
    replies: u64,
    answer: &[u8],
) -> Result<bool, Stop> {
    let mut keeper = PlainKeeper::new(alloc)?;
    let mut office = Office::of(&mut keeper);
    office.gives_replies(alloc, input, piece, replies, answer)
}

/// Checks that a new server gives this reply to the input, which is one item, and whether it closes the
/// connection.
pub fn is_reply_as_expected(
    alloc: Global,
    input: &[u8],
    told: ExpectedReply,
    ends: bool,
) -> Result<bool, Stop> {
    let mut talk = Transcript::new(alloc)?;
    talk.tell(told, ends)?;
    is_answered(alloc, input, 50, 1, talk.output.as_bytes())
}
