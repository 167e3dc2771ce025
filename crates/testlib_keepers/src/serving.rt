//! Streams of requests to a keeper.
use land_desk::serve::{DeskFault, Served, serve};
use land_keep::keeper::Keeper;
use std::alloc::Global;
use testlib_scenario::doubles::{ChunkReader, ClockReadings, Sink};

/// Serves a stream with a keeper and the clock at 1000. Clears the output of the stream before.
pub fn serve_stream<K: Keeper>(
    alloc: Global,
    keeper: &mut K,
    input: &[u8],
    told: &mut Sink,
) -> Result<Served, DeskFault> {
    told.taken.clear();
    let mut reader = ChunkReader {
        left: input,
        piece: 4096,
        reads: u64::MAX,
    };
    let mut clock = ClockReadings { left: &[] };
    serve(alloc, &mut reader, told, keeper, &mut clock)
}
