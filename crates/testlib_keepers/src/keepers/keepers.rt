//! A conversation with each keeper.
use crate::each::{Trial, over_each};
use land_keep::keeper::Keeper;
use std::alloc::Global;
use testlib_scenario::run_scenario::play;
use testlib_scenario::stop::Stop;
use testlib_scenario::talk::Transcript;

/// A conversation, and the moments that the clock returns before it stays at 1000.
#[derive(Clone, Copy)]
struct Played<'a> {
    clock: &'static [i64],
    talk: &'a Transcript,
}

impl Trial for Played<'_> {
    fn run<K: Keeper>(&self, alloc: Global, keeper: &mut K) -> Result<(), Stop> {
        play(alloc, keeper, self.clock, self.talk)
    }
}

/// Plays a conversation with each keeper, and checks the replies byte for byte.
pub fn play_over_each(alloc: Global, clock: &'static [i64], talk: &Transcript) -> Result<(), Stop> {
    over_each(alloc, &Played { clock, talk })
}
