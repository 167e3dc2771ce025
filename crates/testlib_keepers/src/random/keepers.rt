//! The three keepers of one register.
use crate::random::page::{Page, tell};
use land_keep::keeper::Keeper;
use std::alloc::Global;
use testlib_scenario::run_scenario::play_steps;
use testlib_scenario::stop::{Stop, expect};

/// A register in memory, one on whole tables, and one with indexed queries.
#[derive(Drop)]
pub struct Keepers<'a, P, T, J> {
    pub plain: &'a mut P,
    pub tables: &'a mut T,
    pub joins: &'a mut J,
    /// The number of lists that were compared.
    pub lists: usize,
}

impl<P: Keeper, T: Keeper, J: Keeper> Keepers<'_, P, T, J> {
    /// Plays the scenario with each of them.
    pub fn play_scenario(&mut self, alloc: Global) -> Result<(), Stop> {
        play_steps(alloc, self.plain)?;
        play_steps(alloc, self.tables)?;
        play_steps(alloc, self.joins)
    }

    /// Checks that all of them return the same reply to the request on a page.
    pub fn expect_same_replies(
        &mut self,
        alloc: Global,
        page: &mut Page,
        place: usize,
    ) -> Result<(), Stop> {
        tell(alloc, self.plain, page.request.as_str(), &mut page.told)?;
        tell(alloc, self.tables, page.request.as_str(), &mut page.other)?;
        expect(page.is_alike(), "told by tables", place)?;
        tell(alloc, self.joins, page.request.as_str(), &mut page.other)?;
        expect(page.is_alike(), "told by joins", place)?;
        page.tally.count(&page.told.taken);
        Ok(())
    }
}
