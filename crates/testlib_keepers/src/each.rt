//! The three keepers of a new register: in memory (`PlainKeeper`), on tables that are read whole
//! (`TableKeeper`), and on the same tables with indexed queries (`SqlKeeper`).
use land_keep::keeper::Keeper;
use land_keep::plain_keeper::PlainKeeper;
use land_select::sql_keeper::SqlKeeper;
use land_tables::table_keeper::TableKeeper;
use land_tables::tables::Tables;
use sqlite::{Connection, MemStore};
use std::alloc::Global;
use testlib_scenario::stop::Stop;

/// Creates the tables of a new register.
pub fn new_tables(alloc: Global) -> Result<Tables<MemStore>, Stop> {
    match Tables::create(Connection::open_in_memory(alloc)?) {
        Ok(tables) => Ok(tables),
        Err((_, fault)) => Err(Stop::from(fault)),
    }
}

/// A test case for a new register, with any keeper.
pub trait Trial {
    /// Runs the test case.
    fn run<K: Keeper>(&self, alloc: Global, keeper: &mut K) -> Result<(), Stop>;
}

/// Runs the test case for each keeper, each on a new register.
pub fn over_each<T: Trial>(alloc: Global, trial: &T) -> Result<(), Stop> {
    let mut memory = PlainKeeper::new(alloc)?;
    trial.run(alloc, &mut memory)?;
    let mut tables = TableKeeper::new(new_tables(alloc)?);
    trial.run(alloc, &mut tables)?;
    let mut joins = SqlKeeper::new(new_tables(alloc)?);
    trial.run(alloc, &mut joins)
}
