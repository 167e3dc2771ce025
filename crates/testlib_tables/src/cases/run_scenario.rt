//! Registers in tables, and scenarios that are played on them.
use land_tables::fault::AdoptFault;
use land_tables::table_keeper::TableKeeper;
use land_tables::tables::Tables;
use sqlite::{Alter, Connection, MemStore};
use std::alloc::Global;
use testlib_scenario::run_scenario::{play_more, play_steps};
use testlib_scenario::stop::Stop;

/// Creates the tables of a new register in a store.
pub fn create_or_stop<S: Alter + Drop>(conn: Connection<S>) -> Result<Tables<S>, Stop> {
    match Tables::create(conn) {
        Ok(tables) => Ok(tables),
        Err((_, fault)) => Err(Stop::from(fault)),
    }
}

/// Returns why a test stops if a store is refused.
fn stop_after_fault(fault: AdoptFault) -> Stop {
    match fault {
        AdoptFault::NoMemory => Stop::Memory,
        _ => Stop::Call,
    }
}

/// Opens the tables of a store.
pub fn adopt_or_stop<S: Alter + Drop>(
    alloc: Global,
    conn: Connection<S>,
) -> Result<Tables<S>, Stop> {
    match Tables::adopt(alloc, conn) {
        Ok(tables) => Ok(tables),
        Err((_, fault)) => Err(stop_after_fault(fault)),
    }
}

/// Plays the scenario on tables.
fn play_scenario_on<S: Alter + Drop>(alloc: Global, tables: Tables<S>) -> Result<Tables<S>, Stop> {
    let mut keeper = TableKeeper::new(tables);
    play_steps(alloc, &mut keeper)?;
    Ok(keeper.into_tables())
}

/// Plays the sequel of the scenario on tables.
fn play_more_on<S: Alter + Drop>(alloc: Global, tables: Tables<S>) -> Result<Tables<S>, Stop> {
    let mut keeper = TableKeeper::new(tables);
    play_more(alloc, &mut keeper)?;
    Ok(keeper.into_tables())
}

/// Creates the tables of a new register in memory.
pub fn new_tables(alloc: Global) -> Result<Tables<MemStore>, Stop> {
    create_or_stop(Connection::open_in_memory(alloc)?)
}

/// Returns tables in memory after the scenario.
pub fn tables_after_scenario(alloc: Global) -> Result<Tables<MemStore>, Stop> {
    play_scenario_on(alloc, new_tables(alloc)?)
}

/// Returns tables in memory after the scenario and its sequel. The store is opened again between the two.
pub fn tables_after_more(alloc: Global) -> Result<Tables<MemStore>, Stop> {
    let conn = tables_after_scenario(alloc)?.into_connection();
    play_more_on(alloc, adopt_or_stop(alloc, conn)?)
}
