//! The registers for which allocations are counted.
use crate::each::new_tables;
use land_core::ask::Request;
use land_keep::keeper::Keeper;
use land_keep::machine::answer;
use land_keep::reply::Reply;
use land_select::sql_keeper::SqlKeeper;
use land_tables::tables::Tables;
use sqlite::MemStore;
use std::alloc::Global;
use testlib_scenario::first::first_request;
use testlib_scenario::run_scenario::play_steps;
use testlib_scenario::stop::Stop;

/// The number of parties that are enrolled after the scenario.
const NEIGHBOURS: usize = 300;

/// Returns the store error of an enrolment: 0 if it succeeded, 1 for any other reply.
fn fault_of<K: Keeper>(alloc: Global, keeper: &mut K, request: &Request) -> u16 {
    if !request.is_well_formed() {
        return 1;
    }
    match answer(alloc, keeper, 1000, request) {
        Reply::Done(_) => 0,
        Reply::Store(number) => number,
        _ => 1,
    }
}

/// Continues if the enrolment succeeded.
fn pass(fault: u16) -> Result<(), Stop> {
    match fault {
        0 => Ok(()),
        501 => Err(Stop::Memory),
        _ => Err(Stop::Call),
    }
}

/// Enrols the given number of parties.
fn enrol_neighbours<K: Keeper>(
    alloc: Global,
    keeper: &mut K,
    request: &Request,
) -> Result<(), Stop> {
    for _ in 0..NEIGHBOURS {
        pass(fault_of(alloc, keeper, request))?;
    }
    Ok(())
}

/// Plays the scenario, and then enrols 300 parties without rights.
fn grow<K: Keeper>(alloc: Global, keeper: &mut K) -> Result<(), Stop> {
    play_steps(alloc, keeper)?;
    let request = first_request(alloc)?;
    enrol_neighbours(alloc, keeper, &request)
}

/// Creates the tables of such a register.
pub fn large_tables(alloc: Global) -> Result<Tables<MemStore>, Stop> {
    let mut keeper = SqlKeeper::new(new_tables(alloc)?);
    grow(alloc, &mut keeper)?;
    Ok(keeper.into_tables())
}
