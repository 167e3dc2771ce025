//! Calls that run out of memory and are repeated. `.ci/oom-tests` fails each of their allocations in turn:
//! then nothing has changed, and the same call succeeds.
use crate::cases::run_scenario::{adopt_or_stop, create_or_stop};
use land_core::ask::Request;
use land_keep::keeper::Keeper;
use land_keep::store_fault::StoreFault;
use land_tables::fault::AdoptFault;
use land_tables::table_keeper::TableKeeper;
use land_tables::tables::Tables;
use sqlite::{Connection, MemStore};
use std::alloc::Global;
use testlib_scenario::first::{first_fault, first_request};
use testlib_scenario::looks::{Look, look_at};
use testlib_scenario::stop::{Stop, expect};

/// The rows of the tables after Anna is enrolled, regardless of repeated calls.
const ONCE: &[Look] = &[
    Look("SELECT * FROM edition", "1|2|\n"),
    Look("SELECT * FROM moments ORDER BY stamp", "0|2|\n1000|3|\n"),
    Look(
        "SELECT * FROM party ORDER BY number",
        "1|Land Office|nonNaturalPerson|0|4102444800000|\n\
        2|Anna|naturalPerson|1000|4102444800000|\n",
    ),
    Look(
        "SELECT * FROM role ORDER BY party",
        "1|stateAdministrator|0|4102444800000|\n\
        2|citizen|1000|4102444800000|\n",
    ),
];

/// Creates the tables of a new register in a store in which creation ran out of memory.
fn retry_create(conn: Connection<MemStore>, fault: StoreFault) -> Result<Tables<MemStore>, Stop> {
    match fault {
        StoreFault::NoMemory => create_or_stop(conn),
        _ => Err(Stop::Call),
    }
}

/// Creates the tables of a new register, once more if it ran out of memory.
fn create_with_retry(conn: Connection<MemStore>) -> Result<Tables<MemStore>, Stop> {
    match Tables::create(conn) {
        Ok(tables) => Ok(tables),
        Err((conn, fault)) => retry_create(conn, fault),
    }
}

/// Opens a store that ran out of memory while it was opened.
fn retry_adopt(
    alloc: Global,
    conn: Connection<MemStore>,
    fault: AdoptFault,
) -> Result<Tables<MemStore>, Stop> {
    match fault {
        AdoptFault::NoMemory => adopt_or_stop(alloc, conn),
        _ => Err(Stop::Call),
    }
}

/// Opens the tables of a store, once more if it ran out of memory.
fn adopt_with_retry(alloc: Global, conn: Connection<MemStore>) -> Result<Tables<MemStore>, Stop> {
    match Tables::adopt(alloc, conn) {
        Ok(tables) => Ok(tables),
        Err((conn, fault)) => retry_adopt(alloc, conn, fault),
    }
}

/// Returns the reply of the first step, which is requested once more if it ran out of memory.
fn fault_with_retry<K: Keeper>(alloc: Global, keeper: &mut K, request: &Request) -> u16 {
    match first_fault(alloc, keeper, request) {
        501 => first_fault(alloc, keeper, request),
        fault => fault,
    }
}

/// Creates a register, opens it as a store, and writes to it.
fn register_with_retries(
    alloc: Global,
    request: &Request,
) -> Result<(u16, Tables<MemStore>), Stop> {
    let new = create_with_retry(Connection::open_in_memory(alloc)?)?;
    let mut keeper = TableKeeper::new(adopt_with_retry(alloc, new.into_connection())?);
    let fault = fault_with_retry(alloc, &mut keeper, request);
    Ok((fault, keeper.into_tables()))
}

/// Repeated calls lead to the same rows as calls that never run out of memory.
pub fn calls_that_lacked_memory_are_made_again(alloc: Global) -> Result<(), Stop> {
    let request = first_request(alloc)?;
    let (fault, tables) = register_with_retries(alloc, &request)?;
    let mut conn = tables.into_connection();
    expect(fault == 0, "fault", 0)?;
    look_at(alloc, &mut conn, ONCE)
}
