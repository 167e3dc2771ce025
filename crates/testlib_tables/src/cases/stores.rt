//! Stores in memory, and their faults.
use land_tables::tables::Tables;
use sqlite::{Connection, MemStore};
use std::alloc::Global;
use testlib_scenario::stop::{Stop, expect};

/// Creates a register in a store. Returns the number of the fault, 0 if it was created, and the store.
pub fn create_fault(conn: Connection<MemStore>) -> (u16, Connection<MemStore>) {
    match Tables::create(conn) {
        Ok(tables) => {
            let is_new = tables.last() == 0 && tables.next() == 2 && !tables.is_closed();
            (if is_new { 0 } else { 1 }, tables.into_connection())
        }
        Err((conn, fault)) => (fault.number(), conn),
    }
}

/// Runs SQL statements on a store.
pub fn run(conn: &mut Connection<MemStore>, text: &str) -> Result<(), Stop> {
    conn.execute_batch(text)?;
    Ok(())
}

/// Runs SQL statements on the store in the option.
pub fn run_on(left: &mut Option<Connection<MemStore>>, text: &str) -> Result<(), Stop> {
    match left.as_mut() {
        Some(conn) => run(conn, text),
        None => Err(Stop::Call),
    }
}

/// Returns a new store on which SQL statements were run.
pub fn store_after_sql(alloc: Global, text: &str) -> Result<Connection<MemStore>, Stop> {
    let mut conn = Connection::open_in_memory(alloc)?;
    run(&mut conn, text)?;
    Ok(conn)
}

/// Fails if a fault is not the expected one. Running out of memory stops the test.
pub fn expect_fault(fault: u16, wanted: u16, name: &'static str, place: usize) -> Result<(), Stop> {
    if fault == 501 {
        return Err(Stop::Memory);
    }
    expect(fault == wanted, name, place)
}
