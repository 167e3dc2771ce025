//! Checks that a store is open.
use land_tables_schema::rows::openness::is_open;
use sqlite::Connection;
use std::alloc::Global;
use testlib_scenario::stop::{Stop, expect};

/// A store is open, even if it is out of memory: the test holds for each injected allocation failure.
pub fn a_store_is_open_when_out_of_memory(alloc: Global) -> Result<(), Stop> {
    let mut conn = Connection::open_in_memory(alloc)?;
    expect(is_open(&mut conn), "open", 0)
}
