//! A new register that is opened as a store and then used: each allocation of this may fail in turn.
use crate::cases::run_scenario::{adopt_or_stop, new_tables};
use land_tables::table_keeper::TableKeeper;
use land_tables::tables::Tables;
use sqlite::MemStore;
use std::alloc::Global;
use testlib_scenario::run_scenario::play_first;
use testlib_scenario::stop::{Stop, expect};

/// Opens the tables of a new register.
fn adopt_new_tables(alloc: Global) -> Result<Tables<MemStore>, Stop> {
    let conn = new_tables(alloc)?.into_connection();
    adopt_or_stop(alloc, conn)
}

/// A new register that is opened has its last stamp and its next number, and accepts changes.
pub fn a_new_register_goes_on(alloc: Global) -> Result<(), Stop> {
    let tables = adopt_new_tables(alloc)?;
    let is_new = tables.last() == 0 && tables.next() == 2;
    let mut keeper = TableKeeper::new(tables);
    expect(is_new, "a new register", 0)?;
    play_first(alloc, &mut keeper)
}
