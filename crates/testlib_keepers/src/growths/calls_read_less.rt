//! Calls that read less than whole tables: verdicts, objects, title sheets and slices. The register has 300
//! more parties, so that each call concerns a small part of it.
use crate::growths::marks::mark_end;
use crate::growths::registers::large_tables;
use crate::growths::shown::{expect_objects, expect_sheet_entries};
use crate::growths::slices::expect_slices;
use crate::growths::verdicts::expect_verdicts;
use land_keep::keeper::Keeper;
use land_select::sql_keeper::SqlKeeper;
use land_tables::table_keeper::TableKeeper;
use std::alloc::Global;
use testlib_scenario::stop::Stop;

/// Makes each call. Prints a line before each, and one after the last.
fn expect_replies<K: Keeper>(rt: &impl Print, alloc: Global, keeper: &mut K) -> Result<(), Stop> {
    expect_verdicts(rt, alloc, keeper)?;
    expect_objects(rt, alloc, keeper)?;
    expect_sheet_entries(rt, alloc, keeper)?;
    expect_slices(rt, alloc, keeper)?;
    mark_end(rt)
}

/// Tests the calls on whole tables.
pub fn calls_by_tables(rt: &impl Print, alloc: Global) -> Result<(), Stop> {
    let mut keeper = TableKeeper::new(large_tables(alloc)?);
    expect_replies(rt, alloc, &mut keeper)
}

/// Tests the calls with indexed queries.
pub fn calls_by_joins(rt: &impl Print, alloc: Global) -> Result<(), Stop> {
    let mut keeper = SqlKeeper::new(large_tables(alloc)?);
    expect_replies(rt, alloc, &mut keeper)
}
