//! The rows of the tables after the scenario.
use crate::cases::run_scenario::{tables_after_more, tables_after_scenario};
use crate::cases::stores::{create_fault, expect_fault};
use std::alloc::Global;
use testlib_scenario::looks::{expect_rows_after_more, expect_rows_after_steps};
use testlib_scenario::stop::Stop;

/// The tables have the rows of the scenario, and creating a register in them fails.
pub fn tables_rows(alloc: Global) -> Result<(), Stop> {
    let (fault, conn) = create_fault(tables_after_scenario(alloc)?.into_connection());
    let mut conn = conn;
    expect_fault(fault, 502, "made again", 0)?;
    expect_rows_after_steps(alloc, &mut conn)
}

/// The tables have the rows of the scenario's sequel.
pub fn tables_rows_after_more(alloc: Global) -> Result<(), Stop> {
    let mut conn = tables_after_more(alloc)?.into_connection();
    expect_rows_after_more(alloc, &mut conn)
}
