//! The requests: the first step, a registration, and the approvals of a transfer and of a subdivision, for
//! each keeper.
use crate::each::new_tables;
use crate::every_growth::growing::is_asked;
use land_keep::plain_keeper::PlainKeeper;
use land_select::sql_keeper::SqlKeeper;
use land_tables::table_keeper::TableKeeper;
use std::alloc::Global;
use testlib_scenario::stop::Stop;

/// The number of steps before each request.
const FIRST: usize = 0;

const REGISTRATION: usize = 9;

const TRANSFER: usize = 13;

const SUBDIVISION: usize = 17;

fn in_memory(rt: &impl Print, alloc: Global, place: usize) -> Result<(), Stop> {
    let mut keeper = PlainKeeper::new(alloc)?;
    is_asked(rt, alloc, &mut keeper, place)
}

fn over_tables(rt: &impl Print, alloc: Global, place: usize) -> Result<(), Stop> {
    let mut keeper = TableKeeper::new(new_tables(alloc)?);
    is_asked(rt, alloc, &mut keeper, place)
}

fn over_joins(rt: &impl Print, alloc: Global, place: usize) -> Result<(), Stop> {
    let mut keeper = SqlKeeper::new(new_tables(alloc)?);
    is_asked(rt, alloc, &mut keeper, place)
}

/// The first step, in memory.
pub fn an_enrolment_in_memory(rt: &impl Print, alloc: Global) -> Result<(), Stop> {
    in_memory(rt, alloc, FIRST)
}

/// The first step, on whole tables.
pub fn an_enrolment_over_tables(rt: &impl Print, alloc: Global) -> Result<(), Stop> {
    over_tables(rt, alloc, FIRST)
}

/// The first step, with indexed queries.
pub fn an_enrolment_over_joins(rt: &impl Print, alloc: Global) -> Result<(), Stop> {
    over_joins(rt, alloc, FIRST)
}

/// A registration, in memory.
pub fn a_registration_in_memory(rt: &impl Print, alloc: Global) -> Result<(), Stop> {
    in_memory(rt, alloc, REGISTRATION)
}

/// A registration, on whole tables.
pub fn a_registration_over_tables(rt: &impl Print, alloc: Global) -> Result<(), Stop> {
    over_tables(rt, alloc, REGISTRATION)
}

/// A registration, with indexed queries.
pub fn a_registration_over_joins(rt: &impl Print, alloc: Global) -> Result<(), Stop> {
    over_joins(rt, alloc, REGISTRATION)
}

/// The approval of a transfer, in memory.
pub fn a_transfer_in_memory(rt: &impl Print, alloc: Global) -> Result<(), Stop> {
    in_memory(rt, alloc, TRANSFER)
}

/// The approval of a transfer, on whole tables.
pub fn a_transfer_over_tables(rt: &impl Print, alloc: Global) -> Result<(), Stop> {
    over_tables(rt, alloc, TRANSFER)
}

/// The approval of a transfer, with indexed queries.
pub fn a_transfer_over_joins(rt: &impl Print, alloc: Global) -> Result<(), Stop> {
    over_joins(rt, alloc, TRANSFER)
}

/// The approval of a subdivision, in memory.
pub fn a_subdivision_in_memory(rt: &impl Print, alloc: Global) -> Result<(), Stop> {
    in_memory(rt, alloc, SUBDIVISION)
}

/// The approval of a subdivision, on whole tables.
pub fn a_subdivision_over_tables(rt: &impl Print, alloc: Global) -> Result<(), Stop> {
    over_tables(rt, alloc, SUBDIVISION)
}

/// The approval of a subdivision, with indexed queries.
pub fn a_subdivision_over_joins(rt: &impl Print, alloc: Global) -> Result<(), Stop> {
    over_joins(rt, alloc, SUBDIVISION)
}
