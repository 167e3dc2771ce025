//! A new register in a store, and stores in which none is created.
use crate::cases::stores::{create_fault, expect_fault, store_after_sql};
use sqlite::{Connection, MemStore};
use std::alloc::Global;
use testlib_scenario::looks::{Look, look_at};
use testlib_scenario::stop::Stop;

/// The rows of a new register.
const NEW: &[Look] = &[
    Look("SELECT * FROM edition", "1|2|\n"),
    Look("SELECT * FROM moments", "0|2|\n"),
    Look(
        "SELECT * FROM party",
        "1|Land Office|nonNaturalPerson|0|4102444800000|\n",
    ),
    Look(
        "SELECT * FROM role",
        "1|stateAdministrator|0|4102444800000|\n",
    ),
    Look("SELECT * FROM member", ""),
    Look("SELECT * FROM unit", ""),
    Look("SELECT * FROM parcel", ""),
    Look("SELECT * FROM rrr", ""),
    Look("SELECT * FROM source", ""),
    Look("SELECT * FROM mutation", ""),
    Look("SELECT * FROM names", ""),
    Look("SELECT * FROM mandate", ""),
];

/// SQL statements that are run on an empty store, and the fault that `create` then returns, 0 if it creates a
/// register.
struct CreateCase(&'static str, u16);

const CREATE_CASES: &[CreateCase] = &[
    CreateCase("", 0),
    CreateCase("CREATE TABLE other (x INTEGER)", 502),
    CreateCase("CREATE VIEW other AS SELECT 1", 502),
    CreateCase("CREATE TABLE party (number INTEGER NOT NULL)", 502),
    CreateCase("CREATE TABLE other (x INTEGER); DROP TABLE other", 0),
];

/// Returns the fault of `create` after SQL statements.
fn fault_after_sql(alloc: Global, text: &str) -> Result<u16, Stop> {
    Ok(create_fault(store_after_sql(alloc, text)?).0)
}

/// A register is created if the store is empty.
pub fn a_register_is_made_in_an_empty_store(alloc: Global) -> Result<(), Stop> {
    for (place, begin) in CREATE_CASES.iter().enumerate() {
        expect_fault(fault_after_sql(alloc, begin.0)?, begin.1, "begin", place)?;
    }
    Ok(())
}

/// Creates a register in a store twice.
fn create_twice(alloc: Global) -> Result<(u16, u16, Connection<MemStore>), Stop> {
    let (first, conn) = create_fault(store_after_sql(alloc, "")?);
    let (second, conn) = create_fault(conn);
    Ok((first, second, conn))
}

/// A register is created in an empty store, is not created there again, and its tables are then unchanged.
pub fn a_register_is_made_once(alloc: Global) -> Result<(), Stop> {
    let (first, second, back) = create_twice(alloc)?;
    let mut conn = back;
    expect_fault(first, 0, "made", 0)?;
    expect_fault(second, 502, "made again", 0)?;
    look_at(alloc, &mut conn, NEW)
}
