//! A new register.
use crate::rows::table::{Table, expect_tables, unexpected_store};
use land_tables_schema::rows::creation::make_register;
use land_tables_schema::schema::{is_empty, is_schema_v2};
use sqlite::{Connection, Error, MemStore};
use std::alloc::Global;
use testlib_scenario::stop::{Stop, expect};

/// Returns a new register in memory.
pub fn new_register(alloc: Global) -> Result<Connection<MemStore>, Error> {
    let mut conn = Connection::open_in_memory(alloc)?;
    if !is_empty(conn.schema()) || !conn.is_autocommit() {
        return Err(unexpected_store());
    }
    make_register(&mut conn)?;
    Ok(conn)
}

/// The rows of a new register.
const FIRST: &[(Table, &str)] = &[
    (Table::Edition, "1|2|\n"),
    (Table::Moments, "0|2|\n"),
    (
        Table::Party,
        "1|Land Office|nonNaturalPerson|0|4102444800000|\n",
    ),
    (Table::Role, "1|stateAdministrator|0|4102444800000|\n"),
    (Table::Member, ""),
    (Table::Unit, ""),
    (Table::Parcel, ""),
    (Table::Rrr, ""),
    (Table::Source, ""),
    (Table::Mutation, ""),
    (Table::Names, ""),
    (Table::Mandate, ""),
];

/// A new register has the tables of a register, and its first rows.
pub fn a_new_register_has_its_first_rows(alloc: Global) -> Result<(), Stop> {
    let mut conn = new_register(alloc)?;
    expect(
        is_schema_v2(conn.schema()) && conn.is_autocommit(),
        "tables",
        0,
    )?;
    expect_tables(alloc, &mut conn, FIRST)
}
