//! Tests of `land_tables_schema` and of the rows in its tables, on SQLite in memory.

pub mod openness;
pub mod register;
mod table;
pub mod versions;
