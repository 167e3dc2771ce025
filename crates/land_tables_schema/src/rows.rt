//! The rows of the register's tables: statements that insert, close and list versions, the rows of a new
//! register, and the migration from schema version 1 to version 2.

pub mod cells;
pub mod creation;
pub mod openness;
pub mod schema_migration;
pub mod tables;
