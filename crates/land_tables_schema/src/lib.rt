//! The register's tables in SQLite: their shapes, the SQL statements that create them, checks of a schema;
//! and their rows, with the statements that insert, close and list versions.
#![tactic(auto)]

pub mod columns;
pub mod indexes;
pub mod keys;
pub mod laws;
pub mod making;
pub mod rows;
pub mod schema;
pub mod schema_v1;
pub mod shape;
pub mod tables;
pub mod terms;
