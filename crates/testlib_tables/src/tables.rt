//! Test cases of `land_tables`, and of the crates below it that no lower crate tests: calls succeed with
//! SQLite in memory, and the rows are those that the program `sqlite3` would print (docs/TABLES.md).
//! Corrupted tables are in `damage`, disks that stop in `testlib_stops`.

pub mod again;
pub mod continuing;
pub mod creating;
pub mod migrating;
pub mod replies;
pub mod rows;
pub mod stamps;
