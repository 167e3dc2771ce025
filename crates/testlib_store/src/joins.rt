//! Tests of the queries of `land_select_queries`: they run on SQLite in memory, and return the numbers that a
//! reader of the rows expects.

pub mod sights;
