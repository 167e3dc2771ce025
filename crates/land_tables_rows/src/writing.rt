//! Effects of writing on the tables of versions, by the decoded rows: a version begins, or the current one is
//! closed.

pub mod laws;
