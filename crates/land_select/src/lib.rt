//! The indexed keeper (`SqlKeeper`): SQL queries select the objects that a caller sees, and lookups by key
//! read records.
#![tactic(auto)]

mod cache;
mod known_roles;
pub mod laws;
mod object;
mod objects;
mod query;
mod sight;
pub mod sight_text;
mod slice_query;
pub mod slices;
pub mod sql_keeper;
mod verdict;
mod view;
