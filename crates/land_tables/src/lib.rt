//! The register's timeline in versioned tables of `sqlite`.
#![tactic(auto)]

mod committing;
mod creating;
pub mod digest_laws;
pub mod failed_reads;
pub mod fault;
mod migrating;
mod opening;
mod register;
mod store_versions;
pub mod table_contents;
pub mod table_keeper;
pub mod tables;
pub mod timelines;
mod validation;
