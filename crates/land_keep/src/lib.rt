//! The register machine, and the keepers of the register through time.
#![tactic(auto)]

pub mod clock;
pub mod keeper;
pub mod laws;
pub mod machine;
pub mod moments;
pub mod named;
pub mod plain_keeper;
pub mod prepared;
pub mod reply;
pub mod store_fault;
pub mod timeline;
pub mod view;
