//! Authorizes requests by indexed lookups. Each verdict comes with the object or the entries that it read,
//! for the cache.

pub(crate) mod by_interest;
pub(crate) mod caller;
pub(crate) mod conveyancer;
pub(crate) mod interest;
pub(crate) mod mutation;
pub(crate) mod party;
pub(crate) mod query;
pub(crate) mod sheet;
pub(crate) mod view;
