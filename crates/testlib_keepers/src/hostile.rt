//! Robustness tests with each keeper: a request that is truncated after each of its bytes, a reply whose
//! writer fails after each of its bytes, and the largest registration.

pub mod every_cut;
pub mod every_write;
pub mod largest;
mod stream;
