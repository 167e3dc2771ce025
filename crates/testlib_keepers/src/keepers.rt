//! The worked rows as bytes, with each keeper: in memory, on whole tables, and with indexed queries. The
//! replies have to be those of the rows, byte for byte, so all keepers return the same.

pub(crate) mod keepers;
mod looks;
mod parcels;
mod requests;
mod story;
mod streams;
mod turns;
pub mod two_keepers;
