//! Random registers, with each keeper: requests that follow from a seed are sent to the register in memory,
//! to whole tables, and to the indexed keeper. All three return the same replies, byte for byte. Then the
//! register in memory and the indexed keeper return the same lists to each party and to callers that are not
//! parties, in each role and of each kind, now and at random times; whole tables do so for a random part of
//! these lists.

mod dice;
mod drafts;
mod drawn;
mod keepers;
pub(crate) mod looks;
mod page;
pub mod registers;
mod tally;
