//! The rows of the register's tables, a folder for each kind: decoding a row (`reading`), the cells of a
//! record (`cells`), beginning and closing a version (`writing`), and applying a change (`change_writing`).
//! Code
//! that all kinds share is in the folders with these names. `listing` reads all tables, and `rowids` checks
//! that rows have unique rowids.
#![tactic(auto)]

pub mod cells;
pub mod change_writing;
pub mod edition;
pub mod listing;
pub mod mandate;
pub mod member;
pub mod moment;
pub mod mutation;
pub mod naming;
pub mod parcel;
pub mod party;
pub mod reading;
pub mod role;
pub mod rowids;
pub mod rrr;
pub mod source;
pub mod unit;
pub mod writing;
