//! One file per table, with its SQL statements: insert a version, close the current one, list all. Writes
//! return the number of rows written; contracts do not specify it, and a `close` that finds no current
//! version is not an error.
pub mod edition;
pub mod mandate;
pub mod member;
pub mod moments;
pub mod mutation;
pub mod names;
pub mod parcel;
pub mod party;
pub mod role;
pub mod rrr;
pub mod source;
pub mod unit;
