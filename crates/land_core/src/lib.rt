//! The records of the register, when it is sound, and how a change changes it.
#![tactic(auto)]

pub mod act;
pub mod ask;
pub mod caller;
pub mod change;
pub mod content;
pub mod contents;
pub mod duplicate;
pub mod kind;
pub mod laws;
pub mod limits;
pub mod mandates;
pub mod member;
pub mod merger;
pub mod mutation;
pub mod object;
pub mod parcel;
pub mod party;
pub mod records;
pub mod register;
pub mod role;
pub mod roles;
pub mod rrr;
pub mod sequence;
pub mod soundness;
pub mod source;
pub mod subdivision;
pub mod text;
pub mod unit;
pub mod words;
