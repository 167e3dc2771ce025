//! The objects that a caller sees: each selection as an SQL statement, its meaning, and the union of several.

pub mod all;
pub mod creditor;
pub mod group;
pub mod holder;
pub mod laws;
pub mod lodger;
pub mod named;
pub mod own;
pub mod running;
pub mod sight;
pub mod text;
