//! Routes of the register, from the paths of request targets; `matchit` finds them.

pub mod act_word;
pub mod laws;
pub mod route;
pub mod table;
pub mod target;
