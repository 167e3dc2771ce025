//! Mutations: their content and their state.

pub mod cells;
pub mod change_writing;
pub mod reading;
pub mod writing;
