//! The contents of mutations: for each, its refusals, its change and the numbers that it creates; and the
//! parts that all plans share.

pub mod by_content;
mod discharge;
mod grounds;
pub mod laws;
mod merge;
mod mortgage;
pub mod planning;
pub mod refusal;
mod subdivide;
pub mod transfer;
