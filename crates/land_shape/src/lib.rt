//! Outlines of land parcels: polygons of one ring. Reads them from well-known text, validates, measures and
//! prints them.
#![tactic(auto)]

mod area;
mod body;
mod boxes;
mod closing;
mod corners;
mod edges;
mod faults;
mod grounds;
pub mod laws;
mod listing;
mod matching;
mod numbers;
mod outline;
mod plain;
mod plane;
mod polygon;
mod printing;
mod reading;
mod segment;
mod simple;
mod sorting;
mod tokens;
mod walking;
mod words;

pub use crate::faults::ShapeFault;
pub use crate::matching::chain_matches;
pub use crate::outline::Ring;
pub use crate::plane::Point;
pub use crate::reading::read_wkt;
