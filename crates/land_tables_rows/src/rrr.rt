//! The entries of units: rights, restrictions, responsibilities and mortgages (LA_RRR).

pub mod cells;
pub mod change_writing;
pub mod reading;
pub mod writing;
