//! Sources: the documents on which changes are based (LA_Source).

pub mod change_writing;
pub mod reading;
pub mod writing;
