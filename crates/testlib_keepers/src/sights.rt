//! The store operations of a list, or of the view of a party: the indexed keeper runs the SQL statements of
//! that request in order, and reads nothing else.

pub mod parties_are_seen;
mod recorder;
pub mod texts_are_run;
