//! The number of allocations of keeper calls, on whole tables and with indexed queries. An indexed call has
//! to allocate only a small part of what whole tables need; more means that it reads data that it does not
//! return. Both keepers get the same calls, and their results are checked; `.ci/alloc-counts` counts the
//! allocations from outside. A value that a verdict has read is not read again for the reply.

pub mod calls_read_less;
pub(crate) mod marks;
pub mod once;
pub(crate) mod registers;
mod shown;
mod slices;
pub mod texts_read_less;
mod verdicts;
