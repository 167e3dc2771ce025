//! Sweeps: spans of time, sorted by key and start, checked in one pass. `cover` checks that required moments
//! are provided, `sweep` that values that are current together are sound, and `apart` that spans of one key
//! are disjoint.
//!
//! A moment is Unix time in milliseconds. A span includes its start, `since`, and not its end, `until`.

pub mod apart;
pub mod cover;
pub mod sweep;
