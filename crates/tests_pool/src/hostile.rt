//! Connections and stores that fail at each place.
mod breaks;
mod failing_store;
