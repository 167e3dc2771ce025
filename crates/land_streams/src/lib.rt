//! Byte streams. Input is buffered (`buffer`) from a reader with a limited number of reads
//! (`counted_reader`). Output is written whole or truncated (`send`), in pieces whose bytes are counted
//! (`put`); on error, the number of bytes written is known.
#![tactic(auto)]

pub mod buffer;
pub mod counted_reader;
pub mod put;
pub mod send;
pub mod stream_fault;
