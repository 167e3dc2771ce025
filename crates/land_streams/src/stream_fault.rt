//! Errors of reading a stream.

/// Errors of reading a stream.
#[derive(Clone, Copy, Debug, PartialEq, Eq)]
pub enum StreamFault {
    /// The reader failed, or its budget of reads is spent.
    Read,
    /// Out of memory for the buffer.
    NoMemory,
}
