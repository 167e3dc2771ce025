//! Work on the local host. The work is generic in the host and passed in, so that only this crate and the
//! program drop the files and ports of the local host: proving that they can be dropped takes longer than the
//! rest of a crate.

pub mod machine;
