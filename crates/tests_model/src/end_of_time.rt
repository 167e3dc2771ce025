//! The end of time. The last moment is `LAST_MOMENT` of `land_core::limits`.

/// The first time after the last moment, in Unix milliseconds.
pub(crate) const END: i64 = 4_102_444_800_000;
