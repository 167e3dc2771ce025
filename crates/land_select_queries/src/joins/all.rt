//! All objects of a kind at a time.
//!
//! In each statement of this crate, parameter 1 is the caller and parameter 2 the time. A row is valid if the
//! time is not before its `since` and is before its `until`.

/// All parties.
pub const PARTIES: &str = "SELECT number FROM party WHERE since <= ?2 AND ?2 < until";

/// All units.
pub const UNITS: &str = "SELECT number FROM unit WHERE since <= ?2 AND ?2 < until";

/// All parcels.
pub const PARCELS: &str = "SELECT number FROM parcel WHERE since <= ?2 AND ?2 < until";

/// All entries.
pub const ENTRIES: &str = "SELECT number FROM rrr WHERE since <= ?2 AND ?2 < until";

/// The units of which a version has not ended. This is faster than `UNITS`, by a comparison for each row.
pub const UNENDED_UNITS: &str = "SELECT number FROM unit WHERE ?2 < until";

/// The parcels of which a version has not ended.
pub const UNENDED_PARCELS: &str = "SELECT number FROM parcel WHERE ?2 < until";

/// All sources.
pub const SOURCES: &str = "SELECT number FROM source WHERE since <= ?2 AND ?2 < until";

/// All mutations.
pub const MUTATIONS: &str = "SELECT number FROM mutation WHERE since <= ?2 AND ?2 < until";
