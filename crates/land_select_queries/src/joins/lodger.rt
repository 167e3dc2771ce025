//! A lodger of a pending mutation: the caller lodged it, and it is neither approved nor refused.
//!
//! The lodger sees the units that the mutation refers to, if they exist, with all their entries and the
//! parties of these.

/// The units that exist and that a pending mutation refers to.
pub const UNITS: &str =
    "SELECT unit.number FROM mutation JOIN names ON names.mutation = mutation.number JOIN unit ON unit.number = names.unit WHERE mutation.lodger = ?1 AND mutation.state = 'lodged' AND mutation.since <= ?2 AND ?2 < mutation.until AND names.since <= ?2 AND ?2 < names.until AND unit.since <= ?2 AND ?2 < unit.until";

/// The entries of the units that a pending mutation refers to.
pub const ENTRIES: &str =
    "SELECT rrr.number FROM mutation JOIN names ON names.mutation = mutation.number JOIN rrr ON rrr.unit = names.unit WHERE mutation.lodger = ?1 AND mutation.state = 'lodged' AND mutation.since <= ?2 AND ?2 < mutation.until AND names.since <= ?2 AND ?2 < names.until AND rrr.since <= ?2 AND ?2 < rrr.until";

/// The parties of these entries.
pub const PARTIES: &str =
    "SELECT rrr.party FROM mutation JOIN names ON names.mutation = mutation.number JOIN rrr ON rrr.unit = names.unit WHERE mutation.lodger = ?1 AND mutation.state = 'lodged' AND mutation.since <= ?2 AND ?2 < mutation.until AND names.since <= ?2 AND ?2 < names.until AND rrr.since <= ?2 AND ?2 < rrr.until";
