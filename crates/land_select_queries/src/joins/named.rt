//! Mutations, decided or not, that refer to a unit of the caller.

/// The mutations that refer to a unit that the caller holds in its own name.
pub const HELD: &str =
    "SELECT names.mutation FROM rrr AS held JOIN names ON names.unit = held.unit WHERE held.party = ?1 AND held.class IN ('ownership', 'lease', 'usufruct') AND held.since <= ?2 AND ?2 < held.until AND names.since <= ?2 AND ?2 < names.until";

/// The mutations that refer to a unit that the caller holds through a group.
pub const THROUGH: &str =
    "SELECT names.mutation FROM member JOIN rrr AS held ON held.party = member.grp JOIN names ON names.unit = held.unit WHERE member.party = ?1 AND held.class IN ('ownership', 'lease', 'usufruct') AND member.since <= ?2 AND ?2 < member.until AND held.since <= ?2 AND ?2 < held.until AND names.since <= ?2 AND ?2 < names.until";
