//! A member of a group that holds a right: an entry is a right, its party is a group, and the caller is a
//! member of it.
//!
//! A member sees the same as a holder in its own name.

/// The units that the caller holds through groups.
pub const UNITS: &str =
    "SELECT held.unit FROM member JOIN rrr AS held ON held.party = member.grp WHERE member.party = ?1 AND held.class IN ('ownership', 'lease', 'usufruct') AND member.since <= ?2 AND ?2 < member.until AND held.since <= ?2 AND ?2 < held.until";

/// The entries of these units.
pub const ENTRIES: &str =
    "SELECT seen.number FROM member JOIN rrr AS held ON held.party = member.grp JOIN rrr AS seen ON seen.unit = held.unit WHERE member.party = ?1 AND held.class IN ('ownership', 'lease', 'usufruct') AND (seen.class <> 'mortgage' OR held.class = 'ownership') AND member.since <= ?2 AND ?2 < member.until AND held.since <= ?2 AND ?2 < held.until AND seen.since <= ?2 AND ?2 < seen.until";

/// The parties of these entries.
pub const PARTIES: &str =
    "SELECT seen.party FROM member JOIN rrr AS held ON held.party = member.grp JOIN rrr AS seen ON seen.unit = held.unit WHERE member.party = ?1 AND held.class IN ('ownership', 'lease', 'usufruct') AND (seen.class <> 'mortgage' OR held.class = 'ownership') AND member.since <= ?2 AND ?2 < member.until AND held.since <= ?2 AND ?2 < held.until AND seen.since <= ?2 AND ?2 < seen.until";
