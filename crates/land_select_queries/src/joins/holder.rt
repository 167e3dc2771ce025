//! A holder in its own name: an entry is a right, and the caller is its party.
//!
//! A holder sees its unit with all entries and their parties, but mortgages only if its right is ownership. A
//! caller with an ownership and another right in one unit appears twice, once for each, so the test on both
//! rows is enough.

/// The units that the caller holds.
pub const UNITS: &str =
    "SELECT unit FROM rrr WHERE party = ?1 AND class IN ('ownership', 'lease', 'usufruct') AND since <= ?2 AND ?2 < until";

/// The entries of these units.
pub const ENTRIES: &str =
    "SELECT seen.number FROM rrr AS held JOIN rrr AS seen ON seen.unit = held.unit WHERE held.party = ?1 AND held.class IN ('ownership', 'lease', 'usufruct') AND (seen.class <> 'mortgage' OR held.class = 'ownership') AND held.since <= ?2 AND ?2 < held.until AND seen.since <= ?2 AND ?2 < seen.until";

/// The parties of these entries.
pub const PARTIES: &str =
    "SELECT seen.party FROM rrr AS held JOIN rrr AS seen ON seen.unit = held.unit WHERE held.party = ?1 AND held.class IN ('ownership', 'lease', 'usufruct') AND (seen.class <> 'mortgage' OR held.class = 'ownership') AND held.since <= ?2 AND ?2 < held.until AND seen.since <= ?2 AND ?2 < seen.until";
