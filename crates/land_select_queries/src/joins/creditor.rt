//! A creditor: an entry is a mortgage, and the caller is its party.
//!
//! A creditor sees the unit with all its entries and their parties, but only its own mortgages.

/// The units on which the caller has a mortgage.
pub const UNITS: &str =
    "SELECT unit FROM rrr WHERE party = ?1 AND class = 'mortgage' AND since <= ?2 AND ?2 < until";

/// The entries of these units.
pub const ENTRIES: &str =
    "SELECT seen.number FROM rrr AS held JOIN rrr AS seen ON seen.unit = held.unit WHERE held.party = ?1 AND held.class = 'mortgage' AND (seen.class <> 'mortgage' OR seen.party = ?1) AND held.since <= ?2 AND ?2 < held.until AND seen.since <= ?2 AND ?2 < seen.until";

/// The parties of these entries.
pub const PARTIES: &str =
    "SELECT seen.party FROM rrr AS held JOIN rrr AS seen ON seen.unit = held.unit WHERE held.party = ?1 AND held.class = 'mortgage' AND (seen.class <> 'mortgage' OR seen.party = ?1) AND held.since <= ?2 AND ?2 < held.until AND seen.since <= ?2 AND ?2 < seen.until";
