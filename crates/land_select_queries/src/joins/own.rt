//! The caller itself, its groups, and the mutations that it lodged.

/// The caller, if it is a party.
pub const ITSELF: &str =
    "SELECT number FROM party WHERE number = ?1 AND since <= ?2 AND ?2 < until";

/// The groups of which the caller is a member.
pub const GROUPS: &str = "SELECT grp FROM member WHERE party = ?1 AND since <= ?2 AND ?2 < until";

/// The mutations that the caller lodged, decided or not.
pub const LODGINGS: &str =
    "SELECT number FROM mutation WHERE lodger = ?1 AND since <= ?2 AND ?2 < until";
