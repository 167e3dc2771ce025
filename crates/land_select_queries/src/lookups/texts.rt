//! The SQL statement of each lookup.
//!
//! Parameter 1 is the number and parameter 2 the time in Unix milliseconds. Parameter 3 is the reference, if
//! there is one; for a range, parameter 1 is the first number and parameter 3 the last. A row is valid if the
//! time is not before its `since` and is before its `until`. A statement with a `MAX_COORDINATE` returns only
//! some of
//! the rows that it would return without.

/// The party of a number.
pub const PARTY: &str =
    "SELECT number, name, kind, since, until FROM party WHERE number = ?1 AND since <= ?2 AND ?2 < until";

/// The unit of a number.
pub const UNIT: &str =
    "SELECT number, name, checked, since, until FROM unit WHERE number = ?1 AND since <= ?2 AND ?2 < until";

/// The parcel of a number.
pub const PARCEL: &str =
    "SELECT number, unit, label, outline, source, since, until FROM parcel WHERE number = ?1 AND since <= ?2 AND ?2 < until";

/// The entry of a number.
pub const ENTRY: &str =
    "SELECT number, unit, party, class, num, den, amount, currency, place, words, source, since, until FROM rrr WHERE number = ?1 AND since <= ?2 AND ?2 < until";

/// The source of a number.
pub const SOURCE: &str =
    "SELECT number, kind, title, since, until FROM source WHERE number = ?1 AND since <= ?2 AND ?2 < until";

/// The mutation of a number.
pub const MUTATION: &str =
    "SELECT number, lodger, reference, source, lodged, act, content, state, since, until FROM mutation WHERE number = ?1 AND since <= ?2 AND ?2 < until";

/// The parcels of a unit.
pub const PARCELS_OF_UNIT: &str =
    "SELECT number, unit, label, outline, source, since, until FROM parcel WHERE unit = ?1 AND since <= ?2 AND ?2 < until";

/// The entries of a unit.
pub const ENTRIES_OF_UNIT: &str =
    "SELECT number, unit, party, class, num, den, amount, currency, place, words, source, since, until FROM rrr WHERE unit = ?1 AND since <= ?2 AND ?2 < until";

/// The roles of a party.
pub const ROLES_OF_PARTY: &str =
    "SELECT party, role, since, until FROM role WHERE party = ?1 AND since <= ?2 AND ?2 < until";

/// The members of a group.
pub const MEMBERS_OF_GROUP: &str =
    "SELECT grp, party, num, den, since, until FROM member WHERE grp = ?1 AND since <= ?2 AND ?2 < until";

/// The mandates that a party holds.
pub const MANDATES_OF_AGENT: &str =
    "SELECT principal, agent, since, until FROM mandate WHERE agent = ?1 AND since <= ?2 AND ?2 < until";

/// The mutation that a party lodged with a reference.
pub const MUTATION_LODGED_AS: &str =
    "SELECT number, lodger, reference, source, lodged, act, content, state, since, until FROM mutation WHERE lodger = ?1 AND reference = ?3 AND since <= ?2 AND ?2 < until";

/// The state administrators. Parameter 1 is not used.
pub const ADMINISTRATORS: &str =
    "SELECT party, role, since, until FROM role WHERE role = 'stateAdministrator' AND since <= ?2 AND ?2 < until";

/// The number of a unit, if it exists.
pub const UNIT_NUMBER: &str =
    "SELECT number FROM unit WHERE number = ?1 AND since <= ?2 AND ?2 < until";

/// The lodger of the mutation of a number.
pub const LODGER_OF_MUTATION: &str =
    "SELECT lodger FROM mutation WHERE number = ?1 AND since <= ?2 AND ?2 < until";

/// The lodgers of pending mutations that refer to a unit.
pub const LODGERS_ON_UNIT: &str =
    "SELECT mutation.lodger FROM names JOIN mutation ON mutation.number = names.mutation WHERE names.unit = ?1 AND mutation.state = 'lodged' AND names.since <= ?2 AND ?2 < names.until AND mutation.since <= ?2 AND ?2 < mutation.until";

/// The parties of a unit's entries, a party once for each entry.
pub const PARTIES_OF_UNIT: &str =
    "SELECT party.number, party.name, party.kind, party.since, party.until FROM rrr JOIN party ON party.number = rrr.party WHERE rrr.unit = ?1 AND rrr.since <= ?2 AND ?2 < rrr.until AND party.since <= ?2 AND ?2 < party.until";

/// The parties in a range of numbers.
pub const PARTIES_WITHIN: &str =
    "SELECT number, name, kind, since, until FROM party WHERE ?1 <= number AND number <= ?3 AND since <= ?2 AND ?2 < until";

/// The units in a range of numbers.
pub const UNITS_WITHIN: &str =
    "SELECT number, name, checked, since, until FROM unit WHERE ?1 <= number AND number <= ?3 AND since <= ?2 AND ?2 < until";

/// The parcels in a range of numbers.
pub const PARCELS_WITHIN: &str =
    "SELECT number, unit, label, outline, source, since, until FROM parcel WHERE ?1 <= number AND number <= ?3 AND since <= ?2 AND ?2 < until";

/// The entries in a range of numbers.
pub const ENTRIES_WITHIN: &str =
    "SELECT number, unit, party, class, num, den, amount, currency, place, words, source, since, until FROM rrr WHERE ?1 <= number AND number <= ?3 AND since <= ?2 AND ?2 < until";

/// The sources in a range of numbers.
pub const SOURCES_WITHIN: &str =
    "SELECT number, kind, title, since, until FROM source WHERE ?1 <= number AND number <= ?3 AND since <= ?2 AND ?2 < until";

/// The mutations in a range of numbers.
pub const MUTATIONS_WITHIN: &str =
    "SELECT number, lodger, reference, source, lodged, act, content, state, since, until FROM mutation WHERE ?1 <= number AND number <= ?3 AND since <= ?2 AND ?2 < until";

/// The parties of the entries in a range of numbers, a party once for each entry.
pub const PARTIES_OF_ENTRIES: &str =
    "SELECT party.number, party.name, party.kind, party.since, party.until FROM rrr JOIN party ON party.number = rrr.party WHERE ?1 <= rrr.number AND rrr.number <= ?3 AND rrr.since <= ?2 AND ?2 < rrr.until AND party.since <= ?2 AND ?2 < party.until";

/// The holders of a right in the unit of an entry of the party, if they see this entry. A holder is repeated
/// for each such entry. At most 17 rows are returned.
pub const VIEWERS_BY_HOLDING: &str =
    "SELECT held.party FROM rrr AS seen JOIN rrr AS held ON held.unit = seen.unit WHERE seen.party = ?1 AND held.class IN ('ownership', 'lease', 'usufruct') AND (seen.class <> 'mortgage' OR held.class = 'ownership') AND seen.since <= ?2 AND ?2 < seen.until AND held.since <= ?2 AND ?2 < held.until LIMIT 17";

/// The creditors of a mortgage on the unit of an entry of the party, if they see this entry; likewise.
pub const VIEWERS_BY_CREDITING: &str =
    "SELECT held.party FROM rrr AS seen JOIN rrr AS held ON held.unit = seen.unit WHERE seen.party = ?1 AND held.class = 'mortgage' AND (seen.class <> 'mortgage' OR seen.party = held.party) AND seen.since <= ?2 AND ?2 < seen.until AND held.since <= ?2 AND ?2 < held.until LIMIT 17";

/// The lodgers of a pending mutation that refers to the unit of an entry of the party; likewise.
pub const VIEWERS_BY_LODGING: &str =
    "SELECT mutation.lodger FROM rrr JOIN names ON names.unit = rrr.unit JOIN mutation ON mutation.number = names.mutation WHERE rrr.party = ?1 AND mutation.state = 'lodged' AND rrr.since <= ?2 AND ?2 < rrr.until AND names.since <= ?2 AND ?2 < names.until AND mutation.since <= ?2 AND ?2 < mutation.until LIMIT 17";
