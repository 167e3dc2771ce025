//! Views of parties after the scenario, on a store that records its reads: once authorized by the indexed
//! keeper, and once as the SQL statements that are documented for them.
use crate::sights::recorder::Reads;
use crate::sights::texts_are_run::{LAST, MANDATES, Recorded, play_register};
use land_core::ask::Ask;
use land_core::caller::Caller;
use land_core::kind::Kind;
use land_core::limits::LAST_MOMENT;
use land_core::role::Role;
use land_keep::keeper::Keeper;
use land_keep::moments::explicit_moment;
use land_rules::verdict::Verdict;
use land_select::sql_keeper::SqlKeeper;
use sqlite::types::ValueRef;
use std::alloc::Global;
use testlib_scenario::stop::{Stop, expect};

/// The SQL statement that returns the roles of the caller.
const ROLES: &str =
    "SELECT party, role, since, until FROM role WHERE party = ?1 AND since <= ?2 AND ?2 < until";

/// The SQL statement that returns the groups of a citizen.
const GROUPS: &str = "SELECT grp FROM member WHERE party = ?1 AND since <= ?2 AND ?2 < until";

/// The viewers of a party by a right.
const BY_HOLDING: &str =
    "SELECT held.party FROM rrr AS seen JOIN rrr AS held ON held.unit = seen.unit WHERE seen.party = ?1 AND held.class IN ('ownership', 'lease', 'usufruct') AND (seen.class <> 'mortgage' OR held.class = 'ownership') AND seen.since <= ?2 AND ?2 < seen.until AND held.since <= ?2 AND ?2 < held.until LIMIT 17";

/// The viewers of a party by a mortgage.
const BY_CREDITING: &str =
    "SELECT held.party FROM rrr AS seen JOIN rrr AS held ON held.unit = seen.unit WHERE seen.party = ?1 AND held.class = 'mortgage' AND (seen.class <> 'mortgage' OR seen.party = held.party) AND seen.since <= ?2 AND ?2 < seen.until AND held.since <= ?2 AND ?2 < held.until LIMIT 17";

/// A view of a party that is not one of the caller's names: the caller, its role, the party, and the number
/// of the rule that denies it, or 0.
struct Seen(u64, Role, u64, u8);

/// Ben owns the garden and the orchard, on which the bank has mortgages and in which Sam has leases; Nora has
/// no rights.
const VIEWS: &[Seen] = &[
    Seen(3, Role::Citizen, 4, 0),
    Seen(3, Role::Citizen, 6, 0),
    Seen(6, Role::Citizen, 3, 0),
    Seen(6, Role::Citizen, 4, 13),
    Seen(5, Role::Citizen, 3, 13),
    Seen(4, Role::Bank, 3, 0),
    Seen(4, Role::Bank, 5, 17),
];

impl Seen {
    /// Returns the caller.
    fn caller(&self) -> Caller {
        Caller {
            party: self.0,
            role: self.1,
        }
    }
}

/// Returns if a keeper's verdict on a view is the expected rule, and the reads of the store. The keeper of
/// the scenario remembers the roles of those who acted in it, a new keeper on its tables remembers none.
fn read_by_keeper(alloc: Global, view: &Seen) -> Result<(bool, Reads), Stop> {
    let mut keeper = SqlKeeper::new(play_register(alloc)?.into_tables());
    let ask = Ask::View {
        kind: Kind::Party,
        number: view.2,
        at: None,
    };
    let now = keeper.last();
    if now < explicit_moment(&ask).unwrap_or(now) {
        return Err(Stop::Call);
    }
    let verdict = keeper.first_denial(alloc, view.caller(), &ask, now)?;
    let rule = match verdict {
        Verdict::Allowed => 0,
        Verdict::Denied(rule) => rule,
    };
    let conn = keeper.into_tables().into_connection();
    Ok((rule == view.3, conn.into_store().reads()))
}

/// Runs the SQL statements of a view: the roles of the caller at the last moment, a citizen's mandates and
/// groups, and the viewers of the party.
fn run_texts(conn: &mut Recorded, view: &Seen) -> Result<(), Stop> {
    let (caller, party) = (
        i64::try_from(view.0).unwrap_or(0),
        i64::try_from(view.2).unwrap_or(0),
    );
    conn.query_all(ROLES, &[ValueRef::Int(caller), ValueRef::Int(LAST_MOMENT)])?;
    if view.1 == Role::Citizen {
        let own = [ValueRef::Int(caller), ValueRef::Int(LAST)];
        conn.query_all(MANDATES, &own)?;
        conn.query_all(GROUPS, &own)?;
    }
    let text = if view.1 == Role::Bank {
        BY_CREDITING
    } else {
        BY_HOLDING
    };
    conn.query_all(text, &[ValueRef::Int(party), ValueRef::Int(LAST)])?;
    Ok(())
}

/// Returns the reads of the store for the SQL statements of a view.
fn read_by_texts(alloc: Global, view: &Seen) -> Result<Reads, Stop> {
    let mut conn = play_register(alloc)?.into_tables().into_connection();
    run_texts(&mut conn, view)?;
    Ok(conn.into_store().reads())
}

/// Tests that the indexed keeper authorizes the view of a party with few viewers by these, without the
/// caller's list.
pub fn parties_are_visible_to_their_viewers(alloc: Global) -> Result<(), Stop> {
    for (place, view) in VIEWS.iter().enumerate() {
        let (is_so, by_keeper) = read_by_keeper(alloc, view)?;
        let by_texts = read_by_texts(alloc, view)?;
        expect(is_so, "the verdict on a party", place)?;
        expect(by_keeper == by_texts, "what is read for a party", place)?;
    }
    Ok(())
}
