//! Lists of each kind in each role after the scenario, on a store that records its reads: once returned by
//! the indexed keeper, and once as the SQL statements that are documented for them.
use crate::random::looks::KINDS;
use crate::sights::recorder::{Reads, Recorder};
use land_core::caller::Caller;
use land_core::kind::Kind;
use land_core::role::Role;
use land_keep::keeper::Keeper;
use land_select::sight_text::sight_text;
use land_select::sql_keeper::SqlKeeper;
use land_tables::tables::Tables;
use sqlite::types::ValueRef;
use sqlite::{Connection, MemStore};
use std::alloc::Global;
use testlib_scenario::run_scenario::{play, play_steps};
use testlib_scenario::stop::{Stop, expect};
use testlib_scenario::talk::ExpectedReply::Shown;
use testlib_scenario::talk::{BEN, Row, Transcript};

/// A caller in each role: the owner, the lodger of two transfers, the notary, the bank, the surveyor and the
/// office.
const CALLERS: &[Caller] = &[
    Caller {
        party: 3,
        role: Role::Citizen,
    },
    Caller {
        party: 5,
        role: Role::Conveyancer,
    },
    Caller {
        party: 5,
        role: Role::Notary,
    },
    Caller {
        party: 4,
        role: Role::Bank,
    },
    Caller {
        party: 6,
        role: Role::CertifiedSurveyor,
    },
    Caller {
        party: 1,
        role: Role::StateAdministrator,
    },
];

/// The time of the last step.
pub(crate) const LAST: i64 = 1017;

/// A connection to such a store.
pub(crate) type Recorded = Connection<Recorder<MemStore>>;

/// Opens a connection to a store that records its reads.
fn connect_recorder(alloc: Global) -> Result<Recorded, Stop> {
    let store = Recorder::over(MemStore::new(alloc, &[])?);
    match Connection::over(alloc, store) {
        Ok(conn) => Ok(conn),
        Err((error, _)) => Err(Stop::from(error)),
    }
}

/// Returns the register after the scenario, in such a store.
pub(crate) fn play_register(alloc: Global) -> Result<SqlKeeper<Recorder<MemStore>>, Stop> {
    let tables = match Tables::create(connect_recorder(alloc)?) {
        Ok(tables) => tables,
        Err((_, fault)) => return Err(Stop::from(fault)),
    };
    let mut keeper = SqlKeeper::new(tables);
    play_steps(alloc, &mut keeper)?;
    Ok(keeper)
}

/// Ben gives Sam a mandate after the scenario.
const GIVEN: Row = Row(
    "POST /acts/mandate",
    BEN,
    br#"{"agent":6}"#,
    Shown(r#"{"made":[],"number":6,"stamp":1018}"#),
);

/// A caller, the principals whose mandates it holds, and the time of its lists.
#[derive(Clone, Copy)]
struct Viewer<'a> {
    caller: Caller,
    principals: &'a [u64],
    at: i64,
}

/// Sam as citizen, with Ben's mandate.
const SAM: Viewer<'static> = Viewer {
    caller: Caller {
        party: 6,
        role: Role::Citizen,
    },
    principals: &[3],
    at: LAST + 1,
};

/// Returns the register after the scenario, with the mandate if the viewer has one.
fn play_register_for(
    alloc: Global,
    viewer: &Viewer<'_>,
) -> Result<SqlKeeper<Recorder<MemStore>>, Stop> {
    let mut keeper = play_register(alloc)?;
    if viewer.principals.is_empty() {
        return Ok(keeper);
    }
    let mut talk = Transcript::new(alloc)?;
    talk.ask("a mandate", 0, &GIVEN)?;
    play(alloc, &mut keeper, &[], &talk)?;
    Ok(keeper)
}

/// Returns the keeper's reads of the store for the lists of a viewer. The keeper is a new one on the tables,
/// which remembers nothing of the scenario.
fn read_by_keeper(alloc: Global, viewer: &Viewer<'_>) -> Result<Reads, Stop> {
    let mut keeper = SqlKeeper::new(play_register_for(alloc, viewer)?.into_tables());
    for kind in KINDS {
        keeper.sight(alloc, viewer.caller, *kind, viewer.at)?;
    }
    let conn = keeper.into_tables().into_connection();
    Ok(conn.into_store().reads())
}

/// The SQL statement that returns the mandates that a citizen holds. Its parameters are those of the
/// statements of a list.
pub(crate) const MANDATES: &str =
    "SELECT principal, agent, since, until FROM mandate WHERE agent = ?1 AND since <= ?2 AND ?2 < until";

/// Runs the SQL statements of a list for one party. Their first parameter is the party, their second the
/// time.
fn run_texts_for(
    conn: &mut Recorded,
    role: Role,
    kind: Kind,
    party: u64,
    at: i64,
) -> Result<(), Stop> {
    let number = i64::try_from(party).unwrap_or(0);
    let params = [ValueRef::Int(number), ValueRef::Int(at)];
    for text in sight_text(role, kind) {
        conn.query_all(text, &params)?;
    }
    Ok(())
}

/// Checks if mandates add to a list of a role: to those of citizens, except of parcels, which all roles see.
fn has_circle(role: Role, kind: Kind) -> bool {
    role == Role::Citizen && kind != Kind::Parcel
}

/// Runs the SQL statements of a list. If mandates add to it, and the caller is not known to hold none, it
/// first runs the one of its mandates, and then those of the list for each principal and for the caller.
fn run_texts(
    conn: &mut Recorded,
    viewer: &Viewer<'_>,
    kind: Kind,
    holds_none: bool,
) -> Result<(), Stop> {
    let Caller { party, role } = viewer.caller;
    if has_circle(role, kind) && !holds_none {
        let number = i64::try_from(party).unwrap_or(0);
        conn.query_all(MANDATES, &[ValueRef::Int(number), ValueRef::Int(viewer.at)])?;
        for principal in viewer.principals {
            run_texts_for(conn, role, kind, *principal, viewer.at)?;
        }
    }
    run_texts_for(conn, role, kind, party, viewer.at)
}

/// Returns the reads of the store if the SQL statements of these lists are run. The first list of a caller
/// without mandates shows that it holds none.
fn read_by_texts(alloc: Global, viewer: &Viewer<'_>) -> Result<Reads, Stop> {
    let mut conn = play_register_for(alloc, viewer)?
        .into_tables()
        .into_connection();
    let mut holds_none = false;
    for kind in KINDS {
        run_texts(&mut conn, viewer, *kind, holds_none)?;
        if has_circle(viewer.caller.role, *kind) && viewer.principals.is_empty() {
            holds_none = true;
        }
    }
    Ok(conn.into_store().reads())
}

/// Checks that the lists of a viewer read the same as their SQL statements, in the same order.
fn expect_same_reads(alloc: Global, viewer: &Viewer<'_>, place: usize) -> Result<(), Stop> {
    let by_keeper = read_by_keeper(alloc, viewer)?;
    let by_texts = read_by_texts(alloc, viewer)?;
    expect(by_keeper == by_texts, "the lists of a caller", place)
}

/// Tests that a list runs only its SQL statements, a citizen's first that of its mandates, unless an earlier
/// list has shown that it holds none.
pub fn lists_run_their_statements(alloc: Global) -> Result<(), Stop> {
    for (place, caller) in CALLERS.iter().enumerate() {
        let viewer = Viewer {
            caller: *caller,
            principals: &[],
            at: LAST,
        };
        expect_same_reads(alloc, &viewer, place)?;
    }
    expect_same_reads(alloc, &SAM, CALLERS.len())
}
