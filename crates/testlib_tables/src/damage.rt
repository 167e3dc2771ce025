//! Stores that are opened as registers, and corrupted ones that are refused.
use crate::cases::run_scenario::tables_after_scenario;
use crate::cases::stores::{expect_fault, run_on, store_after_sql};
use land_tables::tables::Tables;
use sqlite::{Connection, MemStore};
use std::alloc::Global;
use testlib_scenario::looks::expect_rows_after_steps;
use testlib_scenario::stop::Stop;

/// SQL statements on the tables after the scenario, others that undo them, and the fault that `adopt` returns
/// in between, 0 if it accepts the tables.
struct Damage(&'static str, &'static str, u16);

/// SQL statements that create the table of mandates again, after the other tables and before all indexes that
/// do not belong to keys, and set schema version 2.
const MANDATES_AGAIN: &str =
    "DROP TABLE IF EXISTS other; UPDATE edition SET version = 2; DROP INDEX rrr_party; DROP INDEX rrr_unit; DROP INDEX parcel_unit; \
    DROP INDEX member_party; DROP INDEX names_unit; DROP INDEX mutation_lodger; DROP INDEX role_role; \
    CREATE TABLE mandate (principal INTEGER NOT NULL, agent INTEGER NOT NULL, since INTEGER NOT NULL, until INTEGER NOT NULL, \
    PRIMARY KEY (principal, agent, since), CHECK (since < until)) STRICT; CREATE INDEX rrr_party ON rrr (party); \
    CREATE INDEX rrr_unit ON rrr (unit); CREATE INDEX parcel_unit ON parcel (unit); CREATE INDEX member_party ON member (party); \
    CREATE INDEX names_unit ON names (unit); CREATE INDEX mutation_lodger ON mutation (lodger, reference); \
    CREATE INDEX role_role ON role (role); CREATE INDEX mandate_agent ON mandate (agent)";

/// Tables that do not decode: an invalid value of each table, an edition that is not the only row of id 1,
/// another schema.
const UNREADABLE: &[Damage] = &[
    Damage(
        "UPDATE edition SET version = -1",
        "UPDATE edition SET version = 2",
        520,
    ),
    Damage(
        "UPDATE edition SET id = 2",
        "UPDATE edition SET id = 1",
        520,
    ),
    Damage(
        "INSERT INTO edition VALUES (2, 2)",
        "DELETE FROM edition WHERE id = 2",
        520,
    ),
    Damage(
        "DELETE FROM edition",
        "INSERT INTO edition VALUES (1, 2)",
        520,
    ),
    Damage(
        "UPDATE moments SET next = 1 WHERE stamp = 0",
        "UPDATE moments SET next = 2 WHERE stamp = 0",
        520,
    ),
    Damage(
        "UPDATE party SET name = '' WHERE number = 2",
        "UPDATE party SET name = 'Anna' WHERE number = 2",
        520,
    ),
    Damage(
        "UPDATE role SET role = 'banker' WHERE role = 'bank'",
        "UPDATE role SET role = 'bank' WHERE role = 'banker'",
        520,
    ),
    Damage(
        "UPDATE member SET num = 4 WHERE party = 2",
        "UPDATE member SET num = 1 WHERE party = 2",
        520,
    ),
    Damage(
        "UPDATE unit SET checked = 2 WHERE number = 9",
        "UPDATE unit SET checked = 1 WHERE number = 9",
        520,
    ),
    Damage(
        "UPDATE parcel SET outline = 'POLYGON ((0 0, 2 2, 2 0, 0 2, 0 0))' WHERE number = 24",
        "UPDATE parcel SET outline = 'POLYGON ((0 0, 5000 0, 5000 10000, 0 10000, 0 0))' WHERE number = 24",
        520,
    ),
    Damage(
        "UPDATE rrr SET num = NULL WHERE number = 13",
        "UPDATE rrr SET num = 1 WHERE number = 13",
        520,
    ),
    Damage(
        "UPDATE rrr SET amount = 0 WHERE number = 13",
        "UPDATE rrr SET amount = NULL WHERE number = 13",
        520,
    ),
    Damage(
        "UPDATE source SET kind = 'oral' WHERE number = 22",
        "UPDATE source SET kind = 'spatial' WHERE number = 22",
        520,
    ),
    Damage(
        "UPDATE mutation SET act = 'discharge' WHERE number = 15",
        "UPDATE mutation SET act = 'mortgage' WHERE number = 15",
        520,
    ),
    Damage(
        "UPDATE names SET unit = 0 WHERE mutation = 15",
        "UPDATE names SET unit = 9 WHERE mutation = 15",
        520,
    ),
    Damage(
        "INSERT INTO mandate VALUES (0, 3, 1008, 4102444800000)",
        "DELETE FROM mandate",
        520,
    ),
    Damage("CREATE TABLE other (x INTEGER)", "DROP TABLE other", 520),
    Damage(
        "DROP TABLE mandate; CREATE TABLE other (x INTEGER)",
        MANDATES_AGAIN,
        520,
    ),
    Damage("DROP TABLE mandate", MANDATES_AGAIN, 520),
    Damage("CREATE VIEW other AS SELECT 1", "DROP VIEW other", 520),
];

/// Other schema versions, and faults that are found before and after this one.
const VERSIONS: &[Damage] = &[
    Damage(
        "UPDATE edition SET version = 7",
        "UPDATE edition SET version = 2",
        523,
    ),
    Damage(
        "UPDATE edition SET version = 7; UPDATE party SET name = '' WHERE number = 2",
        "UPDATE edition SET version = 2; UPDATE party SET name = 'Anna' WHERE number = 2",
        520,
    ),
    Damage(
        "UPDATE edition SET version = 7; UPDATE unit SET since = 1 WHERE number = 9",
        "UPDATE edition SET version = 2; UPDATE unit SET since = 1009 WHERE number = 9",
        523,
    ),
    // mandates are read in schema version 2 only
    Damage(
        "UPDATE edition SET version = 1",
        "UPDATE edition SET version = 2",
        523,
    ),
    Damage(
        "UPDATE edition SET version = 1; INSERT INTO mandate VALUES (0, 3, 1008, 4102444800000)",
        "UPDATE edition SET version = 2; DELETE FROM mandate",
        523,
    ),
    Damage(
        "UPDATE edition SET version = 1; DROP TABLE mandate; CREATE TABLE other (x INTEGER)",
        MANDATES_AGAIN,
        523,
    ),
    Damage(
        "UPDATE edition SET version = 1; DROP TABLE mandate",
        MANDATES_AGAIN,
        523,
    ),
    Damage(
        "UPDATE edition SET version = 3",
        "UPDATE edition SET version = 2",
        523,
    ),
];

/// Lifespans that overlap, or that begin or end at a time that is not a stamp.
const LIFESPANS: &[Damage] = &[
    Damage(
        "UPDATE rrr SET until = 1014 WHERE number = 12 AND since = 1009",
        "UPDATE rrr SET until = 1013 WHERE number = 12 AND since = 1009",
        521,
    ),
    Damage(
        "INSERT INTO parcel VALUES (10, 9, '12', 'POLYGON ((0 0, 1 0, 0 1, 0 0))', 8, 1016, 4102444800000)",
        "DELETE FROM parcel WHERE number = 10 AND since = 1016",
        521,
    ),
    Damage(
        "UPDATE unit SET since = 1 WHERE number = 9",
        "UPDATE unit SET since = 1009 WHERE number = 9",
        521,
    ),
    Damage(
        "UPDATE role SET until = 1500 WHERE role = 'notary'",
        "UPDATE role SET until = 4102444800000 WHERE role = 'notary'",
        521,
    ),
    Damage(
        "UPDATE names SET since = 1 WHERE mutation = 15",
        "UPDATE names SET since = 1010 WHERE mutation = 15",
        521,
    ),
    Damage(
        "DELETE FROM moments WHERE stamp = 1003",
        "INSERT INTO moments VALUES (1003, 5)",
        521,
    ),
    Damage(
        "INSERT INTO mandate VALUES (2, 3, 999, 4102444800000)",
        "DELETE FROM mandate",
        521,
    ),
    Damage(
        "INSERT INTO mandate VALUES (2, 3, 1008, 1012), (2, 3, 1011, 4102444800000)",
        "DELETE FROM mandate",
        521,
    ),
    // a bad interval comes before an unsound register
    Damage(
        "UPDATE unit SET since = 1 WHERE number = 9; UPDATE rrr SET unit = 999 WHERE number = 13",
        "UPDATE unit SET since = 1009 WHERE number = 9; UPDATE rrr SET unit = 9 WHERE number = 13",
        521,
    ),
];

/// Registers that are not sound, next numbers that decrease, and links to units that are not those of the
/// mutations.
const UNSOUND: &[Damage] = &[
    Damage(
        "UPDATE rrr SET unit = 999 WHERE number = 13",
        "UPDATE rrr SET unit = 9 WHERE number = 13",
        522,
    ),
    Damage(
        "UPDATE rrr SET num = 1, den = 3 WHERE number = 21",
        "UPDATE rrr SET num = 1, den = 1 WHERE number = 21",
        522,
    ),
    Damage(
        "UPDATE rrr SET den = 2 WHERE number = 21; INSERT INTO rrr VALUES (11, 9, 2, 'ownership', 1, 3, NULL, NULL, NULL, NULL, 8, 1015, 4102444800000)",
        "UPDATE rrr SET den = 1 WHERE number = 21; DELETE FROM rrr WHERE number = 11 AND since = 1015",
        522,
    ),
    Damage(
        "UPDATE moments SET next = 5 WHERE stamp = 1017",
        "UPDATE moments SET next = 30 WHERE stamp = 1017",
        522,
    ),
    Damage(
        "UPDATE role SET until = 1017 WHERE role = 'stateAdministrator'",
        "UPDATE role SET until = 4102444800000 WHERE role = 'stateAdministrator'",
        522,
    ),
    Damage(
        "DELETE FROM names",
        "INSERT INTO names VALUES (15, 9, 1010, 4102444800000), (18, 9, 1012, 4102444800000), (20, 9, 1014, 4102444800000), (23, 9, 1016, 4102444800000)",
        522,
    ),
    Damage(
        "UPDATE names SET until = 1011 WHERE mutation = 15",
        "UPDATE names SET until = 4102444800000 WHERE mutation = 15",
        522,
    ),
    Damage(
        "INSERT INTO names VALUES (15, 25, 1017, 4102444800000)",
        "DELETE FROM names WHERE mutation = 15 AND unit = 25",
        522,
    ),
];

/// Mandates of a group or of an object that is not a party, and of a party to itself.
const MANDATES: &[Damage] = &[
    Damage(
        "INSERT INTO mandate VALUES (2, 7, 1008, 4102444800000)",
        "DELETE FROM mandate",
        522,
    ),
    Damage(
        "INSERT INTO mandate VALUES (2, 9, 1009, 4102444800000)",
        "DELETE FROM mandate",
        522,
    ),
    Damage(
        "INSERT INTO mandate VALUES (5, 2, 1003, 4102444800000)",
        "DELETE FROM mandate",
        522,
    ),
    Damage(
        "INSERT INTO mandate VALUES (2, 2, 1008, 4102444800000)",
        "DELETE FROM mandate",
        522,
    ),
    Damage(
        "INSERT INTO mandate VALUES (2, 3, 1008, 1012), (3, 2, 1008, 4102444800000)",
        "DELETE FROM mandate",
        0,
    ),
];

/// Values in other representations, and additional indexes.
const HARMLESS: &[Damage] = &[
    Damage("", "", 0),
    Damage(
        "UPDATE rrr SET num = 2, den = 2 WHERE number = 21",
        "UPDATE rrr SET num = 1, den = 1 WHERE number = 21",
        0,
    ),
    Damage(
        "UPDATE rrr SET den = 2 WHERE number = 21; INSERT INTO rrr VALUES (11, 9, 2, 'ownership', 2, 4, NULL, NULL, NULL, NULL, 8, 1015, 4102444800000)",
        "UPDATE rrr SET den = 1 WHERE number = 21; DELETE FROM rrr WHERE number = 11 AND since = 1015",
        0,
    ),
    Damage(
        "UPDATE parcel SET outline = 'polygon((0 0,0.0 10000,5000 10000,5000 0,0 0))' WHERE number = 24",
        "UPDATE parcel SET outline = 'POLYGON ((0 0, 5000 0, 5000 10000, 0 10000, 0 0))' WHERE number = 24",
        0,
    ),
    Damage("CREATE INDEX more ON party (name)", "DROP INDEX more", 0),
    Damage(
        "DROP INDEX rrr_party",
        "CREATE INDEX rrr_party ON rrr (party)",
        0,
    ),
];

/// An active transaction.
const IN_TRANSACTION: &[Damage] = &[Damage("BEGIN", "ROLLBACK", 502)];

/// SQL statements that are run on an empty store, which then holds no register.
const OTHERS: &[&str] = &[
    "",
    "CREATE TABLE other (x INTEGER)",
    "CREATE TABLE party (number INTEGER NOT NULL, name TEXT NOT NULL)",
];

/// Opens a store. Returns the number of the fault, 0 if it holds the register of the scenario, and the store.
fn adopt_fault(alloc: Global, conn: Connection<MemStore>) -> (u16, Connection<MemStore>) {
    match Tables::adopt(alloc, conn) {
        Ok(tables) => {
            let has_scenario_end = tables.last() == 1017
                && tables.next() == 30
                && !tables.is_closed();
            (
                if has_scenario_end { 0 } else { 1 },
                tables.into_connection(),
            )
        }
        Err((conn, fault)) => (fault.number(), conn),
    }
}

/// Opens the store in the option, and puts it back.
fn adopt_in_place(alloc: Global, left: &mut Option<Connection<MemStore>>) -> Result<u16, Stop> {
    match left.take() {
        Some(conn) => {
            let (fault, back) = adopt_fault(alloc, conn);
            *left = Some(back);
            Ok(fault)
        }
        None => Err(Stop::Call),
    }
}

/// Corrupts the tables, opens them, and undoes the corruption. Returns the fault of opening.
fn fault_between(
    alloc: Global,
    left: &mut Option<Connection<MemStore>>,
    damage: &Damage,
) -> Result<u16, Stop> {
    run_on(left, damage.0)?;
    let fault = adopt_in_place(alloc, left)?;
    run_on(left, damage.1)?;
    Ok(fault)
}

/// Fails if some of the given corruptions does not have its fault.
fn have_faults(
    alloc: Global,
    left: &mut Option<Connection<MemStore>>,
    name: &'static str,
    damages: &[Damage],
) -> Result<(), Stop> {
    for (place, damage) in damages.iter().enumerate() {
        expect_fault(fault_between(alloc, left, damage)?, damage.2, name, place)?;
    }
    Ok(())
}

const DAMAGES: &[(&str, &[Damage])] = &[
    ("unreadable", UNREADABLE),
    ("version", VERSIONS),
    ("lifespan", LIFESPANS),
    ("unsound", UNSOUND),
    ("mandate", MANDATES),
    ("harmless", HARMLESS),
    ("begun", IN_TRANSACTION),
];

/// Fails if some corruption does not have its fault.
fn all_have_faults(alloc: Global, left: &mut Option<Connection<MemStore>>) -> Result<(), Stop> {
    for (name, damages) in DAMAGES {
        have_faults(alloc, left, name, damages)?;
    }
    Ok(())
}

/// Fails if the undone corruptions do not leave the rows of the scenario.
fn check_scenario_rows(alloc: Global, left: &mut Option<Connection<MemStore>>) -> Result<(), Stop> {
    match left.as_mut() {
        Some(conn) => expect_rows_after_steps(alloc, conn),
        None => Err(Stop::Call),
    }
}

/// Returns the store of the tables after the scenario.
fn store_after_scenario(alloc: Global) -> Result<Option<Connection<MemStore>>, Stop> {
    Ok(Some(tables_after_scenario(alloc)?.into_connection()))
}

fn check_damages(alloc: Global, left: &mut Option<Connection<MemStore>>) -> Result<(), Stop> {
    all_have_faults(alloc, left)?;
    check_scenario_rows(alloc, left)
}

/// Each corruption has its fault, and undoing it leaves the rows of the scenario.
pub fn damaged_tables_have_their_faults(alloc: Global) -> Result<(), Stop> {
    let mut left = store_after_scenario(alloc)?;
    check_damages(alloc, &mut left)
}

/// Returns the fault of opening a store after SQL statements.
fn fault_after_sql(alloc: Global, text: &str) -> Result<u16, Stop> {
    Ok(adopt_fault(alloc, store_after_sql(alloc, text)?).0)
}

/// Stores that hold no register are refused.
pub fn stores_of_others_are_520(alloc: Global) -> Result<(), Stop> {
    for (place, text) in OTHERS.iter().enumerate() {
        expect_fault(fault_after_sql(alloc, text)?, 520, "other", place)?;
    }
    Ok(())
}
