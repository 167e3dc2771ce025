//! The visible objects of a small register.
ghost use Rattle.land_tables_schema.specs.Schemas.{IsSchemaV2};
ghost use Rattle.sqlite.specs.Held.{state};
ghost use Rattle.sqlite.specs.State.{HasCleanDisk};

use land_core::caller::Caller;
use land_core::kind::Kind;
use land_core::role::Role;
use land_core::sequence::NumberList;
use land_select_queries::joins::sight::sight;
use land_tables_rows::listing::fault::ReadFault;
use land_tables_schema::rows::creation::make_register;
use land_tables_schema::rows::openness::is_open;
use land_tables_schema::schema::{is_empty, is_schema_v2};
use sqlite::{Connection, Error, ErrorCode, MemStore};
use std::alloc::Global;
use testlib_scenario::stop::{Stop, expect};

/// A unit with an owner, a bank's mortgage and a tenant until 2000; a unit that a group owns, of which the
/// tenant
/// is a member. A conveyancer lodged two mutations: one on the group's unit is undecided, one on the other
/// unit is approved.
const ROWS: &str = "
INSERT INTO party (number, name, kind, since, until) VALUES
  (2, 'Owner', 'naturalPerson', 1000, 4102444800000), (3, 'Tenant', 'naturalPerson', 1000, 4102444800000),
  (4, 'Group', 'group', 1000, 4102444800000), (5, 'Bank', 'nonNaturalPerson', 1000, 4102444800000),
  (6, 'Conveyancer', 'naturalPerson', 1000, 4102444800000);
INSERT INTO member (grp, party, num, den, since, until) VALUES (4, 3, 1, 1, 1000, 4102444800000);
INSERT INTO unit (number, name, checked, since, until) VALUES
  (10, 'Meadow', 1, 1000, 4102444800000), (11, 'Hill', 1, 1000, 4102444800000);
INSERT INTO source (number, kind, title, since, until) VALUES (40, 'administrative', 'Deed', 1000, 4102444800000);
INSERT INTO rrr (number, unit, party, class, num, den, amount, currency, place, words, source, since, until) VALUES
  (20, 10, 2, 'ownership', 1, 1, NULL, NULL, NULL, NULL, 40, 1000, 4102444800000),
  (21, 10, 5, 'mortgage', NULL, NULL, 100, 'EUR', 1, NULL, 40, 1000, 4102444800000),
  (22, 10, 3, 'lease', 1, 1, NULL, NULL, NULL, NULL, 40, 1000, 2000),
  (23, 11, 4, 'ownership', 1, 1, NULL, NULL, NULL, NULL, 40, 1000, 4102444800000);
INSERT INTO mutation (number, lodger, reference, source, lodged, act, content, state, since, until) VALUES
  (30, 6, 'A', 40, 1000, 'transfer', '{}', 'lodged', 1000, 4102444800000),
  (31, 6, 'B', 40, 1000, 'transfer', '{}', 'approved', 1000, 4102444800000);
INSERT INTO names (mutation, unit, since, until) VALUES
  (30, 11, 1000, 4102444800000), (31, 10, 1000, 4102444800000);
";

/// A read: the caller's party and role, the kind, the requested moment, and the visible numbers.
type Look = (u64, Role, Kind, i64, &'static [u64]);

const LOOKS: &[Look] = &[
    // the owner
    (2, Role::Citizen, Kind::Unit, 1500, &[10]),
    (2, Role::Citizen, Kind::Rrr, 1500, &[20, 21, 22]),
    (2, Role::Citizen, Kind::Party, 1500, &[2, 3, 5]),
    (2, Role::Citizen, Kind::Mutation, 1500, &[31]),
    (2, Role::Citizen, Kind::Source, 1500, &[]),
    // the tenant, who sees no mortgage, and who also holds through the group
    (3, Role::Citizen, Kind::Unit, 1999, &[10, 11]),
    (3, Role::Citizen, Kind::Rrr, 1999, &[20, 22, 23]),
    (3, Role::Citizen, Kind::Party, 1999, &[2, 3, 4]),
    (3, Role::Citizen, Kind::Mutation, 1999, &[30, 31]),
    // the lease has ended
    (3, Role::Citizen, Kind::Unit, 2000, &[11]),
    (3, Role::Citizen, Kind::Rrr, 2000, &[23]),
    (3, Role::Citizen, Kind::Party, 2000, &[3, 4]),
    // the bank
    (5, Role::Bank, Kind::Unit, 1500, &[10]),
    (5, Role::Bank, Kind::Rrr, 1500, &[20, 21, 22]),
    (5, Role::Bank, Kind::Party, 1500, &[2, 3, 5]),
    (5, Role::Bank, Kind::Mutation, 1500, &[]),
    // the conveyancer
    (6, Role::Conveyancer, Kind::Unit, 1500, &[11]),
    (6, Role::Conveyancer, Kind::Rrr, 1500, &[23]),
    (6, Role::Conveyancer, Kind::Party, 1500, &[4, 6]),
    (6, Role::Conveyancer, Kind::Mutation, 1500, &[30, 31]),
    // callers who see everything, and callers who see little
    (1, Role::Notary, Kind::Party, 1500, &[1, 2, 3, 4, 5, 6]),
    (1, Role::StateAdministrator, Kind::Unit, 1500, &[10, 11]),
    (1, Role::Notary, Kind::Source, 1500, &[40]),
    (1, Role::Notary, Kind::Unit, 999, &[]),
    (6, Role::CertifiedSurveyor, Kind::Unit, 1500, &[]),
    (6, Role::CertifiedSurveyor, Kind::Party, 1500, &[6]),
    // unregistered callers
    (0, Role::Citizen, Kind::Unit, 1500, &[]),
    (
        18_446_744_073_709_551_615,
        Role::Citizen,
        Kind::Party,
        1500,
        &[],
    ),
];

/// Returns the error for a store that is not as expected.
fn unexpected_store() -> Error {
    Error::SqliteFailure(ErrorCode::TransactionState)
}

/// Returns a small register in memory.
fn small_register(alloc: Global) -> Result<Connection<MemStore>, Error> {
    let mut conn = Connection::open_in_memory(alloc)?;
    if !is_empty(conn.schema()) || !conn.is_autocommit() {
        return Err(unexpected_store());
    }
    make_register(&mut conn)?;
    conn.execute_batch(ROWS)?;
    Ok(conn)
}

/// Returns the numbers that a caller sees, if the store is open and has the tables.
fn sight_of_caller(
    alloc: Global,
    conn: &mut Connection<MemStore>,
    caller: Caller,
    kind: Kind,
    at: i64,
) -> Result<NumberList, Error> {
    if !is_open(conn) || !is_schema_v2(conn.schema()) {
        return Err(unexpected_store());
    }
    match sight(alloc, conn, caller, kind, at) {
        Ok(numbers) => Ok(numbers),
        Err(ReadFault::NoMemory) => Err(Error::SqliteFailure(ErrorCode::OutOfMemory)),
        Err(_) => Err(unexpected_store()),
    }
}

fn are_numbers(numbers: &NumberList, wanted: &[u64]) -> bool {
    numbers.as_slice() == wanted
}

/// A small register is seen by each role.
pub fn a_small_register_is_seen_by_role(alloc: Global) -> Result<(), Stop> {
    let mut conn = small_register(alloc)?;
    for (place, look) in LOOKS.iter().enumerate() {
        let caller = Caller {
            party: look.0,
            role: look.1,
        };
        let numbers = sight_of_caller(alloc, &mut conn, caller, look.2, look.3)?;
        expect(are_numbers(&numbers, look.4), "look", place)?;
    }
    Ok(())
}
