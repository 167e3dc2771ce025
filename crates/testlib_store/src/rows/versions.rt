//! Versions that are inserted and closed, in each table.
ghost use Rattle.land_tables_schema.specs.Connections.{HasRegisterTables};
ghost use Rattle.sqlite.specs.Held.{state};

use crate::rows::register::new_register;
use crate::rows::table::{Table, expect_tables, unexpected_store};
use land_tables_schema::rows::tables::mutation::MutationCells;
use land_tables_schema::rows::tables::rrr::RrrCells;
use land_tables_schema::rows::tables::{
    mandate, member, moments, mutation, names, parcel, party, role, rrr, source, unit,
};
use land_tables_schema::schema::is_schema_v2;
use sqlite::{Alter, Connection, Error, Transaction};
use std::alloc::Global;
use testlib_scenario::stop::{Stop, expect};

/// A right of 3/4.
const RIGHT: RrrCells<'static> = RrrCells {
    number: 12,
    unit: 9,
    party: 5,
    class: "ownership",
    num: Some(3),
    den: Some(4),
    amount: None,
    currency: None,
    place: None,
    words: None,
    source: 8,
};

/// A mortgage of 250 000 euros, the first of its unit.
const MORTGAGE: RrrCells<'static> = RrrCells {
    number: 21,
    unit: 9,
    party: 4,
    class: "mortgage",
    num: None,
    den: None,
    amount: Some(25_000_000),
    currency: Some("EUR"),
    place: Some(1),
    words: None,
    source: 20,
};

/// A restriction.
const WAY: RrrCells<'static> = RrrCells {
    number: 22,
    unit: 9,
    party: 2,
    class: "restriction",
    num: None,
    den: None,
    amount: None,
    currency: None,
    place: None,
    words: Some("Right of way"),
    source: 20,
};

/// A mutation when it is lodged.
const MUTATION: MutationCells<'static> = MutationCells {
    number: 15,
    lodger: 3,
    reference: "D-1",
    source: 14,
    lodged: 1010,
    act: "discharge",
    content: "{\"right\":21,\"unit\":9}",
    state: "lodged",
};

/// A write to a table, with its moment.
#[derive(Clone, Copy)]
enum Write {
    Moment(i64, u32),
    Party(u32, &'static str, i64),
    EndParty(u32, i64),
    Role(u32, &'static str, i64),
    EndRole(u32, &'static str, i64),
    Member(u32, u32, i64),
    EndMembers(u32, i64),
    Unit(u32, bool, i64),
    EndUnit(u32, i64),
    Parcel(u32, i64),
    EndParcel(u32, i64),
    Right(i64),
    Mortgage(i64),
    Way(i64),
    EndEntry(u32, i64),
    Source(u32, i64),
    EndSource(u32, i64),
    Mutation(i64),
    EndMutation(u32, i64),
    Name(u32, u32, i64),
    Mandate(u32, u32, i64),
    EndMandate(u32, u32, i64),
}

/// Runs a write of a party, a role, a member or a mandate.
fn write_party<S: Alter>(tx: &mut Transaction<'_, S>, write: Write) -> Result<usize, Error>
    requires { HasRegisterTables S.Store tx.old.conn.now }
{
    match write {
        Write::Party(number, name, since) => {
            party::begin(tx, u64::from(number), name, "naturalPerson", since)
        }
        Write::EndParty(number, stamp) => party::close(tx, u64::from(number), stamp),
        Write::Role(party, word, since) => role::begin(tx, u64::from(party), word, since),
        Write::EndRole(party, word, stamp) => role::close(tx, u64::from(party), word, stamp),
        Write::Member(group, party, since) => {
            member::begin(tx, u64::from(group), u64::from(party), 1, 2, since)
        }
        Write::EndMembers(group, stamp) => member::close(tx, u64::from(group), stamp),
        Write::Mandate(principal, agent, since) => {
            mandate::begin(tx, u64::from(principal), u64::from(agent), since)
        }
        Write::EndMandate(principal, agent, stamp) => {
            mandate::close(tx, u64::from(principal), u64::from(agent), stamp)
        }
        _ => Ok(0),
    }
}

/// Runs a write of a unit, a parcel or an entry.
fn write_unit<S: Alter>(tx: &mut Transaction<'_, S>, write: Write) -> Result<usize, Error>
    requires { HasRegisterTables S.Store tx.old.conn.now }
{
    match write {
        Write::Unit(number, checked, since) => {
            unit::begin(tx, u64::from(number), "Garden", checked, since)
        }
        Write::EndUnit(number, stamp) => unit::close(tx, u64::from(number), stamp),
        Write::Parcel(number, since) => {
            parcel::begin(
                tx,
                u64::from(number),
                9,
                "P1",
                "POLYGON ((0 0, 1 0, 0 1, 0 0))",
                8,
                since,
            )
        }
        Write::EndParcel(number, stamp) => parcel::close(tx, u64::from(number), stamp),
        Write::Right(since) => rrr::begin(tx, RIGHT, since),
        Write::Mortgage(since) => rrr::begin(tx, MORTGAGE, since),
        Write::Way(since) => rrr::begin(tx, WAY, since),
        Write::EndEntry(number, stamp) => rrr::close(tx, u64::from(number), stamp),
        _ => Ok(0),
    }
}

/// Runs a write of a source, a mutation, a row of `names` or a commit.
fn write_source<S: Alter>(tx: &mut Transaction<'_, S>, write: Write) -> Result<usize, Error>
    requires { HasRegisterTables S.Store tx.old.conn.now }
{
    match write {
        Write::Moment(stamp, next) => moments::insert(tx, stamp, u64::from(next)),
        Write::Source(number, since) => {
            source::begin(tx, u64::from(number), "spatial", "Survey", since)
        }
        Write::EndSource(number, stamp) => source::close(tx, u64::from(number), stamp),
        Write::Mutation(since) => mutation::begin(tx, MUTATION, since),
        Write::EndMutation(number, stamp) => mutation::close(tx, u64::from(number), stamp),
        Write::Name(mutation, unit, since) => {
            names::begin(tx, u64::from(mutation), u64::from(unit), since)
        }
        _ => Ok(0),
    }
}

/// Runs one write in its own transaction, and returns the number of rows written.
fn write_one<S: Alter>(conn: &mut Connection<S>, write: Write) -> Result<usize, Error> {
    if !is_schema_v2(conn.schema()) || !conn.is_autocommit() {
        return Err(unexpected_store());
    }
    let mut tx = conn.transaction();
    let count = match write {
        Write::Party(..) | Write::EndParty(..) | Write::Role(..) => write_party(&mut tx, write)?,
        Write::EndRole(..) | Write::Member(..) | Write::EndMembers(..) => {
            write_party(&mut tx, write)?
        }
        Write::Mandate(..) | Write::EndMandate(..) => write_party(&mut tx, write)?,
        Write::Moment(..) | Write::Source(..) | Write::EndSource(..) => {
            write_source(&mut tx, write)?
        }
        Write::Mutation(..) | Write::EndMutation(..) | Write::Name(..) => {
            write_source(&mut tx, write)?
        }
        _ => write_unit(&mut tx, write)?,
    };
    tx.commit()?;
    Ok(count)
}

/// The writes, each with its number of rows.
const WRITES: &[(Write, usize)] = &[
    (Write::Moment(1000, 5), 1),
    (Write::Party(2, "Ada", 1000), 1),
    (Write::Party(3, "Ben", 1000), 1),
    (Write::EndParty(2, 1005), 1),
    (Write::Party(2, "Ada Stone", 1005), 1),
    (Write::EndParty(2, 1007), 1),
    (Write::EndParty(2, 1009), 0),
    (Write::Role(2, "citizen", 1000), 1),
    (Write::Role(2, "notary", 1000), 1),
    (Write::Role(3, "citizen", 1000), 1),
    (Write::EndRole(2, "citizen", 1004), 1),
    (Write::EndRole(2, "bank", 1004), 0),
    (Write::Member(5, 2, 1000), 1),
    (Write::Member(5, 3, 1000), 1),
    (Write::Member(6, 2, 1000), 1),
    (Write::EndMembers(5, 1003), 2),
    (Write::Unit(9, true, 1000), 1),
    (Write::Unit(10, false, 1000), 1),
    (Write::EndUnit(10, 1002), 1),
    (Write::Parcel(13, 1000), 1),
    (Write::Parcel(14, 1000), 1),
    (Write::EndParcel(13, 1001), 1),
    (Write::Right(1000), 1),
    (Write::Mortgage(1000), 1),
    (Write::Way(1000), 1),
    (Write::EndEntry(12, 1006), 1),
    (Write::Source(8, 1000), 1),
    (Write::Source(14, 1000), 1),
    (Write::EndSource(8, 1008), 1),
    (Write::Mutation(1010), 1),
    (Write::EndMutation(15, 1011), 1),
    (Write::EndMutation(15, 1012), 0),
    (Write::Name(15, 9, 1010), 1),
    (Write::Name(15, 10, 1010), 1),
    (Write::Mandate(2, 3, 1000), 1),
    (Write::Mandate(2, 5, 1000), 1),
    (Write::Mandate(3, 2, 1000), 1),
    (Write::EndMandate(2, 3, 1004), 1),
    (Write::EndMandate(2, 3, 1005), 0),
    (Write::EndMandate(5, 2, 1005), 0),
    (Write::Mandate(2, 3, 1006), 1),
];

/// The tables after the writes.
const FOUND: &[(Table, &str)] = &[
    (Table::Moments, "0|2|\n1000|5|\n"),
    (
        Table::Party,
        "1|Land Office|nonNaturalPerson|0|4102444800000|\n\
        2|Ada|naturalPerson|1000|1005|\n\
        3|Ben|naturalPerson|1000|4102444800000|\n\
        2|Ada Stone|naturalPerson|1005|1007|\n",
    ),
    (
        Table::Role,
        "1|stateAdministrator|0|4102444800000|\n\
        2|citizen|1000|1004|\n\
        2|notary|1000|4102444800000|\n\
        3|citizen|1000|4102444800000|\n",
    ),
    (
        Table::Member,
        "5|2|1|2|1000|1003|\n\
        5|3|1|2|1000|1003|\n\
        6|2|1|2|1000|4102444800000|\n",
    ),
    (
        Table::Unit,
        "9|Garden|1|1000|4102444800000|\n\
        10|Garden|0|1000|1002|\n",
    ),
    (
        Table::Parcel,
        "13|9|P1|POLYGON ((0 0, 1 0, 0 1, 0 0))|8|1000|1001|\n\
        14|9|P1|POLYGON ((0 0, 1 0, 0 1, 0 0))|8|1000|4102444800000|\n",
    ),
    (
        Table::Rrr,
        "12|9|5|ownership|3|4|NULL|NULL|NULL|NULL|8|1000|1006|\n\
        21|9|4|mortgage|NULL|NULL|25000000|EUR|1|NULL|20|1000|4102444800000|\n\
        22|9|2|restriction|NULL|NULL|NULL|NULL|NULL|Right of way|20|1000|4102444800000|\n",
    ),
    (
        Table::Source,
        "8|spatial|Survey|1000|1008|\n\
        14|spatial|Survey|1000|4102444800000|\n",
    ),
    (
        Table::Mutation,
        "15|3|D-1|14|1010|discharge|{\"right\":21,\"unit\":9}|lodged|1010|1011|\n",
    ),
    (
        Table::Names,
        "15|9|1010|4102444800000|\n\
        15|10|1010|4102444800000|\n",
    ),
    (
        Table::Mandate,
        "2|3|1000|1004|\n\
        2|5|1000|4102444800000|\n\
        3|2|1000|4102444800000|\n\
        2|3|1006|4102444800000|\n",
    ),
];

/// Each statement inserts or closes versions, and then the tables have these rows.
pub fn versions_are_inserted_and_closed(alloc: Global) -> Result<(), Stop> {
    let mut conn = new_register(alloc)?;
    for (place, (write, wanted)) in WRITES.iter().enumerate() {
        let count = write_one(&mut conn, *write)?;
        expect(count == *wanted, "rows written", place)?;
    }
    expect_tables(alloc, &mut conn, FOUND)
}

/// The only party of a new register.
const OFFICE_ALONE: &[(Table, &str)] = &[(
    Table::Party,
    "1|Land Office|nonNaturalPerson|0|4102444800000|\n",
)];

/// A party of a transaction that is rolled back does not exist.
pub fn uncommitted_rows_do_not_exist(alloc: Global) -> Result<(), Stop> {
    let mut conn = new_register(alloc)?;
    drop_a_party(&mut conn)?;
    expect_tables(alloc, &mut conn, OFFICE_ALONE)
}

/// Inserts a party, and rolls the transaction back.
fn drop_a_party<S: Alter>(conn: &mut Connection<S>) -> Result<(), Error> {
    if !is_schema_v2(conn.schema()) || !conn.is_autocommit() {
        return Err(unexpected_store());
    }
    let mut tx = conn.transaction();
    write_party(&mut tx, Write::Party(2, "Ada", 1000))?;
    Ok(())
}
