//! Reads all rows of a store.
use sqlite::{Alter, Connection};
use std::alloc::{AllocError, Global};
use testlib_scenario::lines::lines;
use testlib_scenario::stop::Stop;

/// A table: its name, its key without the beginning, and its other columns without the lifespan.
struct Table(&'static str, &'static str, &'static str);

const TABLES: &[Table] = &[
    Table("party", "number", "name, kind"),
    Table("role", "party, role", "0"),
    Table("member", "grp, party", "num, den"),
    Table("unit", "number", "name, checked"),
    Table("parcel", "number", "unit, label, outline, source"),
    Table(
        "rrr",
        "number",
        "unit, party, class, num, den, amount, currency, place, words, source",
    ),
    Table("source", "number", "kind, title"),
    Table(
        "mutation",
        "number",
        "lodger, reference, source, lodged, act, content, state",
    ),
    Table("names", "mutation, unit", "0"),
    Table("mandate", "principal, agent", "0"),
];

/// Returns the query for the rows of a table that begin at or before a time. Ends after that time are
/// reported as never.
fn query(alloc: Global, table: &Table, at: i64) -> Result<String, AllocError> {
    let Table(name, key, others) = table;
    format!(in alloc;
        "SELECT {key}, {others}, since, CASE WHEN until > {at} THEN 4102444800000 ELSE until END \
        FROM {name} WHERE since <= {at} ORDER BY {key}, since"
    )
}

fn push_rows<S: Alter>(
    alloc: Global,
    conn: &mut Connection<S>,
    all: &mut String,
    query: &str,
) -> Result<(), Stop> {
    let rows = lines(alloc, conn, query)?;
    all.push_str(rows.as_str())?;
    all.push_str("\n")?;
    Ok(())
}

fn push_moments<S: Alter>(
    alloc: Global,
    conn: &mut Connection<S>,
    all: &mut String,
    at: i64,
) -> Result<(), Stop> {
    let query = format!(in alloc;
        "SELECT stamp, next FROM moments WHERE stamp <= {at} ORDER BY stamp"
    )?;
    push_rows(alloc, conn, all, query.as_str())
}

fn push_table<S: Alter>(
    alloc: Global,
    conn: &mut Connection<S>,
    all: &mut String,
    table: &Table,
    at: i64,
) -> Result<(), Stop> {
    let query = query(alloc, table, at)?;
    push_rows(alloc, conn, all, query.as_str())
}

/// Reads all rows that the tables had at a time, as lines: those that begin at or before it. Ends after it
/// are reported as never.
pub fn rows_at<S: Alter>(alloc: Global, conn: &mut Connection<S>, at: i64) -> Result<String, Stop> {
    let mut all = String::with_capacity(alloc, 8192)?;
    push_rows(
        alloc,
        conn,
        &mut all,
        "SELECT id, version FROM edition ORDER BY id",
    )?;
    push_moments(alloc, conn, &mut all, at)?;
    for table in TABLES {
        push_table(alloc, conn, &mut all, table, at)?;
    }
    Ok(all)
}
