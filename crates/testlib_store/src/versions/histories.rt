//! Histories, built from rows.
use crate::versions::cell::{Cell, row_except};
use crate::versions::sample::sample_of;
use crate::versions::table::Table;
use land_core::sequence::Sequence;
use land_tables_history::history::History;
use land_tables_rows::reading::from_row::FromRow;
use land_wire_json::bodies::wire_fault::WireFault;
use sqlite::{Alter, Connection, Error, ErrorCode, Row};
use std::alloc::{AllocError, Global};

/// The end of a current version's lifespan.
pub const OPEN: i64 = 4_102_444_800_000;

/// A version: its table, the columns that differ from the sample, its start and its end.
#[derive(Clone, Copy)]
pub struct Span(pub Table, pub &'static [(usize, Cell)], pub i64, pub i64);

/// Returns an empty history.
pub fn empty_history(alloc: Global) -> History {
    History {
        parties: Sequence::new(alloc),
        roles: Sequence::new(alloc),
        members: Sequence::new(alloc),
        units: Sequence::new(alloc),
        parcels: Sequence::new(alloc),
        rrrs: Sequence::new(alloc),
        sources: Sequence::new(alloc),
        mutations: Sequence::new(alloc),
        namings: Sequence::new(alloc),
        mandates: Sequence::new(alloc),
    }
}

/// Returns the row of a version.
fn row_of<S: Alter>(conn: &mut Connection<S>, span: &Span) -> Result<Row, Error> {
    let cells = sample_of(span.0).cells;
    let width = cells.len();
    let lifespan = [
        (width.saturating_sub(2), Cell::Number(span.2)),
        (width.saturating_sub(1), Cell::Number(span.3)),
    ];
    row_except(conn, cells, span.1, &lifespan)
}

/// Adds a version.
fn push<X: FromRow>(alloc: Global, versions: &mut Sequence<X>, row: &Row) -> Result<(), Error> {
    match X::from_row(alloc, row) {
        Ok(version) => Ok(versions.push(version)?),
        Err(WireFault::NoMemory) => Err(Error::from(AllocError)),
        Err(_) => Err(Error::SqliteFailure(ErrorCode::TransactionState)),
    }
}

/// Adds a version of a table.
fn push_to(alloc: Global, history: &mut History, table: Table, row: &Row) -> Result<(), Error> {
    match table {
        Table::Party => push(alloc, &mut history.parties, row),
        Table::Role => push(alloc, &mut history.roles, row),
        Table::Member => push(alloc, &mut history.members, row),
        Table::Unit => push(alloc, &mut history.units, row),
        Table::Parcel => push(alloc, &mut history.parcels, row),
        Table::Right | Table::Burden | Table::Mortgage => push(alloc, &mut history.rrrs, row),
        Table::Source => push(alloc, &mut history.sources, row),
        Table::Mutation => push(alloc, &mut history.mutations, row),
        Table::Names => push(alloc, &mut history.namings, row),
        Table::Mandate => push(alloc, &mut history.mandates, row),
        Table::Edition | Table::Moments => Err(Error::SqliteFailure(ErrorCode::TransactionState)),
    }
}

/// Adds a version.
pub fn add<S: Alter>(
    alloc: Global,
    conn: &mut Connection<S>,
    history: &mut History,
    span: &Span,
) -> Result<(), Error> {
    let row = row_of(conn, span)?;
    push_to(alloc, history, span.0, &row)
}

/// Returns the history of these versions.
pub fn history_of<S: Alter>(
    alloc: Global,
    conn: &mut Connection<S>,
    spans: &[Span],
) -> Result<History, Error> {
    let mut history = empty_history(alloc);
    for span in spans {
        add(alloc, conn, &mut history, span)?;
    }
    Ok(history)
}
