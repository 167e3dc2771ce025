//! The contents of mutations, by the word of the act.
use crate::versions::cell::{Cell, row_of};
use land_core::mutation::MutationRecord;
use land_core::words::act_word;
use land_tables_history::version::Version;
use land_tables_rows::reading::from_row::FromRow;
use land_wire_json::bodies::wire_fault::WireFault;
use land_wire_json::texts::mutation::content_text;
use sqlite::{Alter, Connection, Error, Row};
use std::alloc::{AllocError, Global};
use testlib_scenario::stop::{Stop, expect};

/// Returns a mutation with an act and a content.
fn mutation<S: Alter>(
    conn: &mut Connection<S>,
    act: &'static str,
    content: &'static str,
) -> Result<Row, Error> {
    let cells = [
        Cell::Number(18),
        Cell::Number(4),
        Cell::Words("D-1"),
        Cell::Number(17),
        Cell::Number(999),
        Cell::Words(act),
        Cell::Words(content),
        Cell::Words("lodged"),
        Cell::Number(1000),
        Cell::Number(1005),
    ];
    row_of(conn, &cells)
}

/// Returns the canonical form of a content, or the number of its fault.
enum Said {
    Text(&'static str),
    Fault(u16),
}

/// The word of an act, a content, and its canonical form or its fault.
struct Content(&'static str, &'static str, Said);

const CONTENTS: &[Content] = &[
    Content(
        "transfer",
        r#"{"unit":9, "right":11, "receiver":7, "share":"02/8"}"#,
        Said::Text(r#"{"receiver":7,"right":11,"share":"1/4","unit":9}"#),
    ),
    Content(
        "subdivision",
        r#"{"unit":9,"parcel":10,"first":{"outline":"polygon((0 0,0 1,1 0,0 0))","label":"12a"},"rest":[{"label":"12b","outline":"POLYGON ((0 0, 1 0, 0 1, 0 0))","unit":"\u004frchard"},{"label":"c","outline":"POLYGON ((0 0, 1 0, 0 1, 0 0))"}]}"#,
        Said::Text(
            r#"{"first":{"label":"12a","outline":"POLYGON ((0 0, 1 0, 0 1, 0 0))"},"parcel":10,"rest":[{"label":"12b","outline":"POLYGON ((0 0, 1 0, 0 1, 0 0))","unit":"Orchard"},{"label":"c","outline":"POLYGON ((0 0, 1 0, 0 1, 0 0))"}],"unit":9}"#,
        ),
    ),
    Content(
        "merger",
        r#"{"unit":9,"others":[ 25 ],"parcels":[ 24 , 26 ],"label":"12","outline":"POLYGON((0 0,1 0,0 1,0 0))"}"#,
        Said::Text(
            r#"{"label":"12","others":[25],"outline":"POLYGON ((0 0, 1 0, 0 1, 0 0))","parcels":[24,26],"unit":9}"#,
        ),
    ),
    Content(
        "mortgage",
        r#"{"unit":9,"creditor":4,"amount":1000000000000000,"currency":"EUR"}"#,
        Said::Text(r#"{"amount":1000000000000000,"creditor":4,"currency":"EUR","unit":9}"#),
    ),
    Content(
        "discharge",
        "\t{\"unit\":9,\"mortgage\":16}\n",
        Said::Text(r#"{"mortgage":16,"unit":9}"#),
    ),
    // the fields of another act
    Content("mortgage", r#"{"mortgage":16,"unit":9}"#, Said::Fault(131)),
    Content(
        "discharge",
        r#"{"amount":1,"creditor":4,"currency":"EUR","unit":9}"#,
        Said::Fault(131),
    ),
    Content(
        "transfer",
        r#"{"receiver":7,"right":11,"share":"1","unit":9}"#,
        Said::Fault(132),
    ),
    Content(
        "transfer",
        r#"{"receiver":7,"right":11,"share":"0/4","unit":9}"#,
        Said::Fault(101),
    ),
    Content(
        "transfer",
        r#"{"receiver":7,"right":11,"share":"5/4","unit":9}"#,
        Said::Fault(102),
    ),
    Content(
        "transfer",
        r#"{"receiver":7,"right":11,"share":"1/1000000001","unit":9}"#,
        Said::Fault(103),
    ),
    Content(
        "mortgage",
        r#"{"amount":0,"creditor":4,"currency":"EUR","unit":9}"#,
        Said::Fault(132),
    ),
    Content(
        "mortgage",
        r#"{"amount":1,"creditor":4,"currency":"eur","unit":9}"#,
        Said::Fault(133),
    ),
    Content(
        "merger",
        r#"{"label":"12","others":[],"outline":"POLYGON ((0 0, 1 0, 0 1, 0 0))","parcels":[26,24],"unit":9}"#,
        Said::Fault(131),
    ),
    Content(
        "merger",
        r#"{"label":"","others":[],"outline":"POLYGON ((0 0, 1 0, 0 1, 0 0))","parcels":[24,26],"unit":9}"#,
        Said::Fault(133),
    ),
    Content(
        "merger",
        r#"{"label":"12","others":[],"outline":"POLYGON ((0 0, 2 2, 2 0, 0 2, 0 0))","parcels":[24,26],"unit":9}"#,
        Said::Fault(119),
    ),
    Content(
        "subdivision",
        r#"{"first":{"label":"12a","outline":"POLYGON EMPTY"},"parcel":10,"rest":[{}],"unit":9}"#,
        Said::Fault(111),
    ),
    Content(
        "subdivision",
        r#"{"first":{"label":"12a","outline":"POLYGON ((0 0, 1 0, 0 1, 0 0))"},"parcel":10,"rest":[],"unit":9}"#,
        Said::Fault(131),
    ),
];

/// Returns whether a row is a mutation whose content has this canonical form, or this fault.
fn says(alloc: Global, row: &Row, content: &Content) -> Result<bool, AllocError> {
    let read: Result<Version<(u64, MutationRecord)>, WireFault> = FromRow::from_row(alloc, row);
    match read {
        Ok(version) => is_text(alloc, &version.what.1, content),
        Err(WireFault::NoMemory) => Err(AllocError),
        Err(fault) => Ok(is_fault(fault.number(), &content.2)),
    }
}

/// Returns whether a mutation has this act and this content.
fn is_text(
    alloc: Global,
    mutation: &MutationRecord,
    content: &Content,
) -> Result<bool, AllocError> {
    match &content.2 {
        Said::Text(wanted) => {
            let text = content_text(alloc, &mutation.content)?;
            Ok(text.as_str() == *wanted && act_word(&mutation.content) == content.0)
        }
        Said::Fault(_) => Ok(false),
    }
}

fn is_fault(number: u16, said: &Said) -> bool {
    match said {
        Said::Text(_) => false,
        Said::Fault(wanted) => number == *wanted,
    }
}

fn is_as_said<S: Alter>(
    alloc: Global,
    conn: &mut Connection<S>,
    content: &Content,
) -> Result<bool, Error> {
    let row = mutation(conn, content.0, content.1)?;
    Ok(says(alloc, &row, content)?)
}

/// Contents are read by the word of the act that lodges them.
pub fn contents_are_read_by_their_act(alloc: Global) -> Result<(), Stop> {
    let mut conn = Connection::open_in_memory(alloc)?;
    for (place, content) in CONTENTS.iter().enumerate() {
        expect(is_as_said(alloc, &mut conn, content)?, "row", place)?;
    }
    Ok(())
}
