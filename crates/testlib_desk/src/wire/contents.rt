//! Contents that are read and written again.
use land_wire_json::bodies::content::read_content;
use land_wire_json::bodies::wire_fault::WireFault;
use land_wire_json::texts::mutation::content_text;
use std::alloc::{AllocError, Global};
use testlib_scenario::stop::{Stop, expect};

/// The word of an act, the text of a content, and the number of its fault, 0 if it is read and written
/// unchanged.
struct Row(&'static str, &'static str, u16);

const ROWS: &[Row] = &[
    Row(
        "transfer",
        r#"{"receiver":7,"right":11,"share":"1/4","unit":9}"#,
        0,
    ),
    Row(
        "subdivision",
        r#"{"first":{"label":"12a","outline":"POLYGON ((0 0, 5000 0, 5000 10000, 0 10000, 0 0))"},"parcel":10,"rest":[{"label":"12b","outline":"POLYGON ((5000 0, 10000 0, 10000 10000, 5000 10000, 5000 0))","unit":"Orchard"},{"label":"\"c\\","outline":"POLYGON ((0 0, 1 0, 0 1, 0 0))"}],"unit":9}"#,
        0,
    ),
    Row(
        "merger",
        r#"{"label":"12","others":[25],"outline":"POLYGON ((0 0, 10000 0, 10000 10000, 0 10000, 0 0))","parcels":[24,26],"unit":9}"#,
        0,
    ),
    Row(
        "mortgage",
        r#"{"amount":2500000,"creditor":4,"currency":"EUR","unit":9}"#,
        0,
    ),
    Row("discharge", r#"{"mortgage":16,"unit":9}"#, 0),
    Row("enrol", r#"{"mortgage":16,"unit":9}"#, 133),
    Row("Discharge", r#"{"mortgage":16,"unit":9}"#, 133),
    Row("discharge", r#"{"mortgage":16,"unit":9"#, 130),
    Row(
        "discharge",
        r#"{"mortgage":16,"unit":9,"reference":"D1"}"#,
        131,
    ),
    Row("transfer", r#"{"receiver":7,"right":11,"unit":9}"#, 131),
    Row(
        "transfer",
        r#"{"receiver":7,"right":11,"share":"2/1","unit":9}"#,
        102,
    ),
    Row(
        "transfer",
        r#"{"receiver":7.0,"right":11,"share":"1/4","unit":9}"#,
        132,
    ),
];

/// Checks that a text is read as its row specifies, and that it is written unchanged if it was read.
fn is_as_said(alloc: Global, row: &Row) -> Result<bool, AllocError> {
    match read_content(alloc, row.0, row.1) {
        Ok(content) => {
            let text = content_text(alloc, &content)?;
            Ok(row.2 == 0 && text.as_str() == row.1)
        }
        Err(WireFault::NoMemory) => Err(AllocError),
        Err(fault) => Ok(fault.number() == row.2),
    }
}

fn expect_rows(alloc: Global, rows: &[Row]) -> Result<(), Stop> {
    for (place, row) in rows.iter().enumerate() {
        expect(is_as_said(alloc, row)?, "row", place)?;
    }
    Ok(())
}

/// Checks that contents are read and written.
pub fn contents_are_read_and_written(alloc: Global) -> Result<(), Stop> {
    expect_rows(alloc, ROWS)
}
