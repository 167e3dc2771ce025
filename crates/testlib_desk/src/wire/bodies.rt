//! Bodies that are read without a fault, with those of the worked rows.
use crate::wire::reading::{Reader, fault_in};
use land_wire_json::bodies::content_kind::ContentKind;
use std::alloc::{AllocError, Global};
use testlib_scenario::stop::{Stop, expect};

/// A reader, and a body that it reads.
struct Row(Reader, &'static str);

const SCENARIO: &[Row] = &[
    Row(Reader::Enrol, r#"{"kind":"naturalPerson","name":"Anna"}"#),
    Row(
        Reader::Enrol,
        r#"{"kind":"nonNaturalPerson","name":"Bank, \"North\""}"#,
    ),
    Row(Reader::Grant, r#"{"party":4,"role":"bank"}"#),
    Row(Reader::Grant, r#"{"party":5,"role":"notary"}"#),
    Row(Reader::Grant, r#"{"party":6,"role":"certifiedSurveyor"}"#),
    Row(
        Reader::Group,
        r#"{"name":"Anna and Ben","members":[{"party":2,"share":"1/3"},{"party":3,"share":"2/3"}]}"#,
    ),
    Row(
        Reader::Register,
        r#"{"name":"Garden","checked":true,"document":"Deed 1","parcels":[{"label":"12","outline":"POLYGON ((0 0, 10000 0, 10000 10000, 0 10000, 0 0))"}],"rights":[{"party":2,"type":"ownership","share":"1/4"},{"party":7,"type":"ownership","share":"3/4"},{"party":6,"type":"lease","share":"1/1"}]}"#,
    ),
    Row(
        Reader::Lodge(ContentKind::Mortgage),
        r#"{"reference":"M1","document":"Loan 1","unit":9,"creditor":4,"amount":2500000,"currency":"EUR"}"#,
    ),
    Row(Reader::Decide, r#"{"mutation":15}"#),
    Row(
        Reader::Lodge(ContentKind::Transfer),
        r#"{"reference":"T1","document":"Deed 2","unit":9,"right":11,"receiver":7,"share":"1/4"}"#,
    ),
    Row(
        Reader::Lodge(ContentKind::Subdivision),
        r#"{"reference":"S1","document":"Plan 1","unit":9,"parcel":10,"first":{"label":"12a","outline":"POLYGON ((0 0, 5000 0, 5000 10000, 0 10000, 0 0))"},"rest":[{"label":"12b","outline":"POLYGON ((5000 0, 10000 0, 10000 10000, 5000 10000, 5000 0))","unit":"Orchard"}]}"#,
    ),
    Row(
        Reader::Lodge(ContentKind::Merger),
        r#"{"reference":"G1","document":"Plan 2","unit":9,"others":[25],"parcels":[24,26],"label":"12","outline":"POLYGON ((0 0, 10000 0, 10000 10000, 0 10000, 0 0))"}"#,
    ),
    Row(
        Reader::Lodge(ContentKind::Discharge),
        r#"{"reference":"D1","document":"Letter","unit":9,"mortgage":16}"#,
    ),
    Row(
        Reader::Burden,
        r#"{"unit":25,"party":1,"class":"restriction","words":"No well","document":"Order"}"#,
    ),
];

const OTHERS: &[Row] = &[
    Row(
        Reader::Regroup,
        r#"{"group":7,"members":[{"party":2,"share":"1/2"},{"party":3,"share":"1/2"}]}"#,
    ),
    Row(Reader::Lift, r#"{"rrr":13}"#),
    Row(Reader::Mandate, r#"{"agent":5}"#),
    Row(Reader::Withdraw, r#"{"principal":2,"agent":5}"#),
    Row(Reader::Withdraw, r#"{"agent":2,"principal":2}"#),
    Row(
        Reader::Burden,
        r#"{"unit":1000000000,"party":1,"class":"responsibility","words":"Keep the fence","document":"Order"}"#,
    ),
    // the order of keys does not matter, the last of two equal keys counts, and white space is skipped
    Row(Reader::Enrol, r#"{"name":"Anna","kind":"naturalPerson"}"#),
    Row(
        Reader::Enrol,
        r#"{"kind":5,"name":"Anna","kind":"naturalPerson"}"#,
    ),
    Row(
        Reader::Enrol,
        " {\t\"kind\" : \"naturalPerson\",\r\n\"name\":\"Anna\" } ",
    ),
    // an escape denotes its character
    Row(
        Reader::Enrol,
        r#"{"\u006bind":"naturalPerson","name":"\u0041nna \ud83d\ude00"}"#,
    ),
    // shares may have leading zeros, and need not be in lowest terms
    Row(
        Reader::Regroup,
        r#"{"group":7,"members":[{"party":2,"share":"000000000000000001/2"},{"party":3,"share":"2/4"}]}"#,
    ),
    // members may be repeated, and their shares may not sum to 1: only acts check that
    Row(
        Reader::Group,
        r#"{"name":"G","members":[{"party":2,"share":"1/2"},{"party":2,"share":"1/3"}]}"#,
    ),
    Row(
        Reader::Lodge(ContentKind::Merger),
        r#"{"reference":"G1","document":"Plan 2","unit":9,"others":[],"parcels":[24,26],"label":"12","outline":"POLYGON ((0 0, 1 0, 0 1, 0 0))"}"#,
    ),
    Row(
        Reader::Lodge(ContentKind::Mortgage),
        r#"{"reference":"M1","document":"Loan 1","unit":9,"creditor":4,"amount":1000000000000000,"currency":"EUR"}"#,
    ),
];

fn expect_read(alloc: Global, rows: &[Row]) -> Result<(), Stop> {
    for (place, row) in rows.iter().enumerate() {
        expect(fault_in(alloc, row.0, row.1.as_bytes())? == 0, "row", place)?;
    }
    Ok(())
}

/// Checks that the bodies of the scenario are read.
pub fn the_bodies_of_the_scenario_are_read(alloc: Global) -> Result<(), Stop> {
    expect_read(alloc, SCENARIO)
}

/// Checks that other bodies are read.
pub fn other_bodies_are_read(alloc: Global) -> Result<(), Stop> {
    expect_read(alloc, OTHERS)
}

/// Returns a name of this number of equal characters.
fn enrolment(alloc: Global, character: &str, count: usize) -> Result<String, AllocError> {
    let mut body = String::from_str(alloc, r#"{"kind":"naturalPerson","name":""#)?;
    for _ in 0..count {
        body.push_str(character)?;
    }
    body.push_str("\"}")?;
    Ok(body)
}

fn fault_of_name(alloc: Global, character: &str, count: usize) -> Result<u16, AllocError> {
    let body = enrolment(alloc, character, count)?;
    fault_in(alloc, Reader::Enrol, body.as_bytes())
}

/// A character, its count in a name, and the fault of the name, 0 if there is none.
struct Name(&'static str, usize, u16);

const NAMES: &[Name] = &[
    Name("a", 200, 0),
    Name("a", 201, 133),
    Name("\u{1f600}", 200, 0),
    Name("\u{1f600}", 201, 133),
    Name("a", 0, 133),
];

/// Checks that the length of a name is counted in characters.
pub fn a_name_is_counted_in_characters(alloc: Global) -> Result<(), Stop> {
    for (place, name) in NAMES.iter().enumerate() {
        let fault = fault_of_name(alloc, name.0, name.1)?;
        expect(fault == name.2, "name", place)?;
    }
    Ok(())
}
