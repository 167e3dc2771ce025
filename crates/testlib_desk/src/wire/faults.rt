//! Bodies that are not read, each with the number of its first fault.
use crate::wire::reading::{Reader, fault_in};
use land_wire_json::bodies::content_kind::ContentKind;
use std::alloc::{AllocError, Global};
use testlib_scenario::stop::{Stop, expect};

/// A fault, a reader, and a body that has the fault for that reader.
struct Row(u16, Reader, &'static str);

fn expect_faults(alloc: Global, rows: &[Row]) -> Result<(), Stop> {
    for (place, row) in rows.iter().enumerate() {
        let fault = fault_in(alloc, row.1, row.2.as_bytes())?;
        expect(fault == row.0, "row", place)?;
    }
    Ok(())
}

const NO_JSON: &[Row] = &[
    Row(130, Reader::Lift, ""),
    Row(130, Reader::Lift, "rrr"),
    Row(130, Reader::Lift, r#"{"rrr":13"#),
    Row(130, Reader::Lift, r#"{"rrr":13}}"#),
    Row(130, Reader::Lift, r#"{"rrr":13,}"#),
    Row(130, Reader::Lift, r#"{"rrr":01}"#),
    Row(130, Reader::Lift, r#"{"rrr":+1}"#),
    Row(130, Reader::Lift, r#"{"rrr":1e400}"#),
    Row(130, Reader::Lift, r#"{'rrr':1}"#),
    Row(130, Reader::Lift, "\u{feff}{\"rrr\":1}"),
    Row(
        130,
        Reader::Enrol,
        r#"{"kind":"naturalPerson","name":"\ud83d"}"#,
    ),
    Row(
        130,
        Reader::Enrol,
        "{\"kind\":\"naturalPerson\",\"name\":\"A\nB\"}",
    ),
];

const FIELDS: &[Row] = &[
    Row(131, Reader::Lift, "[]"),
    Row(131, Reader::Lift, "13"),
    Row(131, Reader::Lift, "null"),
    Row(131, Reader::Lift, "{}"),
    Row(131, Reader::Lift, r#"{"rrr":"13"}"#),
    Row(131, Reader::Lift, r#"{"rrr":null}"#),
    Row(131, Reader::Lift, r#"{"rrr":[13]}"#),
    Row(131, Reader::Lift, r#"{"rrr":13,"unit":9}"#),
    Row(131, Reader::Lift, r#"{"Rrr":13}"#),
    Row(131, Reader::Mandate, r#"{"principal":2,"agent":5}"#),
    Row(131, Reader::Mandate, r#"{"party":5}"#),
    Row(131, Reader::Withdraw, r#"{"principal":2}"#),
    Row(131, Reader::Withdraw, r#"{"agent":0}"#),
    // an unknown key comes before the fields, and the fields come in order
    Row(131, Reader::Enrol, r#"{"kind":"group","name":"","more":1}"#),
    Row(133, Reader::Enrol, r#"{"kind":"group"}"#),
    Row(131, Reader::Enrol, r#"{"name":""}"#),
    Row(
        131,
        Reader::Register,
        r#"{"name":"G","checked":1,"document":"D","parcels":[],"rights":[]}"#,
    ),
    // the length of an array comes before its elements
    Row(
        131,
        Reader::Group,
        r#"{"name":"G","members":[{"party":0,"share":"x"}]}"#,
    ),
    Row(131, Reader::Group, r#"{"name":"G","members":[]}"#),
    Row(131, Reader::Group, r#"{"name":"G","members":{}}"#),
    Row(
        131,
        Reader::Register,
        r#"{"name":"G","checked":true,"document":"D","parcels":[],"rights":[]}"#,
    ),
    Row(
        131,
        Reader::Lodge(ContentKind::Merger),
        r#"{"reference":"G","document":"D","unit":9,"others":[],"parcels":[0],"label":"","outline":""}"#,
    ),
];

const NUMBERS: &[Row] = &[
    Row(132, Reader::Lift, r#"{"rrr":0}"#),
    Row(132, Reader::Mandate, r#"{"agent":0}"#),
    Row(132, Reader::Withdraw, r#"{"principal":0,"agent":"5"}"#),
    Row(132, Reader::Withdraw, r#"{"principal":2,"agent":-5}"#),
    Row(132, Reader::Lift, r#"{"rrr":-0}"#),
    Row(132, Reader::Lift, r#"{"rrr":-1}"#),
    Row(132, Reader::Lift, r#"{"rrr":1.0}"#),
    Row(132, Reader::Lift, r#"{"rrr":1e0}"#),
    Row(132, Reader::Lift, r#"{"rrr":1000000001}"#),
    Row(132, Reader::Lift, r#"{"rrr":18446744073709551616}"#),
    Row(
        132,
        Reader::Lift,
        r#"{"rrr":100000000000000000000000000000}"#,
    ),
    Row(
        132,
        Reader::Lodge(ContentKind::Mortgage),
        r#"{"reference":"M","document":"D","unit":9,"creditor":4,"amount":0,"currency":"EUR"}"#,
    ),
    Row(
        132,
        Reader::Lodge(ContentKind::Mortgage),
        r#"{"reference":"M","document":"D","unit":9,"creditor":4,"amount":1000000000000001,"currency":"EUR"}"#,
    ),
];

const SHARES: &[Row] = &[
    Row(
        132,
        Reader::Lodge(ContentKind::Transfer),
        r#"{"reference":"T","document":"D","unit":9,"right":11,"receiver":7,"share":"1"}"#,
    ),
    Row(
        132,
        Reader::Lodge(ContentKind::Transfer),
        r#"{"reference":"T","document":"D","unit":9,"right":11,"receiver":7,"share":"1/"}"#,
    ),
    Row(
        132,
        Reader::Lodge(ContentKind::Transfer),
        r#"{"reference":"T","document":"D","unit":9,"right":11,"receiver":7,"share":"1/2/3"}"#,
    ),
    Row(
        132,
        Reader::Lodge(ContentKind::Transfer),
        r#"{"reference":"T","document":"D","unit":9,"right":11,"receiver":7,"share":" 1/2"}"#,
    ),
    Row(
        132,
        Reader::Lodge(ContentKind::Transfer),
        r#"{"reference":"T","document":"D","unit":9,"right":11,"receiver":7,"share":"0000000000000000001/2"}"#,
    ),
    Row(
        101,
        Reader::Lodge(ContentKind::Transfer),
        r#"{"reference":"T","document":"D","unit":9,"right":11,"receiver":7,"share":"0/5"}"#,
    ),
    Row(
        102,
        Reader::Lodge(ContentKind::Transfer),
        r#"{"reference":"T","document":"D","unit":9,"right":11,"receiver":7,"share":"3/2"}"#,
    ),
    Row(
        103,
        Reader::Lodge(ContentKind::Transfer),
        r#"{"reference":"T","document":"D","unit":9,"right":11,"receiver":7,"share":"1/1000000001"}"#,
    ),
];

const TEXTS: &[Row] = &[
    Row(
        133,
        Reader::Enrol,
        r#"{"kind":"naturalperson","name":"Anna"}"#,
    ),
    Row(
        133,
        Reader::Enrol,
        r#"{"kind":"naturalPerson","name":"A\u0000"}"#,
    ),
    Row(
        133,
        Reader::Enrol,
        "{\"kind\":\"naturalPerson\",\"name\":\"A\u{7f}\"}",
    ),
    Row(134, Reader::Grant, r#"{"party":4,"role":"banker"}"#),
    Row(134, Reader::Grant, r#"{"party":4,"role":""}"#),
    Row(
        133,
        Reader::Burden,
        r#"{"unit":25,"party":1,"class":"lease","words":"W","document":"O"}"#,
    ),
    Row(
        133,
        Reader::Lodge(ContentKind::Discharge),
        r#"{"reference":"","document":"Letter","unit":9,"mortgage":16}"#,
    ),
    Row(
        133,
        Reader::Lodge(ContentKind::Mortgage),
        r#"{"reference":"M","document":"D","unit":9,"creditor":4,"amount":1,"currency":"EURO"}"#,
    ),
    Row(
        133,
        Reader::Lodge(ContentKind::Mortgage),
        r#"{"reference":"M","document":"D","unit":9,"creditor":4,"amount":1,"currency":"eur"}"#,
    ),
];

const LISTS: &[Row] = &[
    // the order comes after the elements were read
    Row(
        131,
        Reader::Lodge(ContentKind::Merger),
        r#"{"reference":"G","document":"D","unit":9,"others":[],"parcels":[26,24],"label":"","outline":""}"#,
    ),
    Row(
        131,
        Reader::Lodge(ContentKind::Merger),
        r#"{"reference":"G","document":"D","unit":9,"others":[],"parcels":[24,24],"label":"","outline":""}"#,
    ),
    Row(
        132,
        Reader::Lodge(ContentKind::Merger),
        r#"{"reference":"G","document":"D","unit":9,"others":[],"parcels":[26,24,0],"label":"","outline":""}"#,
    ),
    Row(
        131,
        Reader::Lodge(ContentKind::Merger),
        r#"{"reference":"G","document":"D","unit":9,"others":["25"],"parcels":[24,26],"label":"","outline":""}"#,
    ),
    Row(
        131,
        Reader::Lodge(ContentKind::Merger),
        r#"{"reference":"G","document":"D","unit":9,"others":[9],"parcels":[],"label":"","outline":""}"#,
    ),
    Row(
        133,
        Reader::Lodge(ContentKind::Merger),
        r#"{"reference":"G","document":"D","unit":9,"others":[],"parcels":[24,26],"label":"","outline":""}"#,
    ),
    // rights without an ownership, after they were read
    Row(
        131,
        Reader::Register,
        r#"{"name":"G","checked":true,"document":"D","parcels":[{"label":"1","outline":"POLYGON ((0 0, 1 0, 0 1, 0 0))"}],"rights":[{"party":6,"type":"lease","share":"1/1"}]}"#,
    ),
    Row(
        133,
        Reader::Register,
        r#"{"name":"G","checked":true,"document":"D","parcels":[{"label":"1","outline":"POLYGON ((0 0, 1 0, 0 1, 0 0))"}],"rights":[{"party":6,"type":"rent","share":"1/1"}]}"#,
    ),
    // faults of a part of a subdivision
    Row(
        131,
        Reader::Lodge(ContentKind::Subdivision),
        r#"{"reference":"S","document":"P","unit":9,"parcel":10,"first":{"label":"a","outline":"POLYGON ((0 0, 1 0, 0 1, 0 0))","unit":"Orchard"},"rest":[]}"#,
    ),
    Row(
        131,
        Reader::Lodge(ContentKind::Subdivision),
        r#"{"reference":"S","document":"P","unit":9,"parcel":10,"first":{"label":"a","outline":"POLYGON ((0 0, 1 0, 0 1, 0 0))"},"rest":[]}"#,
    ),
    Row(
        131,
        Reader::Lodge(ContentKind::Subdivision),
        r#"{"reference":"S","document":"P","unit":9,"parcel":10,"first":{"label":"a","outline":"POLYGON ((0 0, 1 0, 0 1, 0 0))"},"rest":[{"label":"b","outline":"POLYGON ((0 0, 1 0, 0 1, 0 0))","unit":null}]}"#,
    ),
    Row(
        114,
        Reader::Lodge(ContentKind::Subdivision),
        r#"{"reference":"S","document":"P","unit":9,"parcel":10,"first":{"label":"a","outline":"POLYGON ((0 0, 1 0, 0 0.5, 0 0))"},"rest":[{}]}"#,
    ),
    Row(
        119,
        Reader::Lodge(ContentKind::Subdivision),
        r#"{"reference":"S","document":"P","unit":9,"parcel":10,"first":{"label":"a","outline":"POLYGON ((0 0, 2 2, 2 0, 0 2, 0 0))"},"rest":[{}]}"#,
    ),
];

/// Checks that text that is not JSON is fault 130.
pub fn invalid_json_is_130(alloc: Global) -> Result<(), Stop> {
    expect_faults(alloc, NO_JSON)
}

/// Checks that wrong fields are fault 131.
pub fn wrong_fields_are_131(alloc: Global) -> Result<(), Stop> {
    expect_faults(alloc, FIELDS)
}

/// Checks that wrong numbers are fault 132.
pub fn wrong_numbers_are_132(alloc: Global) -> Result<(), Stop> {
    expect_faults(alloc, NUMBERS)
}

/// Checks that wrong shares are faults 132 and 101 to 103.
pub fn wrong_shares_are_132_and_101_to_103(alloc: Global) -> Result<(), Stop> {
    expect_faults(alloc, SHARES)
}

/// Checks that wrong texts and words are faults 133 and 134.
pub fn wrong_texts_and_words_are_133_and_134(alloc: Global) -> Result<(), Stop> {
    expect_faults(alloc, TEXTS)
}

/// Checks that faults of lists come after those of their elements.
pub fn wrong_lists_are_reported_after_their_elements(alloc: Global) -> Result<(), Stop> {
    expect_faults(alloc, LISTS)
}

/// Returns arrays nested to this depth.
fn nested(alloc: Global, levels: usize) -> Result<String, AllocError> {
    let mut body = String::new(alloc);
    for _ in 0..levels {
        body.push_str("[")?;
    }
    for _ in 0..levels {
        body.push_str("]")?;
    }
    Ok(body)
}

fn fault_of_nested(alloc: Global, levels: usize) -> Result<u16, AllocError> {
    let body = nested(alloc, levels)?;
    fault_in(alloc, Reader::Lift, body.as_bytes())
}

/// Checks that levels are read up to 127.
pub fn levels_are_read_up_to_127(alloc: Global) -> Result<(), Stop> {
    expect(fault_of_nested(alloc, 127)? == 131, "levels", 127)?;
    expect(fault_of_nested(alloc, 128)? == 130, "levels", 128)
}

/// Checks that bytes that are not valid UTF-8 are fault 130.
pub fn invalid_utf8_is_130(alloc: Global) -> Result<(), Stop> {
    let body = b"{\"kind\":\"naturalPerson\",\"name\":\"\xff\"}";
    expect(fault_in(alloc, Reader::Enrol, body)? == 130, "fault", 130)
}
