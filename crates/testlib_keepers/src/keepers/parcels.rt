//! Alternatives of the scenario in which parcels are subdivided and merged.
use crate::keepers::story::Story;
use testlib_scenario::talk::ExpectedReply::{self, Denied, Refused, Sheet, Shown};
use testlib_scenario::talk::{ANNA, BANK, BEN, NORA, NOTARY, OFFICE, Row, SURVEYOR};

/// The second part has the area of the right half, but lies a metre away from it.
const OTHER_GROUND: &[Row] = &[
    Row(
        "POST /acts/subdivision",
        SURVEYOR,
        br#"{"reference":"S1","document":"Plan 1","unit":9,"parcel":10,"first":{"label":"12a","outline":"POLYGON ((0 0, 5000 0, 5000 10000, 0 10000, 0 0))"},"rest":[{"label":"12b","outline":"POLYGON ((6000 0, 11000 0, 11000 10000, 6000 10000, 6000 0))","unit":"Orchard"}]}"#,
        Shown(r#"{"made":[22,23],"number":23,"stamp":1016}"#),
    ),
    Row(
        "POST /acts/approve",
        OFFICE,
        br#"{"mutation":23}"#,
        Refused(220),
    ),
    Row(
        "GET /parcels/10",
        NORA,
        b"",
        Shown(
            r#"{"object":{"doubled":200000000,"label":"12","number":10,"outline":"POLYGON ((0 0, 10000 0, 10000 10000, 0 10000, 0 0))","source":8,"unit":9}}"#,
        ),
    ),
];

const THREE_PARTS: &[Row] = &[
    Row(
        "POST /acts/subdivision",
        SURVEYOR,
        br#"{"reference":"S1","document":"Plan 1","unit":9,"parcel":10,"first":{"label":"12a","outline":"POLYGON ((0 0, 5000 0, 5000 10000, 0 10000, 0 0))"},"rest":[{"label":"12b","outline":"POLYGON ((5000 0, 7500 0, 7500 10000, 5000 10000, 5000 0))","unit":"Orchard"},{"label":"12c","outline":"POLYGON ((7500 0, 10000 0, 10000 10000, 7500 10000, 7500 0))","unit":"Meadow"}]}"#,
        Shown(r#"{"made":[22,23],"number":23,"stamp":1016}"#),
    ),
    Row(
        "POST /acts/approve",
        OFFICE,
        br#"{"mutation":23}"#,
        Shown(r#"{"made":[24,25,26,27,28,29,30,31,32,33,34],"number":23,"stamp":1017}"#),
    ),
    Row(
        "GET /parcels/24",
        NORA,
        b"",
        Shown(
            r#"{"object":{"doubled":100000000,"label":"12a","number":24,"outline":"POLYGON ((0 0, 5000 0, 5000 10000, 0 10000, 0 0))","source":22,"unit":9}}"#,
        ),
    ),
    Row(
        "GET /parcels/26",
        NORA,
        b"",
        Shown(
            r#"{"object":{"doubled":50000000,"label":"12b","number":26,"outline":"POLYGON ((5000 0, 7500 0, 7500 10000, 5000 10000, 5000 0))","source":22,"unit":25}}"#,
        ),
    ),
    Row(
        "GET /parcels/31",
        NORA,
        b"",
        Shown(
            r#"{"object":{"doubled":50000000,"label":"12c","number":31,"outline":"POLYGON ((7500 0, 10000 0, 10000 10000, 7500 10000, 7500 0))","source":22,"unit":30}}"#,
        ),
    ),
    Row(
        "GET /rrrs",
        OFFICE,
        b"",
        Shown(r#"{"numbers":[13,16,21,27,28,29,32,33,34]}"#),
    ),
];

const ONE_UNIT: &[Row] = &[
    Row(
        "POST /acts/subdivision",
        SURVEYOR,
        br#"{"reference":"S1","document":"Plan 1","unit":9,"parcel":10,"first":{"label":"12a","outline":"POLYGON ((0 0, 5000 0, 5000 10000, 0 10000, 0 0))"},"rest":[{"label":"12b","outline":"POLYGON ((5000 0, 10000 0, 10000 10000, 5000 10000, 5000 0))"}]}"#,
        Shown(r#"{"made":[22,23],"number":23,"stamp":1016}"#),
    ),
    Row(
        "POST /acts/approve",
        OFFICE,
        br#"{"mutation":23}"#,
        Shown(r#"{"made":[24,25],"number":23,"stamp":1017}"#),
    ),
    Row(
        "GET /units/9/sheet",
        NOTARY,
        b"",
        Sheet(
            "TITLE SHEET\nUnit 9 Garden\nAt 1970-01-01T00:00:01.017Z\nShares checked\nArea 100.0000000\nParcels 2\n        24            50.0000000  12a\n        25            50.0000000  12b\nEntries 3\n        13  lease                    6 Sam: 1/1\n        16  mortgage                 4 Bank, \"North\": rank 1 EUR 2500000\n        21  ownership                3 Ben: 1/1\nEND\n",
        ),
    ),
];

const MERGER: &[u8] =
    br#"{"reference":"G1","document":"Plan 2","unit":9,"others":[25],"parcels":[24,26],"label":"12","outline":"POLYGON ((0 0, 10000 0, 10000 10000, 0 10000, 0 0))"}"#;

const MERGED: &[Row] = &[
    Row(
        "POST /acts/merger",
        SURVEYOR,
        MERGER,
        Shown(r#"{"made":[30,31],"number":31,"stamp":1018}"#),
    ),
    Row(
        "POST /acts/approve",
        OFFICE,
        br#"{"mutation":31}"#,
        Shown(r#"{"made":[32],"number":31,"stamp":1019}"#),
    ),
    Row("GET /units/25", OFFICE, b"", Denied(27)),
    Row("GET /rrrs/27", OFFICE, b"", Denied(27)),
    Row("GET /rrrs/28", OFFICE, b"", Denied(27)),
    Row("GET /rrrs/29", OFFICE, b"", Denied(27)),
    Row("GET /units", OFFICE, b"", Shown(r#"{"numbers":[9]}"#)),
    Row("GET /parcels", OFFICE, b"", Shown(r#"{"numbers":[32]}"#)),
    Row("GET /rrrs", OFFICE, b"", Shown(r#"{"numbers":[13,16,21]}"#)),
    Row(
        "GET /mutations/31",
        SURVEYOR,
        b"",
        Shown(
            r#"{"object":{"act":"merger","content":{"label":"12","others":[25],"outline":"POLYGON ((0 0, 10000 0, 10000 10000, 0 10000, 0 0))","parcels":[24,26],"unit":9},"lodged":1018,"lodger":6,"number":31,"reference":"G1","source":30,"state":"approved"}}"#,
        ),
    ),
];

/// The merger before it is decided.
const MERGER_SHOWN: ExpectedReply = Shown(
    r#"{"object":{"act":"merger","content":{"label":"12","others":[25],"outline":"POLYGON ((0 0, 10000 0, 10000 10000, 0 10000, 0 0))","parcels":[24,26],"unit":9},"lodged":1020,"lodger":6,"number":34,"reference":"G1","source":33,"state":"lodged"}}"#,
);

/// Anna gets the orchard, so she holds a right only in the other unit of the merger.
const SEEN_FROM_ANOTHER_UNIT: &[Row] = &[
    Row(
        "POST /acts/transfer",
        NOTARY,
        br#"{"reference":"T3","document":"Deed 4","unit":25,"right":29,"receiver":2,"share":"1/1"}"#,
        Shown(r#"{"made":[30,31],"number":31,"stamp":1018}"#),
    ),
    Row(
        "POST /acts/approve",
        OFFICE,
        br#"{"mutation":31}"#,
        Shown(r#"{"made":[32],"number":31,"stamp":1019}"#),
    ),
    Row(
        "POST /acts/merger",
        SURVEYOR,
        MERGER,
        Shown(r#"{"made":[33,34],"number":34,"stamp":1020}"#),
    ),
    Row("GET /mutations/34", ANNA, b"", MERGER_SHOWN),
    Row("GET /mutations/34", BEN, b"", MERGER_SHOWN),
    Row("GET /mutations/34", NORA, b"", Denied(14)),
    Row("GET /mutations/34", BANK, b"", Denied(18)),
    Row("GET /mutations/34", SURVEYOR, b"", MERGER_SHOWN),
    Row("GET /mutations/31", SURVEYOR, b"", Denied(25)),
    Row("GET /mutations/34?at=1019", ANNA, b"", Denied(14)),
    Row("GET /mutations/77", SURVEYOR, b"", Denied(25)),
];

const UNLIKE_UNITS: &[Row] = &[
    Row(
        "POST /acts/burden",
        OFFICE,
        br#"{"unit":25,"party":1,"class":"restriction","words":"No well","document":"Order"}"#,
        Shown(r#"{"made":[30,31],"number":31,"stamp":1018}"#),
    ),
    Row(
        "POST /acts/merger",
        SURVEYOR,
        MERGER,
        Shown(r#"{"made":[32,33],"number":33,"stamp":1019}"#),
    ),
    Row(
        "POST /acts/approve",
        OFFICE,
        br#"{"mutation":33}"#,
        Refused(209),
    ),
];

/// Alternatives in which parcels are subdivided and merged.
pub const PARCELS: &[Story] = &[
    Story("other ground", 16, &[], OTHER_GROUND),
    Story("three parts", 16, &[], THREE_PARTS),
    Story("one unit", 16, &[], ONE_UNIT),
    Story("a merger", 18, &[], MERGED),
    Story(
        "a merger seen from another unit",
        18,
        &[],
        SEEN_FROM_ANOTHER_UNIT,
    ),
    Story("units that are not alike", 18, &[], UNLIKE_UNITS),
];
