//! Requests in addition to the scenario, after some of its steps. They do not change the register.
use crate::keepers::story::Story;
use testlib_scenario::scenario::MORTGAGE;
use testlib_scenario::talk::ExpectedReply::{
    self, Denied, Fault, HeadFault, Refused, Sheet, Shown,
};
use testlib_scenario::talk::{ANNA, BANK, BEN, ENROL, NORA, NOTARY, OFFICE, Row, SAM, SURVEYOR};

const GARDEN: ExpectedReply = Shown(r#"{"object":{"checked":true,"name":"Garden","number":9}}"#);

const NOBODY: &[Row] = &[Row(
    "POST /acts/enrol",
    "Register-Party: 9\r\nRegister-Role: stateAdministrator\r\n",
    ENROL,
    Denied(1),
)];

const FIRST_CITIZEN: &[Row] = &[
    Row(
        "POST /acts/enrol",
        "Register-Party: 2\r\nRegister-Role: stateAdministrator\r\n",
        ENROL,
        Denied(2),
    ),
    Row("POST /acts/enrol", ANNA, ENROL, Denied(4)),
    Row("GET /parties/9", OFFICE, b"", Denied(27)),
    Row("GET /parties/1", ANNA, b"", Denied(13)),
    Row("GET /parties", ANNA, b"", Shown(r#"{"numbers":[2]}"#)),
    Row(
        "GET /parties/2",
        ANNA,
        b"",
        Shown(
            r#"{"object":{"kind":"naturalPerson","members":[],"name":"Anna","number":2,"roles":["citizen"]}}"#,
        ),
    ),
    Row("GET /parties?", OFFICE, b"", Shown(r#"{"numbers":[1,2]}"#)),
    Row(
        "GET /parties/1",
        OFFICE,
        b"",
        Shown(
            r#"{"object":{"kind":"nonNaturalPerson","members":[],"name":"Land Office","number":1,"roles":["stateAdministrator"]}}"#,
        ),
    ),
];

/// The shares of a new group.
const THIRDS: &[Row] = &[
    Row(
        "POST /acts/group",
        OFFICE,
        br#"{"name":"Three","members":[{"party":2,"share":"1/3"},{"party":3,"share":"1/3"},{"party":4,"share":"333333333/1000000000"}]}"#,
        Refused(207),
    ),
    Row(
        "POST /acts/group",
        OFFICE,
        br#"{"name":"Three","members":[{"party":2,"share":"1/3"},{"party":3,"share":"1/3"},{"party":4,"share":"1/4"}]}"#,
        Refused(213),
    ),
    Row(
        "POST /acts/group",
        OFFICE,
        br#"{"name":"Two","members":[{"party":2,"share":"1/2"},{"party":2,"share":"1/2"}]}"#,
        Refused(219),
    ),
];

const ROLES: &[Row] = &[Row(
    "GET /parties/4",
    OFFICE,
    b"",
    Shown(
        r#"{"object":{"kind":"nonNaturalPerson","members":[],"name":"Bank, \"North\"","number":4,"roles":["citizen","bank"]}}"#,
    ),
)];

const GROUP: &[Row] = &[
    Row("GET /parties", ANNA, b"", Shown(r#"{"numbers":[2,7]}"#)),
    Row(
        "GET /parties/7",
        ANNA,
        b"",
        Shown(
            r#"{"object":{"kind":"group","members":[{"party":2,"share":"1/3"},{"party":3,"share":"2/3"}],"name":"Anna and Ben","number":7,"roles":[]}}"#,
        ),
    ),
    Row(
        "POST /acts/grant",
        OFFICE,
        br#"{"party":4,"role":"bank"}"#,
        Refused(215),
    ),
    Row(
        "POST /acts/revoke",
        OFFICE,
        br#"{"party":4,"role":"notary"}"#,
        Refused(216),
    ),
    Row(
        "POST /acts/grant",
        OFFICE,
        br#"{"party":7,"role":"bank"}"#,
        Refused(205),
    ),
];

const REGISTERED: &[Row] = &[
    Row("GET /units/77", NORA, b"", Denied(11)),
    Row("GET /units/9", NORA, b"", Denied(11)),
    Row("GET /units/77", NOTARY, b"", Denied(27)),
    Row("GET /units", ANNA, b"", Shown(r#"{"numbers":[9]}"#)),
    Row("GET /parties", ANNA, b"", Shown(r#"{"numbers":[2,6,7]}"#)),
    Row("GET /units/9", BANK, b"", Denied(15)),
    Row(
        "POST /acts/register",
        OFFICE,
        br#"{"name":"Meadow","checked":true,"document":"Deed","parcels":[{"label":"13","outline":"POLYGON ((0 0, 1 0, 0 1, 0 0))"}],"rights":[{"party":2,"type":"ownership","share":"1/2"},{"party":3,"type":"ownership","share":"1/3"}]}"#,
        Refused(213),
    ),
    Row(
        "POST /acts/register",
        OFFICE,
        br#"{"name":"Meadow","checked":true,"document":"Deed","parcels":[{"label":"13","outline":"POLYGON ((0 0, 1 0, 0 1, 0 0))"}],"rights":[{"party":2,"type":"ownership","share":"1/2"},{"party":2,"type":"ownership","share":"1/2"}]}"#,
        Refused(219),
    ),
    Row("POST /acts/lift", OFFICE, br#"{"rrr":13}"#, Refused(204)),
];

/// The mortgage is requested again, once with another amount.
const REPEATED: &[Row] = &[
    Row(
        "POST /acts/mortgage",
        BANK,
        MORTGAGE,
        Shown(r#"{"made":[14,15],"number":15,"stamp":1010}"#),
    ),
    Row(
        "POST /acts/mortgage",
        BANK,
        br#"{"reference":"M1","document":"Loan 1","unit":9,"creditor":4,"amount":2500001,"currency":"EUR"}"#,
        Refused(214),
    ),
];

const LODGED_MORTGAGE: &[Row] = &[Row(
    "GET /mutations/15",
    BANK,
    b"",
    Shown(
        r#"{"object":{"act":"mortgage","content":{"amount":2500000,"creditor":4,"currency":"EUR","unit":9},"lodged":1010,"lodger":4,"number":15,"reference":"M1","source":14,"state":"lodged"}}"#,
    ),
)];

/// The visibility of the garden with its mortgage.
const SIGHT: &[Row] = &[
    Row("GET /units/77", NORA, b"", Denied(11)),
    Row("GET /units/9", NORA, b"", Denied(11)),
    Row("GET /units/77", NOTARY, b"", Denied(27)),
    Row("GET /units/9", NOTARY, b"", GARDEN),
    Row("GET /units/77", SURVEYOR, b"", Denied(23)),
    Row(
        "GET /rrrs",
        ANNA,
        b"",
        Shown(r#"{"numbers":[11,12,13,16]}"#),
    ),
    Row("GET /rrrs", SAM, b"", Shown(r#"{"numbers":[11,12,13]}"#)),
    Row("GET /rrrs/16", SAM, b"", Denied(12)),
    Row("GET /rrrs", SURVEYOR, b"", Shown(r#"{"numbers":[]}"#)),
    Row("GET /units", ANNA, b"", Shown(r#"{"numbers":[9]}"#)),
    Row("GET /parties", ANNA, b"", Shown(r#"{"numbers":[2,4,6,7]}"#)),
    Row("GET /sources", ANNA, b"", Shown(r#"{"numbers":[]}"#)),
    Row("GET /sources/8", ANNA, b"", Denied(26)),
    Row("GET /sources/8", BANK, b"", Denied(26)),
    Row(
        "POST /acts/discharge",
        BANK,
        br#"{"reference":"D1","document":"Letter","unit":9,"mortgage":11}"#,
        Denied(9),
    ),
];

/// The visibility for Nora as a citizen: herself, and all parcels.
const NORAS_SIGHT: &[Row] = &[
    Row("GET /parties", NORA, b"", Shown(r#"{"numbers":[5]}"#)),
    Row("GET /parcels", NORA, b"", Shown(r#"{"numbers":[10]}"#)),
    Row("GET /units", NORA, b"", Shown(r#"{"numbers":[]}"#)),
    Row("GET /rrrs", NORA, b"", Shown(r#"{"numbers":[]}"#)),
    Row("GET /sources", NORA, b"", Shown(r#"{"numbers":[]}"#)),
    Row("GET /mutations", NORA, b"", Shown(r#"{"numbers":[]}"#)),
    Row("GET /rrrs/11", NORA, b"", Denied(12)),
    Row("GET /rrrs/16", NORA, b"", Denied(12)),
    Row("GET /parties/2", NORA, b"", Denied(13)),
    Row("GET /mutations/15", NORA, b"", Denied(14)),
    Row("GET /sources/8", NORA, b"", Denied(26)),
];

/// The past: an object that did not exist at that time is not shown.
const PAST: &[Row] = &[
    Row("GET /parties/2?at=999", ANNA, b"", Denied(27)),
    Row("GET /parties/3?at=999", ANNA, b"", Denied(13)),
    Row("GET /parcels/10?at=1008", ANNA, b"", Denied(27)),
    Row(
        "GET /parcels/10?at=1009",
        ANNA,
        b"",
        Shown(
            r#"{"object":{"doubled":200000000,"label":"12","number":10,"outline":"POLYGON ((0 0, 10000 0, 10000 10000, 0 10000, 0 0))","source":8,"unit":9}}"#,
        ),
    ),
    Row("GET /rrrs/16?at=1010", ANNA, b"", Denied(12)),
    Row("GET /sources/8?at=1010", BANK, b"", Denied(3)),
];

const LODGED_TRANSFER: &[Row] = &[Row(
    "GET /mutations/18",
    NOTARY,
    b"",
    Shown(
        r#"{"object":{"act":"transfer","content":{"receiver":7,"right":11,"share":"1/4","unit":9},"lodged":1012,"lodger":5,"number":18,"reference":"T1","source":17,"state":"lodged"}}"#,
    ),
)];

const TRANSFERRED: &[Row] = &[
    Row(
        "GET /rrrs/12",
        NOTARY,
        b"",
        Shown(
            r#"{"object":{"class":"ownership","number":12,"party":7,"share":"1/1","source":17,"unit":9}}"#,
        ),
    ),
    Row("GET /rrrs/11", NOTARY, b"", Denied(27)),
];

/// Anna was a holder until 1015.
const FORMER_HOLDER: &[Row] = &[
    Row("GET /units/9?at=1014", ANNA, b"", GARDEN),
    Row("GET /units/9?at=1015", ANNA, b"", Denied(11)),
    Row("GET /units/9", ANNA, b"", Denied(11)),
    Row("GET /units/9?at=1016", ANNA, b"", Fault(135)),
    Row("GET /units/9?at=1014", BANK, b"", Denied(3)),
    Row("GET /units/9", BANK, b"", GARDEN),
];

const SUBDIVIDED: &[Row] = &[
    Row("GET /units", OFFICE, b"", Shown(r#"{"numbers":[9,25]}"#)),
    Row("GET /parcels", OFFICE, b"", Shown(r#"{"numbers":[24,26]}"#)),
    Row(
        "GET /rrrs",
        OFFICE,
        b"",
        Shown(r#"{"numbers":[13,16,21,27,28,29]}"#),
    ),
    Row(
        "GET /sources",
        OFFICE,
        b"",
        Shown(r#"{"numbers":[8,14,17,19,22]}"#),
    ),
    Row(
        "GET /mutations",
        OFFICE,
        b"",
        Shown(r#"{"numbers":[15,18,20,23]}"#),
    ),
    Row("GET /parcels/10", OFFICE, b"", Denied(27)),
    Row(
        "GET /parcels/26",
        OFFICE,
        b"",
        Shown(
            r#"{"object":{"doubled":100000000,"label":"12b","number":26,"outline":"POLYGON ((5000 0, 10000 0, 10000 10000, 5000 10000, 5000 0))","source":22,"unit":25}}"#,
        ),
    ),
    Row(
        "GET /units/25",
        BEN,
        b"",
        Shown(r#"{"object":{"checked":true,"name":"Orchard","number":25}}"#),
    ),
    Row(
        "GET /rrrs/27",
        BEN,
        b"",
        Shown(
            r#"{"object":{"class":"lease","number":27,"party":6,"share":"1/1","source":8,"unit":25}}"#,
        ),
    ),
    Row(
        "GET /rrrs/28",
        BEN,
        b"",
        Shown(
            r#"{"object":{"amount":2500000,"class":"mortgage","currency":"EUR","number":28,"party":4,"rank":1,"source":14,"unit":25}}"#,
        ),
    ),
    Row(
        "GET /rrrs/29",
        BEN,
        b"",
        Shown(
            r#"{"object":{"class":"ownership","number":29,"party":3,"share":"1/1","source":19,"unit":25}}"#,
        ),
    ),
    Row(
        "GET /sources/22",
        OFFICE,
        b"",
        Shown(r#"{"object":{"kind":"spatial","number":22,"title":"Plan 1"}}"#),
    ),
    Row(
        "GET /mutations/23",
        SURVEYOR,
        b"",
        Shown(
            r#"{"object":{"act":"subdivision","content":{"first":{"label":"12a","outline":"POLYGON ((0 0, 5000 0, 5000 10000, 0 10000, 0 0))"},"parcel":10,"rest":[{"label":"12b","outline":"POLYGON ((5000 0, 10000 0, 10000 10000, 5000 10000, 5000 0))","unit":"Orchard"}],"unit":9},"lodged":1016,"lodger":6,"number":23,"reference":"S1","source":22,"state":"approved"}}"#,
        ),
    ),
];

/// Title sheets: Ben sees all entries, Sam no mortgage; at 1009 Ben was a holder only by the group.
const SHEETS: &[Row] = &[
    Row(
        "GET /units/9/sheet",
        BEN,
        b"",
        Sheet(
            "TITLE SHEET\nUnit 9 Garden\nAt 1970-01-01T00:00:01.017Z\nShares checked\nArea 50.0000000\nParcels 1\n        24            50.0000000  12a\nEntries 3\n        13  lease                    6 Sam: 1/1\n        16  mortgage                 4 Bank, \"North\": rank 1 EUR 2500000\n        21  ownership                3 Ben: 1/1\nEND\n",
        ),
    ),
    Row(
        "GET /units/9/sheet",
        SAM,
        b"",
        Sheet(
            "TITLE SHEET\nUnit 9 Garden\nAt 1970-01-01T00:00:01.017Z\nShares checked\nArea 50.0000000\nParcels 1\n        24            50.0000000  12a\nEntries 2\n        13  lease                    6 Sam: 1/1\n        21  ownership                3 Ben: 1/1\nEND\n",
        ),
    ),
    Row(
        "GET /units/9/sheet?at=1009",
        BEN,
        b"",
        Sheet(
            "TITLE SHEET\nUnit 9 Garden\nAt 1970-01-01T00:00:01.009Z\nShares checked\nArea 100.0000000\nParcels 1\n        10           100.0000000  12\nEntries 3\n        11  ownership                2 Anna: 1/4\n        12  ownership                7 Anna and Ben: 3/4\n        13  lease                    6 Sam: 1/1\nEND\n",
        ),
    ),
    Row("GET /units/9/sheet?at=1008", BEN, b"", Denied(11)),
    Row("GET /units/9/sheet?at=1018", BEN, b"", Fault(135)),
    Row("GET /units/9/sheet", ANNA, b"", Denied(11)),
    Row("GET /units/9/sheet", SURVEYOR, b"", Denied(23)),
    Row("HEAD /units/9/sheet", BEN, b"", HeadFault(13)),
];

/// Requests in addition to the first twelve steps, by the number of steps before them.
pub const FIRST_LOOKS: &[Story] = &[
    Story("somebody unknown", 0, &[], NOBODY),
    Story("the first citizen", 1, &[], FIRST_CITIZEN),
    Story("shares of a group", 3, &[], THIRDS),
    Story("roles", 4, &[], ROLES),
    Story("a group", 9, &[], GROUP),
    Story("a unit", 10, &[], REGISTERED),
    Story("a lodging repeated", 11, &[], REPEATED),
    Story("a lodged mortgage", 11, &[], LODGED_MORTGAGE),
    Story("an approved lodging repeated", 12, &[], REPEATED),
    Story("sight", 12, &[], SIGHT),
    Story("a stranger's sight", 12, &[], NORAS_SIGHT),
    Story("the past", 12, &[], PAST),
];

/// Requests from the thirteenth step on.
pub const LAST_LOOKS: &[Story] = &[
    Story("a lodged transfer", 13, &[], LODGED_TRANSFER),
    Story("a transfer", 14, &[], TRANSFERRED),
    Story("a former holder", 16, &[], FORMER_HOLDER),
    Story("a subdivision", 18, &[], SUBDIVIDED),
    Story("title sheets", 18, &[], SHEETS),
];
