//! Alternatives of the scenario after some of its steps.
use crate::keepers::story::Story;
use land_core::limits::LAST_MOMENT;
use testlib_scenario::scenario::QUARTER;
use testlib_scenario::talk::ExpectedReply::{self, Denied, Fault, Refused, Sheet, Shown};
use testlib_scenario::talk::{ANNA, BANK, BEN, ENROL, NORA, NOTARY, OFFICE, Row, SAM, SURVEYOR};

/// A clock reading after the last moment.
const AFTER_LAST_MOMENT: i64 = LAST_MOMENT + 1;

const GARDEN: ExpectedReply = Shown(r#"{"object":{"checked":true,"name":"Garden","number":9}}"#);

/// The clock goes backwards, is after the last moment, and is at it.
const STAMPS: &[Row] = &[
    Row(
        "POST /acts/enrol",
        OFFICE,
        ENROL,
        Shown(r#"{"made":[2],"number":2,"stamp":5000}"#),
    ),
    Row(
        "POST /acts/enrol",
        OFFICE,
        ENROL,
        Shown(r#"{"made":[3],"number":3,"stamp":5001}"#),
    ),
    Row("GET /parties?at=5002", OFFICE, b"", Fault(135)),
    Row("POST /acts/enrol", OFFICE, ENROL, Refused(217)),
    Row(
        "POST /acts/enrol",
        OFFICE,
        ENROL,
        Shown(r#"{"made":[4],"number":4,"stamp":4102444799999}"#),
    ),
    Row("POST /acts/enrol", OFFICE, ENROL, Refused(217)),
];

/// A clock below 0 counts as 0.
const BEFORE_1970: &[Row] = &[
    Row("GET /parties?at=1", OFFICE, b"", Fault(135)),
    Row(
        "GET /parties?at=0",
        OFFICE,
        b"",
        Shown(r#"{"numbers":[1]}"#),
    ),
    Row(
        "POST /acts/enrol",
        OFFICE,
        ENROL,
        Shown(r#"{"made":[2],"number":2,"stamp":1}"#),
    ),
];

/// Three parcels with other spellings, one of half a square millimetre, and a share that is reduced.
const OUTLINES: &[Row] = &[
    Row(
        "POST /acts/register",
        OFFICE,
        br#"{"name":"Strips","checked":false,"document":"Deed","parcels":[{"label":"a","outline":"polygon((0.0 0, 10000 0,10000 10000, 0 10000, 0 0))"},{"label":"b","outline":"POLYGON ((0 0, 1 0, 0 1, 0 0))"},{"label":"c","outline":"POLYGON ((0 0, 0 10, 10 10, 10 0, 0 0))"}],"rights":[{"party":2,"type":"ownership","share":"2/2000000000"}]}"#,
        Shown(r#"{"made":[3,4,5,6,7,8],"number":4,"stamp":1001}"#),
    ),
    Row(
        "GET /parcels/5",
        OFFICE,
        b"",
        Shown(
            r#"{"object":{"doubled":200000000,"label":"a","number":5,"outline":"POLYGON ((0 0, 10000 0, 10000 10000, 0 10000, 0 0))","source":3,"unit":4}}"#,
        ),
    ),
    Row(
        "GET /parcels/6",
        OFFICE,
        b"",
        Shown(
            r#"{"object":{"doubled":1,"label":"b","number":6,"outline":"POLYGON ((0 0, 1 0, 0 1, 0 0))","source":3,"unit":4}}"#,
        ),
    ),
    Row(
        "GET /parcels/7",
        OFFICE,
        b"",
        Shown(
            r#"{"object":{"doubled":200,"label":"c","number":7,"outline":"POLYGON ((0 0, 10 0, 10 10, 0 10, 0 0))","source":3,"unit":4}}"#,
        ),
    ),
    Row(
        "GET /units/4/sheet",
        OFFICE,
        b"",
        Sheet(
            "TITLE SHEET\nUnit 4 Strips\nAt 1970-01-01T00:00:01.001Z\nShares unchecked\nArea 100.0001005\nParcels 3\n         5           100.0000000  a\n         6             0.0000005  b\n         7             0.0001000  c\nEntries 1\n         8  ownership                2 Anna: 1/1000000000\nEND\n",
        ),
    ),
];

/// Entries of the other kinds, and a mortgage of the greatest amount.
const ENTRIES: &[Row] = &[
    Row(
        "POST /acts/register",
        OFFICE,
        br#"{"name":"Field","checked":false,"document":"Deed","parcels":[{"label":"1","outline":"POLYGON ((0 0, 1 0, 0 1, 0 0))"}],"rights":[{"party":2,"type":"ownership","share":"1/1"},{"party":3,"type":"usufruct","share":"1/2"}]}"#,
        Shown(r#"{"made":[5,6,7,8,9],"number":6,"stamp":1004}"#),
    ),
    Row(
        "POST /acts/burden",
        OFFICE,
        br#"{"unit":6,"party":3,"class":"responsibility","words":"Clear the snow","document":"Order"}"#,
        Shown(r#"{"made":[10,11],"number":11,"stamp":1005}"#),
    ),
    Row(
        "POST /acts/mortgage",
        BANK,
        br#"{"reference":"M1","document":"Loan 1","unit":6,"creditor":4,"amount":1000000000000000,"currency":"EUR"}"#,
        Shown(r#"{"made":[12,13],"number":13,"stamp":1006}"#),
    ),
    Row(
        "POST /acts/approve",
        OFFICE,
        br#"{"mutation":13}"#,
        Shown(r#"{"made":[14],"number":13,"stamp":1007}"#),
    ),
    Row(
        "GET /sources/5",
        OFFICE,
        b"",
        Shown(r#"{"object":{"kind":"administrative","number":5,"title":"Deed"}}"#),
    ),
    Row(
        "GET /rrrs/9",
        OFFICE,
        b"",
        Shown(
            r#"{"object":{"class":"usufruct","number":9,"party":3,"share":"1/2","source":5,"unit":6}}"#,
        ),
    ),
    Row(
        "GET /rrrs/11",
        OFFICE,
        b"",
        Shown(
            r#"{"object":{"class":"responsibility","number":11,"party":3,"source":10,"unit":6,"words":"Clear the snow"}}"#,
        ),
    ),
    Row(
        "GET /rrrs/14",
        OFFICE,
        b"",
        Shown(
            r#"{"object":{"amount":1000000000000000,"class":"mortgage","currency":"EUR","number":14,"party":4,"rank":1,"source":12,"unit":6}}"#,
        ),
    ),
    Row(
        "GET /mutations/13",
        BANK,
        b"",
        Shown(
            r#"{"object":{"act":"mortgage","content":{"amount":1000000000000000,"creditor":4,"currency":"EUR","unit":6},"lodged":1006,"lodger":4,"number":13,"reference":"M1","source":12,"state":"approved"}}"#,
        ),
    ),
    Row(
        "GET /units/6/sheet",
        OFFICE,
        b"",
        Sheet(
            "TITLE SHEET\nUnit 6 Field\nAt 1970-01-01T00:00:01.007Z\nShares unchecked\nArea 0.0000005\nParcels 1\n         7             0.0000005  1\nEntries 4\n         8  ownership                2 Anna: 1/1\n         9  usufruct                 3 Ben: 1/2\n        11  responsibility           3 Ben: Clear the snow\n        14  mortgage                 4 Bank, \"North\": rank 1 EUR 1000000000000000\nEND\n",
        ),
    ),
    Row("GET /units", BEN, b"", Shown(r#"{"numbers":[6]}"#)),
    Row("GET /rrrs", BEN, b"", Shown(r#"{"numbers":[8,9,11]}"#)),
    Row("GET /rrrs/14", BEN, b"", Denied(12)),
    Row("GET /parties", BEN, b"", Shown(r#"{"numbers":[2,3]}"#)),
    Row(
        "GET /units/6/sheet",
        BEN,
        b"",
        Sheet(
            "TITLE SHEET\nUnit 6 Field\nAt 1970-01-01T00:00:01.007Z\nShares unchecked\nArea 0.0000005\nParcels 1\n         7             0.0000005  1\nEntries 3\n         8  ownership                2 Anna: 1/1\n         9  usufruct                 3 Ben: 1/2\n        11  responsibility           3 Ben: Clear the snow\nEND\n",
        ),
    ),
];

/// Mutations that refer to missing objects are lodged anyway, and shown with their outlines as printed.
const LODGINGS: &[Row] = &[
    Row(
        "POST /acts/subdivision",
        SURVEYOR,
        br#"{"reference":"S1","document":"Plan 1","unit":9,"parcel":10,"first":{"label":"12a","outline":"POLYGON ((0 0, 5 0, 5 9, 0 9, 0 0))"},"rest":[{"label":"12b","outline":"POLYGON ((5 0, 9 0, 9 9, 5 9, 5 0))","unit":"Orchard"},{"label":"12c","outline":"polygon((9 0,9 +9.0,12 9,012 -0,9 0))"}]}"#,
        Shown(r#"{"made":[7,8],"number":8,"stamp":1008}"#),
    ),
    Row(
        "GET /mutations/8",
        SURVEYOR,
        b"",
        Shown(
            r#"{"object":{"act":"subdivision","content":{"first":{"label":"12a","outline":"POLYGON ((0 0, 5 0, 5 9, 0 9, 0 0))"},"parcel":10,"rest":[{"label":"12b","outline":"POLYGON ((5 0, 9 0, 9 9, 5 9, 5 0))","unit":"Orchard"},{"label":"12c","outline":"POLYGON ((9 0, 12 0, 12 9, 9 9, 9 0))"}],"unit":9},"lodged":1008,"lodger":6,"number":8,"reference":"S1","source":7,"state":"lodged"}}"#,
        ),
    ),
    Row(
        "POST /acts/merger",
        SURVEYOR,
        br#"{"reference":"S2","document":"Plan 2","unit":9,"others":[25],"parcels":[24,26],"label":"12","outline":"POLYGON ((-3 0, 12 0, 12 9, -3 9, -3 0))"}"#,
        Shown(r#"{"made":[9,10],"number":10,"stamp":1009}"#),
    ),
    Row(
        "GET /mutations/10",
        SURVEYOR,
        b"",
        Shown(
            r#"{"object":{"act":"merger","content":{"label":"12","others":[25],"outline":"POLYGON ((-3 0, 12 0, 12 9, -3 9, -3 0))","parcels":[24,26],"unit":9},"lodged":1009,"lodger":6,"number":10,"reference":"S2","source":9,"state":"lodged"}}"#,
        ),
    ),
    Row(
        "POST /acts/discharge",
        NOTARY,
        DISCHARGE,
        Shown(r#"{"made":[11,12],"number":12,"stamp":1010}"#),
    ),
    Row(
        "POST /acts/refuse",
        OFFICE,
        br#"{"mutation":12}"#,
        Shown(r#"{"made":[],"number":12,"stamp":1011}"#),
    ),
    Row(
        "GET /mutations/12",
        NOTARY,
        b"",
        Shown(
            r#"{"object":{"act":"discharge","content":{"mortgage":16,"unit":9},"lodged":1010,"lodger":5,"number":12,"reference":"D1","source":11,"state":"refused"}}"#,
        ),
    ),
];

const THREE: &[Row] = &[
    Row(
        "POST /acts/group",
        OFFICE,
        br#"{"name":"Three","members":[{"party":2,"share":"1/3"},{"party":3,"share":"1/3"},{"party":4,"share":"1/3"}]}"#,
        Shown(r#"{"made":[5],"number":5,"stamp":1003}"#),
    ),
    Row(
        "POST /acts/grant",
        OFFICE,
        br#"{"party":4,"role":"bank"}"#,
        Shown(r#"{"made":[],"number":4,"stamp":1004}"#),
    ),
    Row("GET /parties", BEN, b"", Shown(r#"{"numbers":[3,5]}"#)),
    Row("GET /parties", BANK, b"", Shown(r#"{"numbers":[4]}"#)),
    Row("GET /parties/5", BANK, b"", Denied(17)),
];

const GROUPS_AND_ROLES: &[Row] = &[
    Row(
        "POST /acts/revoke",
        OFFICE,
        br#"{"party":5,"role":"notary"}"#,
        Shown(r#"{"made":[],"number":5,"stamp":1009}"#),
    ),
    Row("GET /parties", NOTARY, b"", Denied(2)),
    Row(
        "POST /acts/regroup",
        OFFICE,
        br#"{"group":7,"members":[{"party":2,"share":"1/2"},{"party":3,"share":"1/3"}]}"#,
        Refused(213),
    ),
    Row(
        "POST /acts/regroup",
        OFFICE,
        br#"{"group":7,"members":[{"party":2,"share":"1/2"},{"party":3,"share":"1/2"}]}"#,
        Shown(r#"{"made":[],"number":7,"stamp":1010}"#),
    ),
    Row(
        "POST /acts/revoke",
        OFFICE,
        br#"{"party":1,"role":"stateAdministrator"}"#,
        Refused(218),
    ),
];

/// Sam replaces Ben in the group, and sees from then on what the group holds.
const REGROUPED: &[Row] = &[
    Row(
        "POST /acts/regroup",
        OFFICE,
        br#"{"group":7,"members":[{"party":2,"share":"1/2"},{"party":6,"share":"1/2"}]}"#,
        Shown(r#"{"made":[],"number":7,"stamp":1012}"#),
    ),
    Row("GET /units", BEN, b"", Shown(r#"{"numbers":[]}"#)),
    Row("GET /units?at=1011", BEN, b"", Shown(r#"{"numbers":[9]}"#)),
    Row("GET /units", SAM, b"", Shown(r#"{"numbers":[9]}"#)),
    Row("GET /units?at=1011", SAM, b"", Shown(r#"{"numbers":[9]}"#)),
    Row("GET /rrrs", SAM, b"", Shown(r#"{"numbers":[11,12,13,16]}"#)),
    Row(
        "GET /rrrs?at=1011",
        SAM,
        b"",
        Shown(r#"{"numbers":[11,12,13]}"#),
    ),
    Row("GET /parties", ANNA, b"", Shown(r#"{"numbers":[2,4,6,7]}"#)),
    Row(
        "GET /parties?at=1011",
        ANNA,
        b"",
        Shown(r#"{"numbers":[2,4,6,7]}"#),
    ),
];

const NO_WELL: ExpectedReply = Shown(
    r#"{"object":{"class":"restriction","number":15,"party":1,"source":14,"unit":9,"words":"No well"}}"#,
);

const BURDEN: &[Row] = &[
    Row(
        "POST /acts/burden",
        OFFICE,
        br#"{"unit":9,"party":1,"class":"restriction","words":"No well","document":"Order"}"#,
        Shown(r#"{"made":[14,15],"number":15,"stamp":1010}"#),
    ),
    Row(
        "GET /units/9/sheet",
        ANNA,
        b"",
        Sheet(
            "TITLE SHEET\nUnit 9 Garden\nAt 1970-01-01T00:00:01.010Z\nShares checked\nArea 100.0000000\nParcels 1\n        10           100.0000000  12\nEntries 4\n        11  ownership                2 Anna: 1/4\n        12  ownership                7 Anna and Ben: 3/4\n        13  lease                    6 Sam: 1/1\n        15  restriction              1 Land Office: No well\nEND\n",
        ),
    ),
    Row("POST /acts/lift", OFFICE, br#"{"rrr":13}"#, Refused(204)),
    Row(
        "POST /acts/lift",
        OFFICE,
        br#"{"rrr":15}"#,
        Shown(r#"{"made":[],"number":15,"stamp":1011}"#),
    ),
    Row("GET /rrrs/15?at=1010", ANNA, b"", NO_WELL),
    Row("GET /rrrs/15?at=1011", ANNA, b"", Denied(12)),
    Row("GET /rrrs/15?at=1009", ANNA, b"", Denied(12)),
    Row("GET /rrrs/15?at=1010", NOTARY, b"", NO_WELL),
    Row("GET /rrrs/15?at=1011", NOTARY, b"", Denied(27)),
    Row("GET /units/9?at=1009", ANNA, b"", GARDEN),
    Row("GET /units/9?at=1008", ANNA, b"", Denied(11)),
    Row("GET /units/9?at=1010", BANK, b"", Denied(3)),
];

const PART_OF_A_RIGHT: &[Row] = &[
    Row(
        "POST /acts/transfer",
        NOTARY,
        br#"{"reference":"P1","document":"Deed","unit":9,"right":12,"receiver":2,"share":"1/4"}"#,
        Shown(r#"{"made":[17,18],"number":18,"stamp":1012}"#),
    ),
    Row(
        "POST /acts/approve",
        OFFICE,
        br#"{"mutation":18}"#,
        Shown(r#"{"made":[],"number":18,"stamp":1013}"#),
    ),
    Row(
        "GET /rrrs/11",
        OFFICE,
        b"",
        Shown(
            r#"{"object":{"class":"ownership","number":11,"party":2,"share":"1/2","source":17,"unit":9}}"#,
        ),
    ),
    Row(
        "GET /rrrs/12",
        OFFICE,
        b"",
        Shown(
            r#"{"object":{"class":"ownership","number":12,"party":7,"share":"1/2","source":17,"unit":9}}"#,
        ),
    ),
];

/// Ben as conveyancer.
const CONVEYANCER: &str = "Register-Party: 3\r\nRegister-Role: conveyancer\r\n";

const BECOMES_CONVEYANCER: Row = Row(
    "POST /acts/grant",
    OFFICE,
    br#"{"party":3,"role":"conveyancer"}"#,
    Shown(r#"{"made":[],"number":3,"stamp":1012}"#),
);

const CONVEYED: Row = Row(
    "POST /acts/transfer",
    CONVEYANCER,
    br#"{"reference":"C1","document":"Deed 2","unit":9,"right":11,"receiver":7,"share":"1/4"}"#,
    Shown(r#"{"made":[17,18],"number":18,"stamp":1013}"#),
);

const CONVEYANCE: &[Row] = &[
    BECOMES_CONVEYANCER,
    Row("GET /units/9", CONVEYANCER, b"", Denied(19)),
    CONVEYED,
    Row("GET /units/9", CONVEYANCER, b"", GARDEN),
    Row(
        "GET /rrrs",
        CONVEYANCER,
        b"",
        Shown(r#"{"numbers":[11,12,13,16]}"#),
    ),
    Row(
        "GET /parties",
        CONVEYANCER,
        b"",
        Shown(r#"{"numbers":[2,3,4,6,7]}"#),
    ),
    Row(
        "GET /rrrs/16",
        CONVEYANCER,
        b"",
        Shown(
            r#"{"object":{"amount":2500000,"class":"mortgage","currency":"EUR","number":16,"party":4,"rank":1,"source":14,"unit":9}}"#,
        ),
    ),
    Row(
        "GET /units/9/sheet",
        CONVEYANCER,
        b"",
        Sheet(
            "TITLE SHEET\nUnit 9 Garden\nAt 1970-01-01T00:00:01.013Z\nShares checked\nArea 100.0000000\nParcels 1\n        10           100.0000000  12\nEntries 4\n        11  ownership                2 Anna: 1/4\n        12  ownership                7 Anna and Ben: 3/4\n        13  lease                    6 Sam: 1/1\n        16  mortgage                 4 Bank, \"North\": rank 1 EUR 2500000\nEND\n",
        ),
    ),
    Row(
        "POST /acts/approve",
        OFFICE,
        br#"{"mutation":18}"#,
        Shown(r#"{"made":[],"number":18,"stamp":1014}"#),
    ),
    Row("GET /units/9", CONVEYANCER, b"", Denied(19)),
    Row("GET /rrrs/16", CONVEYANCER, b"", Denied(20)),
    Row("GET /units/9/sheet", CONVEYANCER, b"", Denied(19)),
    Row(
        "GET /mutations/18",
        CONVEYANCER,
        b"",
        Shown(
            r#"{"object":{"act":"transfer","content":{"receiver":7,"right":11,"share":"1/4","unit":9},"lodged":1013,"lodger":3,"number":18,"reference":"C1","source":17,"state":"approved"}}"#,
        ),
    ),
    Row(
        "POST /acts/transfer",
        CONVEYANCER,
        br#"{"reference":"C2","document":"Deed 3","unit":77,"right":11,"receiver":7,"share":"1/4"}"#,
        Shown(r#"{"made":[19,20],"number":20,"stamp":1015}"#),
    ),
    Row("GET /units/77", CONVEYANCER, b"", Denied(27)),
    Row("GET /units/78", CONVEYANCER, b"", Denied(19)),
];

const CONVEYANCE_REFUSED: &[Row] = &[
    BECOMES_CONVEYANCER,
    CONVEYED,
    Row(
        "POST /acts/refuse",
        OFFICE,
        br#"{"mutation":18}"#,
        Shown(r#"{"made":[],"number":18,"stamp":1014}"#),
    ),
    Row(
        "GET /mutations/18",
        CONVEYANCER,
        b"",
        Shown(
            r#"{"object":{"act":"transfer","content":{"receiver":7,"right":11,"share":"1/4","unit":9},"lodged":1013,"lodger":3,"number":18,"reference":"C1","source":17,"state":"refused"}}"#,
        ),
    ),
    Row(
        "POST /acts/approve",
        OFFICE,
        br#"{"mutation":18}"#,
        Refused(201),
    ),
    Row(
        "POST /acts/refuse",
        OFFICE,
        br#"{"mutation":18}"#,
        Refused(201),
    ),
];

const SHARE_TOO_LARGE: &[Row] = &[
    Row(
        "POST /acts/transfer",
        NOTARY,
        br#"{"reference":"T0","document":"Deed 2","unit":9,"right":11,"receiver":7,"share":"1/2"}"#,
        Shown(r#"{"made":[17,18],"number":18,"stamp":1012}"#),
    ),
    Row(
        "POST /acts/approve",
        OFFICE,
        br#"{"mutation":18}"#,
        Refused(206),
    ),
    Row(
        "GET /mutations/18",
        NOTARY,
        b"",
        Shown(
            r#"{"object":{"act":"transfer","content":{"receiver":7,"right":11,"share":"1/2","unit":9},"lodged":1012,"lodger":5,"number":18,"reference":"T0","source":17,"state":"lodged"}}"#,
        ),
    ),
];

const ROLE_ENDED: &[Row] = &[
    Row(
        "POST /acts/revoke",
        OFFICE,
        br#"{"party":5,"role":"notary"}"#,
        Shown(r#"{"made":[],"number":5,"stamp":1012}"#),
    ),
    Row("GET /units/9?at=1011", NOTARY, b"", Denied(2)),
];

/// The second bank.
const SOUTH: &str = "Register-Party: 17\r\nRegister-Role: bank\r\n";

const DISCHARGE: &[u8] = br#"{"reference":"D1","document":"Letter","unit":9,"mortgage":16}"#;

const TWO_BANKS: &[Row] = &[
    Row(
        "POST /acts/enrol",
        OFFICE,
        br#"{"kind":"nonNaturalPerson","name":"Bank South"}"#,
        Shown(r#"{"made":[17],"number":17,"stamp":1012}"#),
    ),
    Row(
        "POST /acts/grant",
        OFFICE,
        br#"{"party":17,"role":"bank"}"#,
        Shown(r#"{"made":[],"number":17,"stamp":1013}"#),
    ),
    Row(
        "POST /acts/mortgage",
        SOUTH,
        br#"{"reference":"M1","document":"Loan 1","unit":9,"creditor":17,"amount":2500000,"currency":"EUR"}"#,
        Shown(r#"{"made":[18,19],"number":19,"stamp":1014}"#),
    ),
    Row(
        "POST /acts/approve",
        OFFICE,
        br#"{"mutation":19}"#,
        Shown(r#"{"made":[20],"number":19,"stamp":1015}"#),
    ),
    Row(
        "GET /rrrs/20",
        SOUTH,
        b"",
        Shown(
            r#"{"object":{"amount":2500000,"class":"mortgage","currency":"EUR","number":20,"party":17,"rank":2,"source":18,"unit":9}}"#,
        ),
    ),
    Row(
        "GET /rrrs",
        BANK,
        b"",
        Shown(r#"{"numbers":[11,12,13,16]}"#),
    ),
    Row(
        "GET /rrrs",
        SOUTH,
        b"",
        Shown(r#"{"numbers":[11,12,13,20]}"#),
    ),
    Row("POST /acts/discharge", SOUTH, DISCHARGE, Denied(9)),
    Row(
        "POST /acts/discharge",
        BANK,
        DISCHARGE,
        Shown(r#"{"made":[21,22],"number":22,"stamp":1016}"#),
    ),
    Row(
        "POST /acts/discharge",
        NOTARY,
        DISCHARGE,
        Shown(r#"{"made":[23,24],"number":24,"stamp":1017}"#),
    ),
    Row(
        "POST /acts/approve",
        OFFICE,
        br#"{"mutation":22}"#,
        Shown(r#"{"made":[],"number":22,"stamp":1018}"#),
    ),
    Row(
        "POST /acts/approve",
        OFFICE,
        br#"{"mutation":24}"#,
        Refused(204),
    ),
];

const OWN_MUTATION: &[Row] = &[
    Row(
        "POST /acts/grant",
        OFFICE,
        br#"{"party":1,"role":"notary"}"#,
        Shown(r#"{"made":[],"number":1,"stamp":1012}"#),
    ),
    Row(
        "POST /acts/transfer",
        "Register-Party: 1\r\nRegister-Role: notary\r\n",
        QUARTER,
        Shown(r#"{"made":[17,18],"number":18,"stamp":1013}"#),
    ),
    Row(
        "POST /acts/approve",
        OFFICE,
        br#"{"mutation":18}"#,
        Denied(10),
    ),
];

/// Alternatives up to the first unit.
pub const EARLY: &[Story] = &[
    Story(
        "stamps",
        0,
        &[5000, 4000, 4000, AFTER_LAST_MOMENT, LAST_MOMENT, 1000],
        STAMPS,
    ),
    Story("before 1970", 0, &[-1, -5000, i64::MIN], BEFORE_1970),
    Story("outlines", 1, &[], OUTLINES),
    Story("lodgings", 8, &[], LODGINGS),
    Story("groups and roles", 9, &[], GROUPS_AND_ROLES),
    Story("a burden", 10, &[], BURDEN),
];

/// Alternatives on the visibility for holders and members.
pub const SHOWN: &[Story] = &[
    Story("a group of three", 3, &[], THREE),
    Story("entries", 4, &[], ENTRIES),
];

/// Alternatives with a mortgage on the garden: transfers.
pub const TRANSFERS: &[Story] = &[
    Story("a part of a right", 12, &[], PART_OF_A_RIGHT),
    Story("a conveyance", 12, &[], CONVEYANCE),
    Story("a conveyance that is refused", 12, &[], CONVEYANCE_REFUSED),
    Story("a share that is too large", 12, &[], SHARE_TOO_LARGE),
];

/// Alternatives with a mortgage on the garden: roles and banks.
pub const ROLES: &[Story] = &[
    Story("a role that ended", 12, &[], ROLE_ENDED),
    Story("another member", 12, &[], REGROUPED),
    Story("two banks", 12, &[], TWO_BANKS),
    Story("one's own mutation", 12, &[], OWN_MUTATION),
];
