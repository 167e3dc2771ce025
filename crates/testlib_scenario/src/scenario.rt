//! The scenario: eighteen steps from a new register to a garden of which a part has become an orchard.
use crate::talk::ExpectedReply::Shown;
use crate::talk::{BANK, NOTARY, OFFICE, Row, SURVEYOR};

/// The bank's mortgage on the garden.
pub const MORTGAGE: &[u8] =
    br#"{"reference":"M1","document":"Loan 1","unit":9,"creditor":4,"amount":2500000,"currency":"EUR"}"#;

/// The transfer of Anna's quarter to the group.
pub const QUARTER: &[u8] =
    br#"{"reference":"T1","document":"Deed 2","unit":9,"right":11,"receiver":7,"share":"1/4"}"#;

/// The steps. Party 2 is Anna, 3 Ben, 4 the bank, 5 Nora, a notary, 6 Sam, a surveyor, and 7 Anna and Ben as
/// a group. Unit 9 is the garden, parcel 10 its ground. Anna has a quarter by right 11, the group three by
/// right 12, Sam the lease 13.
pub const STEPS: &[Row] = &[
    Row(
        "POST /acts/enrol",
        OFFICE,
        br#"{"kind":"naturalPerson","name":"Anna"}"#,
        Shown(r#"{"made":[2],"number":2,"stamp":1000}"#),
    ),
    Row(
        "POST /acts/enrol",
        OFFICE,
        br#"{"kind":"naturalPerson","name":"Ben"}"#,
        Shown(r#"{"made":[3],"number":3,"stamp":1001}"#),
    ),
    Row(
        "POST /acts/enrol",
        OFFICE,
        br#"{"kind":"nonNaturalPerson","name":"Bank, \"North\""}"#,
        Shown(r#"{"made":[4],"number":4,"stamp":1002}"#),
    ),
    Row(
        "POST /acts/grant",
        OFFICE,
        br#"{"party":4,"role":"bank"}"#,
        Shown(r#"{"made":[],"number":4,"stamp":1003}"#),
    ),
    Row(
        "POST /acts/enrol",
        OFFICE,
        br#"{"kind":"naturalPerson","name":"Nora"}"#,
        Shown(r#"{"made":[5],"number":5,"stamp":1004}"#),
    ),
    Row(
        "POST /acts/grant",
        OFFICE,
        br#"{"party":5,"role":"notary"}"#,
        Shown(r#"{"made":[],"number":5,"stamp":1005}"#),
    ),
    Row(
        "POST /acts/enrol",
        OFFICE,
        br#"{"kind":"naturalPerson","name":"Sam"}"#,
        Shown(r#"{"made":[6],"number":6,"stamp":1006}"#),
    ),
    Row(
        "POST /acts/grant",
        OFFICE,
        br#"{"party":6,"role":"certifiedSurveyor"}"#,
        Shown(r#"{"made":[],"number":6,"stamp":1007}"#),
    ),
    Row(
        "POST /acts/group",
        OFFICE,
        br#"{"name":"Anna and Ben","members":[{"party":2,"share":"1/3"},{"party":3,"share":"2/3"}]}"#,
        Shown(r#"{"made":[7],"number":7,"stamp":1008}"#),
    ),
    Row(
        "POST /acts/register",
        OFFICE,
        br#"{"name":"Garden","checked":true,"document":"Deed 1","parcels":[{"label":"12","outline":"POLYGON ((0 0, 10000 0, 10000 10000, 0 10000, 0 0))"}],"rights":[{"party":2,"type":"ownership","share":"1/4"},{"party":7,"type":"ownership","share":"3/4"},{"party":6,"type":"lease","share":"1/1"}]}"#,
        Shown(r#"{"made":[8,9,10,11,12,13],"number":9,"stamp":1009}"#),
    ),
    Row(
        "POST /acts/mortgage",
        BANK,
        MORTGAGE,
        Shown(r#"{"made":[14,15],"number":15,"stamp":1010}"#),
    ),
    Row(
        "POST /acts/approve",
        OFFICE,
        br#"{"mutation":15}"#,
        Shown(r#"{"made":[16],"number":15,"stamp":1011}"#),
    ),
    Row(
        "POST /acts/transfer",
        NOTARY,
        QUARTER,
        Shown(r#"{"made":[17,18],"number":18,"stamp":1012}"#),
    ),
    Row(
        "POST /acts/approve",
        OFFICE,
        br#"{"mutation":18}"#,
        Shown(r#"{"made":[],"number":18,"stamp":1013}"#),
    ),
    Row(
        "POST /acts/transfer",
        NOTARY,
        br#"{"reference":"T2","document":"Deed 3","unit":9,"right":12,"receiver":3,"share":"1/1"}"#,
        Shown(r#"{"made":[19,20],"number":20,"stamp":1014}"#),
    ),
    Row(
        "POST /acts/approve",
        OFFICE,
        br#"{"mutation":20}"#,
        Shown(r#"{"made":[21],"number":20,"stamp":1015}"#),
    ),
    Row(
        "POST /acts/subdivision",
        SURVEYOR,
        br#"{"reference":"S1","document":"Plan 1","unit":9,"parcel":10,"first":{"label":"12a","outline":"POLYGON ((0 0, 5000 0, 5000 10000, 0 10000, 0 0))"},"rest":[{"label":"12b","outline":"POLYGON ((5000 0, 10000 0, 10000 10000, 5000 10000, 5000 0))","unit":"Orchard"}]}"#,
        Shown(r#"{"made":[22,23],"number":23,"stamp":1016}"#),
    ),
    Row(
        "POST /acts/approve",
        OFFICE,
        br#"{"mutation":23}"#,
        Shown(r#"{"made":[24,25,26,27,28,29],"number":23,"stamp":1017}"#),
    ),
];

/// More steps after these: the orchard is merged into the garden, which is burdened for a while. The group
/// gets another member, and Nora loses the role of a notary. The bank lodges a discharge of its mortgage,
/// which is refused, and another.
pub const MORE: &[Row] = &[
    Row(
        "POST /acts/merger",
        SURVEYOR,
        br#"{"reference":"G1","document":"Plan 2","unit":9,"others":[25],"parcels":[24,26],"label":"12","outline":"POLYGON ((0 0, 10000 0, 10000 10000, 0 10000, 0 0))"}"#,
        Shown(r#"{"made":[30,31],"number":31,"stamp":1018}"#),
    ),
    Row(
        "POST /acts/approve",
        OFFICE,
        br#"{"mutation":31}"#,
        Shown(r#"{"made":[32],"number":31,"stamp":1019}"#),
    ),
    Row(
        "POST /acts/burden",
        OFFICE,
        br#"{"unit":9,"party":1,"class":"restriction","words":"No well","document":"Order"}"#,
        Shown(r#"{"made":[33,34],"number":34,"stamp":1020}"#),
    ),
    Row(
        "POST /acts/lift",
        OFFICE,
        br#"{"rrr":34}"#,
        Shown(r#"{"made":[],"number":34,"stamp":1021}"#),
    ),
    Row(
        "POST /acts/regroup",
        OFFICE,
        br#"{"group":7,"members":[{"party":2,"share":"1/2"},{"party":6,"share":"1/2"}]}"#,
        Shown(r#"{"made":[],"number":7,"stamp":1022}"#),
    ),
    Row(
        "POST /acts/revoke",
        OFFICE,
        br#"{"party":5,"role":"notary"}"#,
        Shown(r#"{"made":[],"number":5,"stamp":1023}"#),
    ),
    Row(
        "POST /acts/discharge",
        BANK,
        br#"{"reference":"D1","document":"Letter","unit":9,"mortgage":16}"#,
        Shown(r#"{"made":[35,36],"number":36,"stamp":1024}"#),
    ),
    Row(
        "POST /acts/refuse",
        OFFICE,
        br#"{"mutation":36}"#,
        Shown(r#"{"made":[],"number":36,"stamp":1025}"#),
    ),
    Row(
        "POST /acts/discharge",
        BANK,
        br#"{"reference":"D2","document":"Letter","unit":9,"mortgage":16}"#,
        Shown(r#"{"made":[37,38],"number":38,"stamp":1026}"#),
    ),
    Row(
        "POST /acts/approve",
        OFFICE,
        br#"{"mutation":38}"#,
        Shown(r#"{"made":[],"number":38,"stamp":1027}"#),
    ),
];
