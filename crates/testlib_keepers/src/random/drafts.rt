//! Drafts of requests. A mark in a draft is replaced before it is sent (`drawn.rt`):
//!
//! - `@`, `&`: a party, and another
//! - `#`: a unit
//! - `$`, `~`: an entry, and its unit
//! - `%`: a mutation
//! - `!`, `^`: a parcel, and its unit
//! - `+`, `'`: the parcel after it, and its unit
//! - `«`, `<`, `»`: the left edge, the middle and the right edge of the parcel
//! - `>`: the right edge of the parcel after it
//! - `*`: 2, or rarely 3
//! - `;`: a number, usually a new one
//! - `|`: a time in the past
//! - `_`: the word of a role
use testlib_scenario::talk::{BANK, NOTARY, OFFICE, SAM, SURVEYOR};

/// A party in any role, a party as a citizen, and Ben as a conveyancer.
pub const ANYBODY: &str = "Register-Party: @\r\nRegister-Role: _\r\n";

const CITIZEN: &str = "Register-Party: @\r\nRegister-Role: citizen\r\n";

const CONVEYANCER: &str = "Register-Party: 3\r\nRegister-Role: conveyancer\r\n";

/// A draft: the throw below which it is chosen, if none before it is; its request line without the version,
/// the fields of its caller, and its body.
pub struct Draft(
    pub u32,
    pub &'static str,
    pub &'static str,
    pub &'static str,
);

/// The number of throws.
pub const THROWS: u32 = 53;

/// The drafts.
pub const DRAFTS: &[Draft] = &[
    Draft(
        2,
        "POST /acts/enrol",
        OFFICE,
        r#"{"kind":"naturalPerson","name":"Party ;"}"#,
    ),
    Draft(
        3,
        "POST /acts/group",
        OFFICE,
        r#"{"name":"Group ;","members":[{"party":@,"share":"1/2"},{"party":&,"share":"1/*"}]}"#,
    ),
    Draft(
        4,
        "POST /acts/regroup",
        OFFICE,
        r#"{"group":7,"members":[{"party":@,"share":"1/2"},{"party":&,"share":"1/*"}]}"#,
    ),
    Draft(6, "POST /acts/grant", OFFICE, r#"{"party":@,"role":"_"}"#),
    Draft(
        7,
        "POST /acts/grant",
        OFFICE,
        r#"{"party":3,"role":"conveyancer"}"#,
    ),
    Draft(8, "POST /acts/revoke", OFFICE, r#"{"party":&,"role":"_"}"#),
    Draft(
        11,
        "POST /acts/register",
        OFFICE,
        r#"{"name":"Unit ;","checked":true,"document":"Deed","parcels":[{"label":"a","outline":"POLYGON ((0 0, 1024 0, 1024 10000, 0 10000, 0 0))"}],"rights":[{"party":@,"type":"ownership","share":"1/2"},{"party":&,"type":"ownership","share":"1/*"},{"party":7,"type":"lease","share":"1/1"}]}"#,
    ),
    Draft(
        12,
        "POST /acts/register",
        OFFICE,
        r#"{"name":"Unit ;","checked":false,"document":"Deed","parcels":[{"label":"a","outline":"POLYGON ((0 0, 1024 0, 1024 10000, 0 10000, 0 0))"}],"rights":[{"party":@,"type":"ownership","share":"1/*"},{"party":&,"type":"usufruct","share":"1/*"}]}"#,
    ),
    Draft(
        13,
        "POST /acts/burden",
        OFFICE,
        r#"{"unit":#,"party":@,"class":"restriction","words":"No well","document":"Order ;"}"#,
    ),
    Draft(15, "POST /acts/lift", OFFICE, r#"{"rrr":$}"#),
    Draft(22, "POST /acts/approve", OFFICE, r#"{"mutation":%}"#),
    Draft(23, "POST /acts/refuse", OFFICE, r#"{"mutation":%}"#),
    Draft(
        25,
        "POST /acts/transfer",
        NOTARY,
        r#"{"reference":"R;","document":"Deed","unit":~,"right":$,"receiver":@,"share":"1/*"}"#,
    ),
    Draft(
        28,
        "POST /acts/transfer",
        CONVEYANCER,
        r#"{"reference":"R;","document":"Deed","unit":~,"right":$,"receiver":@,"share":"1/*"}"#,
    ),
    Draft(
        31,
        "POST /acts/mortgage",
        BANK,
        r#"{"reference":"R;","document":"Loan","unit":#,"creditor":4,"amount":;,"currency":"EUR"}"#,
    ),
    Draft(
        33,
        "POST /acts/discharge",
        BANK,
        r#"{"reference":"R;","document":"Letter","unit":~,"mortgage":$}"#,
    ),
    Draft(
        35,
        "POST /acts/subdivision",
        SURVEYOR,
        r#"{"reference":"R;","document":"Plan","unit":^,"parcel":!,"first":{"label":"b","outline":"POLYGON ((« 0, < 0, < 10000, « 10000, « 0))"},"rest":[{"label":"c","outline":"POLYGON ((< 0, » 0, » 10000, < 10000, < 0))","unit":"Part ;"}]}"#,
    ),
    Draft(
        36,
        "POST /acts/subdivision",
        SURVEYOR,
        r#"{"reference":"R;","document":"Plan","unit":^,"parcel":!,"first":{"label":"b","outline":"POLYGON ((« 0, < 0, < 10000, « 10000, « 0))"},"rest":[{"label":"c","outline":"POLYGON ((< 0, » 0, » 10000, < 10000, < 0))"}]}"#,
    ),
    Draft(
        37,
        "POST /acts/merger",
        SURVEYOR,
        r#"{"reference":"R;","document":"Plan","unit":^,"others":[],"parcels":[!,+],"label":"d","outline":"POLYGON ((« 0, > 0, > 10000, « 10000, « 0))"}"#,
    ),
    Draft(
        39,
        "POST /acts/merger",
        SURVEYOR,
        r#"{"reference":"R;","document":"Plan","unit":^,"others":['],"parcels":[!,+],"label":"d","outline":"POLYGON ((« 0, > 0, > 10000, « 10000, « 0))"}"#,
    ),
    Draft(41, "GET /units/#/sheet", CITIZEN, ""),
    Draft(42, "GET /units/~/sheet?at=|", CITIZEN, ""),
    Draft(43, "GET /rrrs/$?at=|", CITIZEN, ""),
    Draft(44, "GET /parties/&", CITIZEN, ""),
    Draft(45, "GET /units?at=|", CITIZEN, ""),
    Draft(46, "GET /units/~", CONVEYANCER, ""),
    Draft(47, "GET /rrrs/$", BANK, ""),
    Draft(48, "GET /units/#/sheet?at=|", NOTARY, ""),
    Draft(49, "GET /sources/;", NOTARY, ""),
    Draft(50, "GET /mutations/%", ANYBODY, ""),
    Draft(51, "POST /acts/mandate", CITIZEN, r#"{"agent":&}"#),
    Draft(52, "POST /acts/mandate", SAM, r#"{"agent":*}"#),
    Draft(
        53,
        "POST /acts/withdraw",
        SAM,
        r#"{"principal":6,"agent":*}"#,
    ),
];
