//! Mandates after the first twelve steps of the scenario, with the expected replies.
use crate::talk::ExpectedReply::{Denied, Refused, Shown};
use crate::talk::{ANNA, BEN, NORA, NOTARY, Row};

/// The bank as a citizen, for its own holdings.
const BANK_ITSELF: &str = "Register-Party: 4\r\nRegister-Role: citizen\r\n";

/// The end of Anna's mandate to Nora.
const WITHDRAWAL: &[u8] = br#"{"principal":2,"agent":5}"#;

/// Steps that give and withdraw mandates after twelve steps, and reads by an agent.
pub const MANDATES: &[Row] = &[
    Row(
        "POST /acts/mandate",
        ANNA,
        br#"{"agent":5}"#,
        Shown(r#"{"made":[],"number":5,"stamp":1012}"#),
    ),
    Row("POST /acts/mandate", ANNA, br#"{"agent":5}"#, Refused(221)),
    Row("POST /acts/mandate", ANNA, br#"{"agent":2}"#, Refused(219)),
    Row("POST /acts/mandate", ANNA, br#"{"agent":7}"#, Refused(205)),
    Row("GET /units", NORA, b"", Shown(r#"{"numbers":[9]}"#)),
    Row(
        "GET /rrrs",
        NORA,
        b"",
        Shown(r#"{"numbers":[11,12,13,16]}"#),
    ),
    Row(
        "GET /parties",
        NORA,
        b"",
        Shown(r#"{"numbers":[2,4,5,6,7]}"#),
    ),
    Row("GET /units/9?at=1011", NORA, b"", Denied(11)),
    Row(
        "POST /acts/mandate",
        NORA,
        br#"{"agent":4}"#,
        Shown(r#"{"made":[],"number":4,"stamp":1013}"#),
    ),
    Row("GET /units", BANK_ITSELF, b"", Shown(r#"{"numbers":[]}"#)),
    Row("POST /acts/withdraw", BEN, WITHDRAWAL, Denied(29)),
    Row("POST /acts/withdraw", NOTARY, WITHDRAWAL, Denied(28)),
    Row(
        "POST /acts/withdraw",
        NORA,
        WITHDRAWAL,
        Shown(r#"{"made":[],"number":5,"stamp":1014}"#),
    ),
    Row("POST /acts/withdraw", ANNA, WITHDRAWAL, Refused(222)),
    Row("GET /units/9", NORA, b"", Denied(11)),
    Row(
        "GET /units/9?at=1013",
        NORA,
        b"",
        Shown(r#"{"object":{"checked":true,"name":"Garden","number":9}}"#),
    ),
];
