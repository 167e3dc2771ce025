//! The resources of paths, the split of targets, and the methods of routes.
use land_core::kind::Kind;
use land_wire::routes::act_word::ActWord;
use land_wire::routes::route::{Route, allows, find_route};
use land_wire::routes::table::routes;
use land_wire::routes::target::split_target;
use std::alloc::Global;
use testlib_scenario::stop::{Stop, expect};

/// A path, and its resource.
struct Row(&'static str, Option<Route<'static>>);

/// Each kind: its list, and one object.
const KINDS: &[Row] = &[
    Row("/parties", Some(Route::List(Kind::Party))),
    Row("/parties/16", Some(Route::View(Kind::Party, b"16"))),
    Row("/units", Some(Route::List(Kind::Unit))),
    Row("/units/16", Some(Route::View(Kind::Unit, b"16"))),
    Row("/parcels", Some(Route::List(Kind::Parcel))),
    Row("/parcels/16", Some(Route::View(Kind::Parcel, b"16"))),
    Row("/rrrs", Some(Route::List(Kind::Rrr))),
    Row("/rrrs/16", Some(Route::View(Kind::Rrr, b"16"))),
    Row("/sources", Some(Route::List(Kind::Source))),
    Row("/sources/16", Some(Route::View(Kind::Source, b"16"))),
    Row("/mutations", Some(Route::List(Kind::Mutation))),
    Row("/mutations/16", Some(Route::View(Kind::Mutation, b"16"))),
];

/// Title sheets, which only units have.
const SHEETS: &[Row] = &[
    Row("/units/9/sheet", Some(Route::Sheet(b"9"))),
    Row("/units/sheet", Some(Route::View(Kind::Unit, b"sheet"))),
    Row("/units/sheet/sheet", Some(Route::Sheet(b"sheet"))),
    Row("/units/sheets", Some(Route::View(Kind::Unit, b"sheets"))),
    Row("/units/9/sheets", None),
    Row("/units/9/shee", None),
    Row("/units/9/sheet/", None),
    Row("/units/9/Sheet", None),
    Row("/units//sheet", None),
    Row("/units/9//sheet", None),
    Row("/units/9/8/sheet", None),
    Row("/units/9/", None),
    Row("/units/9/leaf", None),
    Row("/parties/9/sheet", None),
    Row("/parcels/9/sheet", None),
    Row("/rrrs/9/sheet", None),
    Row("/sources/9/sheet", None),
    Row("/mutations/9/sheet", None),
];

/// Each act.
const ACTS: &[Row] = &[
    Row("/acts/enrol", Some(Route::Act(ActWord::Enrol))),
    Row("/acts/group", Some(Route::Act(ActWord::Group))),
    Row("/acts/regroup", Some(Route::Act(ActWord::Regroup))),
    Row("/acts/grant", Some(Route::Act(ActWord::Grant))),
    Row("/acts/revoke", Some(Route::Act(ActWord::Revoke))),
    Row("/acts/mandate", Some(Route::Act(ActWord::Mandate))),
    Row("/acts/withdraw", Some(Route::Act(ActWord::Withdraw))),
    Row("/acts/register", Some(Route::Act(ActWord::Register))),
    Row("/acts/burden", Some(Route::Act(ActWord::Burden))),
    Row("/acts/lift", Some(Route::Act(ActWord::Lift))),
    Row("/acts/transfer", Some(Route::Act(ActWord::Transfer))),
    Row("/acts/subdivision", Some(Route::Act(ActWord::Subdivision))),
    Row("/acts/merger", Some(Route::Act(ActWord::Merger))),
    Row("/acts/mortgage", Some(Route::Act(ActWord::Mortgage))),
    Row("/acts/discharge", Some(Route::Act(ActWord::Discharge))),
    Row("/acts/approve", Some(Route::Act(ActWord::Approve))),
    Row("/acts/refuse", Some(Route::Act(ActWord::Refuse))),
];

/// Words that are not acts.
const NO_ACTS: &[Row] = &[
    Row("/acts", None),
    Row("/acts/", None),
    Row("/acts/paint", None),
    Row("/acts/Enrol", None),
    Row("/acts/ENROL", None),
    Row("/acts/enrol/", None),
    Row("/acts/enrol/1", None),
    Row("/acts/enrolment", None),
    Row("/acts/mandates", None),
    Row("/acts/withdrawal", None),
    Row("/acts/enro", None),
    Row("/acts//enrol", None),
    Row("/acts/enrol%20", None),
    Row("/acts/group ", None),
    Row("/acts/sheet", None),
    Row("/Acts/enrol", None),
    Row("/acts/mortgage/discharge", None),
    Row("/acts/withdrawal", None),
];

/// Numbers are not parsed here: any segment that is not empty and has no `/` is accepted.
const PARTS: &[Row] = &[
    Row("/parties/0", Some(Route::View(Kind::Party, b"0"))),
    Row("/parties/01", Some(Route::View(Kind::Party, b"01"))),
    Row("/parties/x", Some(Route::View(Kind::Party, b"x"))),
    Row("/parties/-1", Some(Route::View(Kind::Party, b"-1"))),
    Row(
        "/parties/{number}",
        Some(Route::View(Kind::Party, b"{number}")),
    ),
    Row("/parties/1%2F2", Some(Route::View(Kind::Party, b"1%2F2"))),
    Row("/parties/ ", Some(Route::View(Kind::Party, b" "))),
    Row("/parties/.", Some(Route::View(Kind::Party, b"."))),
    Row("/parties/1#a", Some(Route::View(Kind::Party, b"1#a"))),
    Row("/parties/é", Some(Route::View(Kind::Party, b"\xc3\xa9"))),
    Row(
        "/parties/12345678901234567890123456789012345678901234567890",
        Some(Route::View(
            Kind::Party,
            b"12345678901234567890123456789012345678901234567890",
        )),
    ),
];

/// Paths without a route.
const NOTHING: &[Row] = &[
    Row("", None),
    Row("/", None),
    Row("//", None),
    Row("parties", None),
    Row("/partie", None),
    Row("/partiess", None),
    Row("/partys", None),
    Row("/party", None),
    Row("/party/1", None),
    Row("/parties/", None),
    Row("/parties/1/", None),
    Row("/parties/1/2", None),
    Row("//parties", None),
    Row("/parties//", None),
    Row("/parties//1", None),
    Row("//parties/1", None),
    Row("/./parties", None),
    Row("/PARTIES", None),
    Row("/Parties/1", None),
    Row("/parties%2F1", None),
    Row("/part%69es", None),
    Row("http://x/parties", None),
    Row("http://x/units/9/sheet", None),
    Row("*", None),
    Row("/parties/1/sheet/", None),
    Row("/units/", None),
    Row("/units/9/sheet/x", None),
    Row("/parcels/1/", None),
    Row("/rrrs/", None),
    Row("/rrr/1", None),
    Row("/rrr", None),
    Row("/sources/", None),
    Row("/source/1", None),
    Row("/mutations/", None),
    Row("/mutations/1/approve", None),
    Row("/mutation/1", None),
    Row("/parcel/1", None),
    Row("/unit/9/sheet", None),
    Row("/unit/9", None),
    Row("/{number}", None),
    Row("/units/{number}/", None),
    Row("/acts/{act}", None),
    Row(" /parties", None),
    Row("/parties ", None),
    Row("/favicon.ico", None),
    Row("/rights/16", None),
];

/// A query is not a part of a path: paths that were not split at their `?`.
const QUERIES: &[Row] = &[
    Row("/parties?at=5", None),
    Row("/parties/1?at=5", Some(Route::View(Kind::Party, b"1?at=5"))),
    Row("/acts/enrol?", None),
];

fn is_same(found: &Route<'_>, wanted: &Route<'_>) -> bool {
    match (found, wanted) {
        (Route::List(kind), Route::List(other)) => kind == other,
        (Route::View(kind, part), Route::View(other, text)) => kind == other && part == text,
        (Route::Sheet(part), Route::Sheet(text)) => part == text,
        (Route::Act(act), Route::Act(other)) => act == other,
        _ => false,
    }
}

fn is_named(found: &Option<Route<'_>>, wanted: &Option<Route<'_>>) -> bool {
    match (found, wanted) {
        (Some(found), Some(wanted)) => is_same(found, wanted),
        (None, None) => true,
        _ => false,
    }
}

fn expect_named(alloc: Global, rows: &[Row]) -> Result<(), Stop> {
    let router = routes(alloc)?;
    for row in rows {
        expect(is_named(&find_route(&router, row.0), &row.1), row.0, 0)?;
    }
    Ok(())
}

/// Checks the paths of kinds, sheets and acts.
pub fn kinds_sheets_and_acts_are_named(alloc: Global) -> Result<(), Stop> {
    expect_named(alloc, KINDS)?;
    expect_named(alloc, SHEETS)?;
    expect_named(alloc, ACTS)?;
    expect_named(alloc, PARTS)
}

/// Checks that other paths have no route.
pub fn other_paths_name_nothing(alloc: Global) -> Result<(), Stop> {
    expect_named(alloc, NO_ACTS)?;
    expect_named(alloc, NOTHING)?;
    expect_named(alloc, QUERIES)
}

/// A target, its path and its query.
struct Target(&'static str, &'static str, &'static str);

const TARGETS: &[Target] = &[
    Target("/parties", "/parties", ""),
    Target("/parties?at=5", "/parties", "at=5"),
    Target("/parties?", "/parties", ""),
    Target("/parties?a?b", "/parties", "a?b"),
    Target("", "", ""),
    Target("?", "", ""),
    Target("??", "", "?"),
    Target("?x", "", "x"),
    Target("/parties/1?at=5&x=1", "/parties/1", "at=5&x=1"),
];

/// Checks that targets are split at their first question mark.
pub fn targets_are_cut_at_their_first_question_mark() -> Result<(), Stop> {
    for (place, row) in TARGETS.iter().enumerate() {
        let (path, query) = split_target(row.0);
        expect(path == row.1 && query == row.2, "row", place)?;
    }
    Ok(())
}

const READS: &[Route<'static>] = &[
    Route::List(Kind::Party),
    Route::View(Kind::Unit, b"9"),
    Route::Sheet(b"9"),
];

const OTHER_METHODS: &[&str] = &["get", "HEAD", "PUT", "post", "Post", "GET ", ""];

fn has_method(route: &Route<'_>, method: &str, other: &str) -> bool {
    allows(route, method.as_bytes())
        && !allows(route, other.as_bytes())
        && OTHER_METHODS
            .iter()
            .all(|method| !allows(route, method.as_bytes()))
}

/// Checks that reads have the method GET and acts the method POST.
pub fn reads_are_got_and_acts_are_posted() -> Result<(), Stop> {
    for (place, route) in READS.iter().enumerate() {
        expect(has_method(route, "GET", "POST"), "row", place)?;
    }
    let merger = Route::Act(ActWord::Merger);
    expect(has_method(&merger, "POST", "GET"), "a merger", 0)
}
