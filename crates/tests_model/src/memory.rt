//! A prepared act changes nothing, and after an allocation failure the same request gets its reply when it is
//! repeated.
ghost use Rattle.std.specs.Prelude.{◌≡◌, true};
ghost use Rattle.land_core.specs.Acts.{is_well_formed_request};

use crate::conclusion::conclude;
use land_core::act::BurdenClass::Restriction;
use land_core::ask::Request;
use land_core::caller::Caller;
use land_core::kind::Kind::{Mutation, Party};
use land_core::kind::PartyKind::NaturalPerson;
use land_core::role::Role::{Bank, CertifiedSurveyor, Citizen, Notary};
use land_core::rrr::RightType::Ownership;
use land_keep::keeper::Keeper;
use land_keep::machine::{answer, finish, prepare};
use land_keep::plain_keeper::PlainKeeper;
use land_keep::reply::Reply;
use land_keep::store_fault::StoreFault;
use std::alloc::{AllocError, Global};
use std::process::Abort;
use std::test::Fail;
use testlib_cases::asked::RowAct::{
    Approve, Burden, Enrol, Grant, Group, Lodge, Register, Regroup, Revoke,
};
use testlib_cases::asked::RowAsk::{Do, Sheet, View};
use testlib_cases::asked::{OFFICE, Right, RowAsk, Share};
use testlib_cases::lodged::RowContent::{Merger, Mortgage, Subdivision, Transfer};
use testlib_cases::lodged::{RowParcel, RowPart};
use testlib_cases::rows::request;
use testlib_cases::stop::{Stop, expect};
use testlib_cases::told::is_told;

const ENROL: RowAsk = Do(Enrol(NaturalPerson, "Anna"));

const THIRDS: &[Share] = &[(1, 1, 3), (2, 2, 3)];

const HALVES: &[Share] = &[(1, 1, 2), (2, 1, 2)];

const OWNED: &[Right] = &[(2, Ownership, 1, 1)];

const ENROLLED: &str = "done 2 made [2] at 1000";

/// Returns out of memory for a call that failed before the first stamp if nothing has changed, and a wrong
/// result otherwise.
fn failed(last: i64, fault: StoreFault) -> Result<bool, AllocError> {
    if fault == StoreFault::NoMemory && last == 0 {
        Err(AllocError)
    } else {
        Ok(false)
    }
}

/// Returns whether a reply is that of the enrolment, with the moment of the last change as its stamp.
fn is_enrolled(alloc: Global, reply: &Reply, last: i64, moment: i64) -> Result<bool, AllocError> {
    Ok(is_told(alloc, reply, ENROLLED)? && last == moment)
}

/// Returns whether an enrolment was prepared without a change, and is executed now.
fn is_done(
    alloc: Global,
    waited: Result<bool, AllocError>,
    last: i64,
    finished: &Result<Reply, StoreFault>,
) -> Result<bool, AllocError> {
    match finished {
        Ok(reply) => Ok(waited? && is_enrolled(alloc, reply, last, 1000)?),
        Err(fault) => failed(last, *fault),
    }
}

/// Returns whether an enrolment is prepared, which changes nothing, and then finished.
fn is_finished(
    alloc: Global,
    keeper: &mut PlainKeeper,
    request: &Request,
) -> Result<bool, AllocError>
    requires { is_well_formed_request request.now ≡ true }
{
    match prepare(alloc, keeper, 1000, request) {
        Ok(prepared) => {
            let waited = is_enrolled(alloc, prepared.reply(), keeper.last(), 0);
            let finished = finish(alloc, keeper, prepared);
            is_done(alloc, waited, keeper.last(), &finished)
        }
        Err(fault) => failed(keeper.last(), fault),
    }
}

fn is_prepared(alloc: Global, request: &Request) -> Result<bool, AllocError>
    requires { is_well_formed_request request.now ≡ true }
{
    let mut keeper = PlainKeeper::new(alloc)?;
    if keeper.is_closed() {
        return Ok(false);
    }
    is_finished(alloc, &mut keeper, request)
}

/// Returns whether an enrolment in a new register changes nothing before it is finished.
fn is_enrolled_late(alloc: Global) -> Result<bool, Stop> {
    let request = request(alloc, OFFICE, &ENROL)?;
    Ok(request.is_well_formed() && is_prepared(alloc, &request)?)
}

fn enrol_late(alloc: Global) -> Result<(), Stop> {
    expect(is_enrolled_late(alloc)?, "enrolment", 0)
}

#[test]
fn a_prepared_act_changes_nothing_before_it_is_finished(rt: HostRuntime) -> Result<(), Fail> {
    conclude(&rt, enrol_late(rt.alloc()))
}

/// The result of a request.
#[derive(Drop)]
enum Outcome {
    AtOnce,
    /// An allocation failed, nothing had changed, and the repeated request got its reply.
    Late,
    /// Something had changed, or the reply is a different one.
    Wrong,
}

/// Returns whether a reply is this line, or `None` if memory ran out.
fn has_reply_line(alloc: Global, reply: &Reply, line: &str) -> Result<Option<bool>, AllocError> {
    match reply {
        Reply::Store(501) => Ok(None),
        _ => Ok(Some(is_told(alloc, reply, line)?)),
    }
}

/// Returns whether a request gets this reply, or `None` if memory ran out.
fn send_once(
    alloc: Global,
    keeper: &mut PlainKeeper,
    request: &Request,
    line: &str,
) -> Result<Option<bool>, AllocError>
    requires { is_well_formed_request request.now ≡ true }
{
    let reply = answer(alloc, keeper, 1000, request);
    has_reply_line(alloc, &reply, line)
}

/// Repeats a request. Checks that nothing has changed before.
fn send_again(
    alloc: Global,
    keeper: &mut PlainKeeper,
    last: i64,
    request: &Request,
    line: &str,
) -> Result<Outcome, AllocError>
    requires { is_well_formed_request request.now ≡ true }
{
    if keeper.last() != last || keeper.is_closed() {
        return Ok(Outcome::Wrong);
    }
    match send_once(alloc, keeper, request, line)? {
        Some(true) => Ok(Outcome::Late),
        Some(false) => Ok(Outcome::Wrong),
        None => Err(AllocError),
    }
}

/// Sends a request, and repeats it if memory ran out.
fn asked(
    alloc: Global,
    keeper: &mut PlainKeeper,
    request: &Request,
    line: &str,
) -> Result<Outcome, AllocError>
    requires { is_well_formed_request request.now ≡ true }
{
    let last = keeper.last();
    match send_once(alloc, keeper, request, line)? {
        Some(true) => Ok(Outcome::AtOnce),
        Some(false) => Ok(Outcome::Wrong),
        None => send_again(alloc, keeper, last, request, line),
    }
}

/// A caller, its request, and the reply as a line.
struct Row(Caller, RowAsk, &'static str);

/// Sends a request that is well formed.
fn send_well_formed(
    alloc: Global,
    keeper: &mut PlainKeeper,
    request: &Request,
    line: &str,
) -> Result<Outcome, Stop> {
    if !request.is_well_formed() {
        return Ok(Outcome::Wrong);
    }
    Ok(asked(alloc, keeper, request, line)?)
}

fn send_row(alloc: Global, keeper: &mut PlainKeeper, row: &Row) -> Result<Outcome, Stop> {
    let request = request(alloc, row.0, &row.1)?;
    send_well_formed(alloc, keeper, &request, row.2)
}

/// Sends the requests in order, and returns whether one had to be repeated.
fn is_late(alloc: Global, keeper: &mut PlainKeeper, rows: &[Row]) -> Result<bool, Stop> {
    let mut late = false;
    for (place, row) in rows.iter().enumerate() {
        match send_row(alloc, keeper, row)? {
            Outcome::AtOnce => {}
            Outcome::Late => late = true,
            Outcome::Wrong => return Err(Stop::Mismatch("row", place)),
        }
    }
    Ok(late)
}

fn is_late_from_scratch(alloc: Global, rows: &[Row]) -> Result<bool, Stop> {
    let mut keeper = PlainKeeper::new(alloc)?;
    is_late(alloc, &mut keeper, rows)
}

/// Sends the requests to a new register, where each reply has to be the expected one. If one had to be
/// repeated, returns out of memory.
fn ask_from_scratch(alloc: Global, rows: &[Row]) -> Result<(), Stop> {
    if is_late_from_scratch(alloc, rows)? {
        Err(Stop::Memory)
    } else {
        Ok(())
    }
}

/// Sends the requests to a new register, and compares the replies in full.
fn assert_replies(rt: &impl Abort, alloc: Global, rows: &[Row]) -> Result<(), Fail> {
    conclude(rt, ask_from_scratch(alloc, rows))
}

const GROUPING: &[Row] = &[
    Row(OFFICE, ENROL, "done 2 made [2] at 1000"),
    Row(
        OFFICE,
        Do(Group("Office and Anna", THIRDS)),
        "done 3 made [3] at 1001",
    ),
    Row(
        OFFICE,
        View(Party, 3, None),
        "party 3 Group Office and Anna [(1 1/3)(2 2/3)] []",
    ),
];

#[test]
fn after_out_of_memory_the_same_group_is_created(rt: HostRuntime) -> Result<(), Fail> {
    assert_replies(&rt, rt.alloc(), GROUPING)
}

const REGROUPING: &[Row] = &[
    Row(OFFICE, ENROL, "done 2 made [2] at 1000"),
    Row(
        OFFICE,
        Do(Group("Office and Anna", THIRDS)),
        "done 3 made [3] at 1001",
    ),
    Row(OFFICE, Do(Regroup(3, HALVES)), "done 3 made [] at 1002"),
    Row(
        OFFICE,
        View(Party, 3, None),
        "party 3 Group Office and Anna [(1 1/2)(2 1/2)] []",
    ),
];

#[test]
fn after_out_of_memory_the_same_group_is_regrouped(rt: HostRuntime) -> Result<(), Fail> {
    assert_replies(&rt, rt.alloc(), REGROUPING)
}

const ROLES: &[Row] = &[
    Row(OFFICE, ENROL, "done 2 made [2] at 1000"),
    Row(OFFICE, Do(Grant(2, Bank)), "done 2 made [] at 1001"),
    Row(OFFICE, Do(Revoke(2, Citizen)), "done 2 made [] at 1002"),
    Row(
        OFFICE,
        View(Party, 2, None),
        "party 2 NaturalPerson Anna [] [Bank]",
    ),
];

#[test]
fn after_out_of_memory_the_same_role_starts_and_ends(rt: HostRuntime) -> Result<(), Fail> {
    assert_replies(&rt, rt.alloc(), ROLES)
}

const REGISTERING: &[Row] = &[
    Row(OFFICE, ENROL, "done 2 made [2] at 1000"),
    Row(
        OFFICE,
        Do(Register(true, 1, OWNED)),
        "done 4 made [3, 4, 5, 6] at 1001",
    ),
    Row(
        OFFICE,
        Do(Burden(Restriction, 4, 1)),
        "done 8 made [7, 8] at 1002",
    ),
    Row(
        OFFICE,
        Sheet(4, None),
        "sheet 4 Garden at 1002: parcel 5 rrr 6 Anna rrr 8 Land Office",
    ),
];

#[test]
fn after_out_of_memory_the_same_sheet_is_returned(rt: HostRuntime) -> Result<(), Fail> {
    assert_replies(&rt, rt.alloc(), REGISTERING)
}

const ANNA_AS_NOTARY: Caller = Caller {
    party: 2,
    role: Notary,
};

/// Anna owns a unit, becomes a notary, and lodges the transfer of half of it to the Land Office.
const GIVING: RowAsk = Do(Lodge("T1", "Deed 2", Transfer(4, 6, 1, 1, 2)));

const LODGING: &[Row] = &[
    Row(OFFICE, ENROL, "done 2 made [2] at 1000"),
    Row(
        OFFICE,
        Do(Register(true, 1, OWNED)),
        "done 4 made [3, 4, 5, 6] at 1001",
    ),
    Row(OFFICE, Do(Grant(2, Notary)), "done 2 made [] at 1002"),
    Row(ANNA_AS_NOTARY, GIVING, "done 8 made [7, 8] at 1003"),
    Row(ANNA_AS_NOTARY, GIVING, "done 8 made [7, 8] at 1003"),
    Row(
        OFFICE,
        View(Mutation, 8, None),
        "mutation 8 T1 of 2 from 7 at 1003: Lodged Transfer 1/2 of 6 in 4 to 1",
    ),
    Row(OFFICE, Do(Approve(8)), "done 8 made [9] at 1004"),
    Row(
        OFFICE,
        Sheet(4, None),
        "sheet 4 Garden at 1004: parcel 5 rrr 6 Anna rrr 9 Land Office",
    ),
];

#[test]
fn after_out_of_memory_the_same_transfer_is_approved(rt: HostRuntime) -> Result<(), Fail> {
    assert_replies(&rt, rt.alloc(), LODGING)
}

const LENDING: &[Row] = &[
    Row(OFFICE, ENROL, "done 2 made [2] at 1000"),
    Row(
        OFFICE,
        Do(Register(true, 1, OWNED)),
        "done 4 made [3, 4, 5, 6] at 1001",
    ),
    Row(OFFICE, Do(Grant(2, Notary)), "done 2 made [] at 1002"),
    Row(
        ANNA_AS_NOTARY,
        Do(Lodge("M1", "Loan 1", Mortgage(4, 1, 100))),
        "done 8 made [7, 8] at 1003",
    ),
    Row(OFFICE, Do(Approve(8)), "refused 211"),
    Row(OFFICE, Do(Grant(1, Bank)), "done 1 made [] at 1004"),
    Row(OFFICE, Do(Approve(8)), "done 8 made [9] at 1005"),
    Row(
        OFFICE,
        View(Mutation, 8, None),
        "mutation 8 M1 of 2 from 7 at 1003: Approved Mortgage 100 EUR on 4 of 1",
    ),
];

#[test]
fn after_out_of_memory_the_same_mortgage_is_approved(rt: HostRuntime) -> Result<(), Fail> {
    assert_replies(&rt, rt.alloc(), LENDING)
}

const ANNA_AS_SURVEYOR: Caller = Caller {
    party: 2,
    role: CertifiedSurveyor,
};

/// Anna's unit is cut into halves, one of which becomes a new unit, and the halves are merged again.
const SURVEYING: &[Row] = &[
    Row(OFFICE, ENROL, "done 2 made [2] at 1000"),
    Row(
        OFFICE,
        Do(Register(true, 1, OWNED)),
        "done 4 made [3, 4, 5, 6] at 1001",
    ),
    Row(
        OFFICE,
        Do(Grant(2, CertifiedSurveyor)),
        "done 2 made [] at 1002",
    ),
    Row(
        ANNA_AS_SURVEYOR,
        Do(Lodge(
            "S1",
            "Plan 1",
            Subdivision(
                4,
                5,
                RowParcel("12a", "POLYGON ((0 0, 5000 0, 5000 10000, 0 10000, 0 0))"),
                &[RowPart(
                    "12b",
                    "POLYGON ((5000 0, 10000 0, 10000 10000, 5000 10000, 5000 0))",
                    Some("Orchard"),
                )],
            ),
        )),
        "done 8 made [7, 8] at 1003",
    ),
    Row(
        OFFICE,
        Do(Approve(8)),
        "done 8 made [9, 10, 11, 12] at 1004",
    ),
    Row(
        OFFICE,
        Sheet(10, None),
        "sheet 10 Orchard at 1004: parcel 11 rrr 12 Anna",
    ),
    Row(
        ANNA_AS_SURVEYOR,
        Do(Lodge(
            "G1",
            "Plan 2",
            Merger(
                4,
                &[10],
                &[9, 11],
                RowParcel("12", "POLYGON ((0 0, 10000 0, 10000 10000, 0 10000, 0 0))"),
            ),
        )),
        "done 14 made [13, 14] at 1005",
    ),
    Row(OFFICE, Do(Approve(14)), "done 14 made [15] at 1006"),
    Row(
        OFFICE,
        Sheet(4, None),
        "sheet 4 Garden at 1006: parcel 15 rrr 6 Anna",
    ),
];

#[test]
fn after_out_of_memory_the_same_parcels_are_cut_and_merged(rt: HostRuntime) -> Result<(), Fail> {
    assert_replies(&rt, rt.alloc(), SURVEYING)
}
