//! The register machine on any keeper: prepares, finishes and answers requests, and runs sequences of them.
ghost use Rattle.std.specs.Prelude.{◌≡◌, ◌≢◌, ℤ, true, false, IfOk, OnOk, OnErr, All, IsTrue, ◌↔◌};
ghost use Rattle.land_acts.specs.Outcome.{outcome_of};
ghost use Rattle.land_core.specs.Acts.{is_well_formed, is_well_formed_request};
ghost use Rattle.land_core.specs.Register.{holds};
ghost use Rattle.land_keep.specs.Keepers.{LeavesTimeline, WasHonest, state_of};
ghost use Rattle.land_keep.specs.Keeping.{Closes, CanFinish, AnswersByStep, IsHonestAndOpen, CommitsStep};
ghost use Rattle.land_keep.specs.Keeping.{Commits, RunsToState};
ghost use Rattle.land_keep.specs.Keeping.{SheetHasRequestedMoment, SheetHasMoment, ReportsClosing};
ghost use Rattle.land_keep.specs.Keeping.{prepared_of, apply_pending};
ghost use Rattle.land_keep.specs.Machine.{stamp_of, next_if_allowed, outcome_next};
ghost use Rattle.land_keep.specs.Timeline.{last_register};

use crate::clock::Clock;
use crate::keeper::Keeper;
use crate::moments::{explicit_moment, now_at, stamp_at};
use crate::prepared::{Prepared, Writing};
use crate::reply::Reply;
use crate::store_fault::StoreFault;
use land_acts::laws::needed_slices_suffice;
use land_acts::plan::plan;
use land_acts::refusal::{Planned, Refusal};
use land_core::act::Act;
use land_core::ask::{Ask, Request};
use land_core::caller::Caller;
use land_rules::verdict::Verdict;
use std::alloc::{AllocError, Global};

/// Prepares the reply to a request and the change to write for it. Changes nothing. Errors: 501 `NoMemory`,
/// 502 `Store`, 503 `Closed`.
pub fn prepare<K: Keeper>(
    alloc: Global,
    keeper: &mut K,
    clock: i64,
    request: &Request,
) -> Result<Prepared, StoreFault>
    requires { is_well_formed_request request.now ≡ true }
    ensures prepared { K.honest keeper.new
        → IfOk result (λ it. CommitsStep it clock request.now (K.timeline keeper.old)) }
    ensures moment { IfOk result (λ it. SheetHasRequestedMoment request.now.ask it.reply) }
    ensures was { WasHonest K.Keeper keeper.old keeper.new }
    ensures same { LeavesTimeline K.Keeper keeper.old keeper.new }
    ensures closes { Closes (K.closed keeper.old) (K.closed keeper.new) result }
{
    if keeper.is_closed() {
        return Err(StoreFault::Closed);
    }
    let now = now_at(clock, keeper.last());
    let at = explicit_moment(&request.ask).unwrap_or(now);
    if now < at {
        return Ok(without_change(Reply::Fault(135)));
    }
    match keeper.first_denial(alloc, request.caller, &request.ask, now)? {
        Verdict::Denied(rule) => Ok(without_change(Reply::Denied(rule))),
        Verdict::Allowed => prepare_allowed(alloc, keeper, clock, request, at),
    }
}

/// Prepares the reply to a request that the policy allows, at the requested moment.
fn prepare_allowed<K: Keeper>(
    alloc: Global,
    keeper: &mut K,
    clock: i64,
    request: &Request,
    at: i64,
) -> Result<Prepared, StoreFault>
    requires open { K.closed keeper.old ≡ false }
    requires well_formed { is_well_formed_request request.now ≡ true }
    requires role_held { K.honest keeper.old
        → holds (last_register (K.timeline keeper.old)) request.now.caller.party request.now.caller.role
        ≡ true }
    ensures prepared { K.honest keeper.new
        → IfOk result (λ it. Commits it
        (next_if_allowed clock request.now.caller request.now.ask at (K.timeline keeper.old))
        (K.timeline keeper.old)) }
    ensures moment { IfOk result (λ it. SheetHasMoment at it.reply) }
    ensures was { WasHonest K.Keeper keeper.old keeper.new }
    ensures same { LeavesTimeline K.Keeper keeper.old keeper.new }
    ensures closes { Closes (K.closed keeper.old) (K.closed keeper.new) result }
{
    match &request.ask {
        Ask::View { kind, number, .. } => {
            Ok(without_change(match keeper.object(alloc, *kind, *number, at)? {
                Some(object) => Reply::Object(object),
                None => Reply::Denied(27),
            }))
        }
        Ask::List { kind, .. } => Ok(without_change(Reply::Numbers(keeper.sight(
            alloc,
            request.caller,
            *kind,
            at,
        )?))),
        Ask::Sheet { unit, .. } => Ok(without_change(
            match keeper.view(alloc, request.caller, *unit, at)? {
                Some(view) => Reply::Sheet(view),
                None => Reply::Denied(27),
            },
        )),
        Ask::Do(act) => prepare_act(alloc, keeper, clock, request.caller, act),
    }
}

/// Plans an act on the part of the last register on which its outcome depends.
fn prepare_act<K: Keeper>(
    alloc: Global,
    keeper: &mut K,
    clock: i64,
    caller: Caller,
    act: &Act,
) -> Result<Prepared, StoreFault>
    requires open { K.closed keeper.old ≡ false }
    requires well_formed { is_well_formed act.now ≡ true }
    requires role_held { K.honest keeper.old
        → holds (last_register (K.timeline keeper.old)) caller.party caller.role ≡ true }
    ensures prepared { K.honest keeper.new → IfOk result (λ it. Commits it
        (outcome_next (outcome_of (last_register (K.timeline keeper.old)) caller act.now
        (stamp_of clock (K.timeline keeper.old))) (K.timeline keeper.old))
        (K.timeline keeper.old)) }
    ensures moment { IfOk result (λ it. (t : ℤ) → SheetHasMoment t it.reply) }
    ensures was { WasHonest K.Keeper keeper.old keeper.new }
    ensures same { LeavesTimeline K.Keeper keeper.old keeper.new }
    ensures closes { Closes (K.closed keeper.old) (K.closed keeper.new) result }
{
    let stamp = stamp_at(clock, keeper.last());
    let slice = keeper.needed_slice(alloc, caller, act)?;
    needed_slices_suffice();
    prepare_outcome(plan(alloc, &slice, caller, act, stamp))
}

/// Prepares the reply for the outcome of an act. Error: `NoMemory`.
fn prepare_outcome(outcome: Result<Planned, Refusal>) -> Result<Prepared, StoreFault>
    ensures ok { IfOk result (λ it. (outcome ≢ Err Refusal.NoMemory) × (it ≡ prepared_of outcome)) }
    ensures err { OnErr result (result ≡ Err StoreFault.NoMemory) }
{
    match outcome {
        Ok(Planned::New(change, done)) => {
            let stamp = done.stamp;
            Ok(Prepared {
                reply: Reply::Done(done),
                writing: Some(Writing { change, stamp }),
            })
        }
        Ok(Planned::Repeat(done)) => Ok(without_change(Reply::Done(done))),
        Err(Refusal::NoMemory) => Err(StoreFault::NoMemory),
        Err(refusal) => Ok(without_change(Reply::Refused(refusal.number()))),
    }
}

/// Returns a prepared reply without a change.
fn without_change(reply: Reply) -> Prepared
    ensures reply { result.reply ≡ reply }
    ensures writing { result.writing ≡ None }
{
    Prepared {
        reply,
        writing: None,
    }
}

/// Writes the prepared change, if any, and returns the reply. The keeper must be unchanged since `prepare`.
/// If the write fails, returns its error, and nothing has changed.
pub fn finish<K: Keeper>(
    alloc: Global,
    keeper: &mut K,
    prepared: Prepared,
) -> Result<Reply, StoreFault>
    requires open { K.closed keeper.old ≡ false }
    requires can_finish { K.honest keeper.old → CanFinish prepared (K.timeline keeper.old) }
    ensures reply { IfOk result (λ it. it ≡ prepared.reply) }
    ensures ok { IsHonestAndOpen (K.honest keeper.new) (K.closed keeper.new)
        → OnOk result (K.timeline keeper.new ≡ apply_pending prepared.writing (K.timeline keeper.old)) }
    ensures was { WasHonest K.Keeper keeper.old keeper.new }
    ensures err { IsHonestAndOpen (K.honest keeper.new) (K.closed keeper.new)
        → OnErr result (K.timeline keeper.new ≡ K.timeline keeper.old) }
    ensures closes { Closes (K.closed keeper.old) (K.closed keeper.new) result }
{
    let Prepared { reply, writing } = prepared;
    if let Some(writing) = writing {
        keeper.write(alloc, &writing.change, writing.stamp)?;
    }
    Ok(reply)
}

/// Answers a request: performs one step of the register machine, or replies with a store fault and changes
/// nothing.
pub fn answer<K: Keeper>(alloc: Global, keeper: &mut K, clock: i64, request: &Request) -> Reply
    requires { is_well_formed_request request.now ≡ true }
    ensures answered { K.honest keeper.new
        → AnswersByStep (K.closed keeper.old) clock request.now (K.timeline keeper.old) result
        (K.timeline keeper.new) (K.closed keeper.new) }
    ensures was { WasHonest K.Keeper keeper.old keeper.new }
    ensures tells { ReportsClosing (K.closed keeper.old) result (K.closed keeper.new) }
{
    match prepare(alloc, keeper, clock, request) {
        Err(fault) => Reply::Store(fault.number()),
        Ok(prepared) => match finish(alloc, keeper, prepared) {
            Err(fault) => Reply::Store(fault.number()),
            Ok(reply) => reply,
        },
    }
}

/// Checks if the fields of each request are within their limits, as `run` requires.
pub fn are_well_formed(requests: &[Request]) -> bool
    ensures { IsTrue result ↔ All (λ request. is_well_formed_request request ≡ true) requests.now }
{
    requests.iter().all(|request| request.is_well_formed())
}

/// Answers requests in order, each with one reading of the clock: a run of the register machine. Allocates
/// the vector of replies first; if that fails, answers no request.
pub fn run<K: Keeper, C: Clock>(
    alloc: Global,
    keeper: &mut K,
    clock: &mut C,
    requests: &[Request],
) -> Result<Vec<Reply>, AllocError>
    requires { All (λ request. is_well_formed_request request ≡ true) requests.now }
    ensures run { K.honest keeper.new → IfOk result (λ replies. RunsToState C.reads
        (state_of K.Keeper keeper.old clock.old)
        requests.now replies.items
        (K.honest keeper.new) (K.closed keeper.new) (K.timeline keeper.new) clock.new) }
    ensures was { WasHonest K.Keeper keeper.old keeper.new }
    ensures same { OnErr result (K.timeline keeper.new ≡ K.timeline keeper.old) }
    ensures as_open { OnErr result (K.closed keeper.new ≡ K.closed keeper.old) }
    ensures unread { OnErr result (clock.new ≡ clock.old) }
{
    let mut replies = Vec::with_capacity(alloc, requests.len())?;
    for request in requests {
        let reading = clock.read();
        let reply = answer(alloc, keeper, reading, request);
        replies.push(reply)?;
    }
    Ok(replies)
}
