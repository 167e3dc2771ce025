//! The acts `approve` and `refuse`, which decide on a mutation.
ghost use Rattle.std.specs.Prelude.{◌≡◌, ◌∷◌, [], Some, IfOk};
ghost use Rattle.std.specs.FinMap as map;
ghost use Rattle.land_acts.specs.Deciding.{approve_change, approve_done, approve_has_room, approve_refusals};
ghost use Rattle.land_acts.specs.Deciding.{decided_mutation, is_lodged, refuse_change, refuse_refusals};
ghost use Rattle.land_acts.specs.Mutations.ByContent.{StaysInRange};
ghost use Rattle.land_acts.specs.Mutations.Planning.{IsPlanOf, done_on, first_refusal_of};

use crate::mutations::by_content;
use crate::mutations::planning::done_on;
use crate::mutations::refusal::Refusal;
use crate::slice::Slice;
use land_core::act::Decision;
use land_core::change::{Change, Done};
use land_core::duplicate::Duplicate;
use land_core::mutation::{MutationRecord, MutationState};
use land_core::sequence::Sequence;
use std::alloc::{AllocError, Global};

/// Returns the first refusal of an approval whose condition holds: 201, or a refusal of the content. The
/// other error is out of memory.
pub(crate) fn approve_refusal(
    alloc: Global,
    slice: &Slice,
    it: Decision,
    stamp: Option<i64>,
) -> Result<Option<Refusal>, AllocError>
    ensures { IfOk result (λ first. first ≡ first_refusal_of (approve_refusals slice.now it stamp)) }
{
    match slice.mutations.get(it.mutation) {
        Some(mutation) if mutation.is_undecided() => {
            by_content::refusal(alloc, slice, &mutation.content, stamp)
        }
        _ => Ok(Some(Refusal::NotLodged)),
    }
}

/// Returns the first refusal of a refusal whose condition holds: 201 or 217.
pub(crate) fn refuse_refusal(slice: &Slice, it: Decision, stamp: Option<i64>) -> Option<Refusal>
    ensures { result ≡ first_refusal_of (refuse_refusals slice.now it stamp) }
{
    if !is_lodged(slice, it.mutation) {
        Some(Refusal::NotLodged)
    } else if stamp.is_none() {
        Some(Refusal::ClockOut)
    } else {
        None
    }
}

/// Returns whether an undecided mutation exists at a number.
fn is_lodged(slice: &Slice, number: u64) -> bool
    ensures { result ≡ is_lodged slice.now number }
{
    match slice.mutations.get(number) {
        Some(mutation) => mutation.is_undecided(),
        None => false,
    }
}

/// Returns whether the numbers and ranks that the content creates stay in range. In a sound register they do.
pub(crate) fn approve_has_room(slice: &Slice, it: Decision) -> bool
    ensures { result ≡ approve_has_room slice.now it }
{
    match slice.mutations.get(it.mutation) {
        Some(mutation) => by_content::has_room(slice, &mutation.content),
        None => true,
    }
}

/// Returns the change that the content requests, with the mutation marked approved, and the receipt.
pub(crate) fn approval_plan(
    alloc: Global,
    slice: &Slice,
    it: Decision,
    stamp: i64,
) -> Result<(Change, Done), AllocError>
    requires { (mutation : MutationRecord) → map.get slice.now.mutations it.mutation ≡ Some mutation
        → StaysInRange slice.now mutation.content }
    ensures { IfOk result (IsPlanOf (approve_change slice.now it) (approve_done slice.now it stamp)) }
{
    let Some(mutation) = slice.mutations.get(it.mutation) else {
        return Ok((
            Change::empty(alloc, slice.next),
            done_on(alloc, it.mutation, stamp),
        ));
    };
    let made = by_content::created_numbers(alloc, slice, &mutation.content)?;
    let mutations = decided_mutation(alloc, it.mutation, mutation, MutationState::Approved)?;
    let mut change = by_content::change(alloc, slice, mutation.source, &mutation.content)?;
    change.put.mutations = mutations;
    Ok((
        change,
        Done {
            number: it.mutation,
            made,
            stamp,
        },
    ))
}

/// Returns the change that only marks the mutation refused, and the receipt.
pub(crate) fn refusal_plan(
    alloc: Global,
    slice: &Slice,
    it: Decision,
    stamp: i64,
) -> Result<(Change, Done), AllocError>
    ensures { IfOk result (IsPlanOf (refuse_change slice.now it) (done_on it.mutation stamp)) }
{
    let Some(mutation) = slice.mutations.get(it.mutation) else {
        return Ok((
            Change::empty(alloc, slice.next),
            done_on(alloc, it.mutation, stamp),
        ));
    };
    let mutations = decided_mutation(alloc, it.mutation, mutation, MutationState::Refused)?;
    let mut change = Change::empty(alloc, slice.next);
    change.put.mutations = mutations;
    Ok((change, done_on(alloc, it.mutation, stamp)))
}

/// Returns the mutation in its new state, under its number.
fn decided_mutation(
    alloc: Global,
    number: u64,
    mutation: &MutationRecord,
    state: MutationState,
) -> Result<Sequence<(u64, MutationRecord)>, AllocError>
    ensures { IfOk result (λ it. it ≡ (number, decided_mutation state mutation.now) ∷ []) }
{
    let mut decided_mutation = mutation.copy(alloc)?;
    decided_mutation.state = state;
    Sequence::of_one(alloc, (number, decided_mutation))
}
