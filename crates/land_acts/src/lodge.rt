//! The act `lodge`: a mutation is filed with its document.
ghost use Rattle.std.specs.Prelude.{◌≡◌, ◌≤◌, ◌∷◌, [], IfOk};
ghost use Rattle.land_acts.specs.Lodging.{document_kind, has_lodged_other, has_title, ascending_pair};
ghost use Rattle.land_acts.specs.Lodging.{is_same_lodging, lodge_change, lodge_done, lodge_refusals};
ghost use Rattle.land_acts.specs.Lodging.{lodge_repeat, new_mutation_record, receipt_of_lodging};
ghost use Rattle.land_acts.specs.Mutations.Planning.{IsPlanOf, first_refusal_of};

use crate::mutations::planning::{document_source, runs_out_of_numbers};
use crate::mutations::refusal::Refusal;
use crate::slice::Slice;
use land_core::act::Lodging;
use land_core::caller::Caller;
use land_core::change::{Change, Done};
use land_core::content::Content;
use land_core::duplicate::Duplicate;
use land_core::mutation::{MutationRecord, MutationState};
use land_core::sequence::{NumberList, Sequence};
use land_core::source::SourceKind;
use std::alloc::{AllocError, Global};

/// Returns the receipt of an earlier lodging if this one repeats it: a lodging of the same caller under the
/// same reference, with the same document and the same content. The only error is out of memory.
pub(crate) fn repeat(
    alloc: Global,
    slice: &Slice,
    caller: Caller,
    it: &Lodging,
) -> Result<Option<Done>, AllocError>
    ensures { IfOk result (λ told. told ≡ lodge_repeat slice.now caller it.now) }
{
    for (number, mutation) in slice.mutations.iter() {
        if mutation.is_lodged_as(caller.party, it.reference.as_str()) {
            if is_same_lodging(slice, it, mutation) {
                return Ok(Some(receipt_of_lodging(alloc, *number, mutation)?));
            }
            return Ok(None);
        }
    }
    Ok(None)
}

/// Returns whether the caller has lodged another document or content under the reference.
fn has_lodged_other(slice: &Slice, caller: Caller, it: &Lodging) -> bool
    ensures { result ≡ has_lodged_other slice.now caller it.now }
{
    for (_, mutation) in slice.mutations.iter() {
        if mutation.is_lodged_as(caller.party, it.reference.as_str()) {
            return !is_same_lodging(slice, it, mutation);
        }
    }
    false
}

/// Returns whether a mutation was lodged with the same document and the same content.
fn is_same_lodging(slice: &Slice, it: &Lodging, mutation: &MutationRecord) -> bool
    ensures { result ≡ is_same_lodging slice.now it.now mutation.now }
{
    has_title(slice, mutation.source, it.document.as_str()) && mutation.content.is_same(&it.content)
}

/// Returns whether a source exists and has this title.
fn has_title(slice: &Slice, source: u64, title: &str) -> bool
    ensures { result ≡ has_title slice.now source title.now }
{
    match slice.sources.get(source) {
        Some(source) => source.title.as_str() == title,
        None => false,
    }
}

/// Returns the receipt that a lodging got.
fn receipt_of_lodging(
    alloc: Global,
    number: u64,
    mutation: &MutationRecord,
) -> Result<Done, AllocError>
    ensures { IfOk result (λ told. told ≡ receipt_of_lodging (number, mutation.now)) }
{
    Ok(Done {
        number,
        made: ascending_pair(alloc, mutation.source, number)?,
        stamp: mutation.lodged,
    })
}

/// Returns two numbers in ascending order.
fn ascending_pair(alloc: Global, number: u64, other: u64) -> Result<NumberList, AllocError>
    ensures { IfOk result (λ it. it ≡ ascending_pair number other) }
{
    let (first, second) = if other < number {
        (other, number)
    } else {
        (number, other)
    };
    two_numbers(alloc, first, second)
}

fn two_numbers(alloc: Global, first: u64, second: u64) -> Result<NumberList, AllocError>
    ensures { IfOk result (λ it. it ≡ first ∷ second ∷ []) }
{
    let mut numbers = Sequence::of_one(alloc, first)?;
    numbers.push(second)?;
    Ok(numbers)
}

/// Returns the first refusal of a lodging whose condition holds: 210, 214 or 217.
pub(crate) fn refusal(
    slice: &Slice,
    caller: Caller,
    it: &Lodging,
    stamp: Option<i64>,
) -> Option<Refusal>
    ensures { result ≡ first_refusal_of (lodge_refusals slice.now caller it.now stamp) }
{
    if runs_out_of_numbers(slice, 2) {
        Some(Refusal::TooMany)
    } else if has_lodged_other(slice, caller, it) {
        Some(Refusal::ReferenceUsed)
    } else if stamp.is_none() {
        Some(Refusal::ClockOut)
    } else {
        None
    }
}

/// Returns the change, with the source and the mutation under the next two numbers, and the receipt.
pub(crate) fn plan_of(
    alloc: Global,
    slice: &Slice,
    caller: Caller,
    it: &Lodging,
    stamp: i64,
) -> Result<(Change, Done), AllocError>
    requires { slice.now.next ≤ 999_999_999 }
    ensures { IfOk result (IsPlanOf (lodge_change slice.now caller it.now stamp)
        (lodge_done slice.now stamp)) }
{
    let source = slice.next;
    let number = source + 1;
    let sources = document_source(alloc, source, document_kind(&it.content), &it.document)?;
    let mutation = new_mutation(alloc, caller, it, source, stamp)?;
    let mutations = Sequence::of_one(alloc, (number, mutation))?;
    let made = two_numbers(alloc, source, number)?;
    let mut change = Change::empty(alloc, source + 2);
    change.put.sources = sources;
    change.put.mutations = mutations;
    Ok((
        change,
        Done {
            number,
            made,
            stamp,
        },
    ))
}

/// Returns the kind of the document: a plan if the content has outlines, else a deed.
fn document_kind(content: &Content) -> SourceKind
    ensures { result ≡ document_kind content.now }
{
    match content {
        Content::Subdivision(_) | Content::Merger(_) => SourceKind::Spatial,
        Content::Transfer(_) | Content::Mortgage(_) | Content::Discharge(_) => {
            SourceKind::Administrative
        }
    }
}

/// Returns the new mutation, undecided.
fn new_mutation(
    alloc: Global,
    caller: Caller,
    it: &Lodging,
    source: u64,
    stamp: i64,
) -> Result<MutationRecord, AllocError>
    ensures { IfOk result (λ mutation. mutation ≡ new_mutation_record caller it.now source stamp) }
{
    Ok(MutationRecord {
        lodger: caller.party,
        reference: it.reference.copy(alloc)?,
        source,
        lodged: stamp,
        state: MutationState::Lodged,
        content: it.content.copy(alloc)?,
    })
}
