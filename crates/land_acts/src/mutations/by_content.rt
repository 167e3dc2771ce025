//! Dispatches on the content of a mutation: its refusals, its change, and the numbers that it creates.
ghost use Rattle.std.specs.Prelude.{◌≡◌, IfOk};
ghost use Rattle.land_acts.specs.Mutations.ByContent.{StaysInRange, content_change, content_made};
ghost use Rattle.land_acts.specs.Mutations.ByContent.{content_refusals};
ghost use Rattle.land_acts.specs.Mutations.ByContent.{has_room};
ghost use Rattle.land_acts.specs.Mutations.Planning.{first_refusal_of};

use crate::mutations::planning::{Slice, numbers_from};
use crate::mutations::refusal::Refusal;
use crate::mutations::{discharge, merge, mortgage, subdivide, transfer};
use land_core::change::Change;
use land_core::content::Content;
use land_core::limits::LAST_NEXT;
use land_core::sequence::{NumberList, Sequence};
use std::alloc::{AllocError, Global};

/// Returns the first refusal of a content whose condition holds. `stamp` is the Unix time of the change in
/// milliseconds; without one, refusal 217 applies. The other error is out of memory.
pub fn refusal(
    alloc: Global,
    slice: &Slice,
    content: &Content,
    stamp: Option<i64>,
) -> Result<Option<Refusal>, AllocError>
    ensures { IfOk result (λ first. first ≡ first_refusal_of (content_refusals slice.now content.now stamp)) }
{
    match content {
        Content::Transfer(it) => transfer::refusal(alloc, slice, it, stamp),
        Content::Subdivision(it) => subdivide::refusal(alloc, slice, it, stamp),
        Content::Merger(it) => merge::refusal(alloc, slice, it, stamp),
        Content::Mortgage(it) => Ok(mortgage::refusal(slice, it, stamp)),
        Content::Discharge(it) => Ok(discharge::refusal(slice, it, stamp)),
    }
}

/// Returns the change that a content requests, if no refusal applies. `source` is the source of the mutation.
/// The only error is out of memory.
pub fn change(
    alloc: Global,
    slice: &Slice,
    source: u64,
    content: &Content,
) -> Result<Change, AllocError>
    requires { StaysInRange slice.now content.now }
    ensures { IfOk result (λ change. change ≡ content_change slice.now source content.now) }
{
    match content {
        Content::Transfer(it) => match transfer::right_at(slice, it.unit, it.right) {
            Some(from) => transfer::change(alloc, slice, source, it, &from),
            None => Ok(Change::empty(alloc, slice.next)),
        },
        Content::Subdivision(it) => subdivide::change(alloc, slice, source, it),
        Content::Merger(it) => merge::change(alloc, slice, source, it),
        Content::Mortgage(it) => mortgage::change(alloc, slice, source, it),
        Content::Discharge(it) => discharge::change(alloc, slice, it),
    }
}

/// Returns the numbers of the objects that a content creates, if no refusal applies. The only error is out of
/// memory.
pub fn created_numbers(
    alloc: Global,
    slice: &Slice,
    content: &Content,
) -> Result<NumberList, AllocError>
    requires { StaysInRange slice.now content.now }
    ensures { IfOk result (λ made. made ≡ content_made slice.now content.now) }
{
    match content {
        Content::Transfer(it) => match transfer::right_at(slice, it.unit, it.right) {
            Some(from) => transfer::created_numbers(alloc, slice, it, &from),
            None => Ok(Sequence::new(alloc)),
        },
        Content::Subdivision(it) => {
            numbers_from(alloc, slice.next, subdivide::count(slice, it) as u64)
        }
        Content::Merger(_) | Content::Mortgage(_) => Sequence::of_one(alloc, slice.next),
        Content::Discharge(_) => Ok(Sequence::new(alloc)),
    }
}

/// Returns whether the numbers and ranks that a content creates stay in range. In a sound register they do;
/// in a file that another program wrote they may not.
pub fn has_room(slice: &Slice, content: &Content) -> bool
    ensures { result ≡ has_room slice.now content.now }
{
    slice.next <= LAST_NEXT
        && match content {
            Content::Mortgage(it) => mortgage::greatest_rank(slice, it.unit) < 1_000_000_000,
            _ => true,
        }
}
