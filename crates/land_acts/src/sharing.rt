//! Checks of the members that an act lists.
ghost use Rattle.std.specs.Prelude.{◌≡◌, IfOk};
ghost use Rattle.land_acts.specs.Sharing.{listed_shares, lists_party, lists_no_single_party, lists_twice};
ghost use Rattle.land_acts.specs.Sharing.{members_of_list, same_party};
ghost use Rattle.land_core.specs.Entries.{are_distinct};
ghost use Rattle.land_fraction.specs.Wholeness.{wholeness};

use crate::slice::Slice;
use land_core::member::{Member, Members};
use land_core::records::Records;
use land_fraction::{Fraction, Whole, is_whole};
use std::alloc::{AllocError, Global};

/// Returns whether a party is listed.
pub(crate) fn lists_party(members: &[Member], number: u64) -> bool
    ensures { result ≡ lists_party members.now number }
{
    members.iter().any(|member| number == member.party)
}

/// Returns whether a listed number is not that of a single party.
pub(crate) fn lists_no_single_party(slice: &Slice, members: &[Member]) -> bool
    ensures { result ≡ lists_no_single_party slice.now members.now }
{
    members
        .iter()
        .any(|member| !slice.has_single_party(member.party))
}

/// Returns whether the listed shares sum to one, or that they have no common denominator. The only error is
/// out of memory.
pub(crate) fn wholeness(alloc: Global, members: &[Member]) -> Result<Whole, AllocError>
    ensures { IfOk result (λ it. it ≡ wholeness (listed_shares members.now)) }
{
    let shares = listed_shares(alloc, members)?;
    Ok(is_whole(shares.as_slice()))
}

fn listed_shares(alloc: Global, members: &[Member]) -> Result<Vec<Fraction>, AllocError>
    ensures { IfOk result (λ it. it.items ≡ listed_shares members.now) }
{
    members.iter().map(|member| member.share).collect(alloc)
}

/// Returns whether a party is listed twice.
pub(crate) fn lists_twice(members: &[Member]) -> bool
    ensures { result ≡ lists_twice members.now }
{
    !are_pairwise_distinct(members)
}

/// Returns whether no party is listed twice.
fn are_pairwise_distinct(members: &[Member]) -> bool
    ensures { result ≡ are_distinct same_party members.now }
{
    match members.split_first() {
        Some((first, rest)) => !lists_party(rest, first.party) && are_pairwise_distinct(rest),
        None => true,
    }
}

/// Returns the listed members as a map, from party to share. The only error is out of memory.
pub(crate) fn members_of_list(alloc: Global, listed: &[Member]) -> Result<Members, AllocError>
    ensures { IfOk result (λ it. it ≡ members_of_list listed.now) }
{
    let mut members = Records::new(alloc);
    for member in listed {
        members.insert(member.party, member.share)?;
    }
    Ok(members)
}
