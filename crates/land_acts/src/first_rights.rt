//! Checks of the rights with which a unit is registered.
ghost use Rattle.std.specs.Prelude.{◌≡◌, IfOk};
ghost use Rattle.std.specs.List.{list_any};
ghost use Rattle.land_acts.specs.FirstRights.{are_types_too_fine, are_types_whole, has_right_twice};
ghost use Rattle.land_acts.specs.FirstRights.{rights_list_party, is_same_right, listed_of_type};
ghost use Rattle.land_acts.specs.FirstRights.{lists_absent_party};
ghost use Rattle.land_acts.specs.Sharing.{is_too_fine};
ghost use Rattle.land_core.specs.Entries.{are_distinct};
ghost use Rattle.land_core.specs.Units.{are_whole_or_none};
ghost use Rattle.land_fraction.specs.Wholeness.{wholeness};

use crate::slice::Slice;
use land_core::act::NewRight;
use land_core::kind::Kind;
use land_core::rrr::RightType;
use land_fraction::{Fraction, Whole, is_whole};
use std::alloc::{AllocError, Global};

/// Returns whether one of the rights is of this party.
pub(crate) fn rights_list_party(rights: &[NewRight], number: u64) -> bool
    ensures { result ≡ rights_list_party rights.now number }
{
    rights.iter().any(|right| number == right.party)
}

/// Returns whether one of the rights is of a party that does not exist.
pub(crate) fn lists_absent_party(slice: &Slice, rights: &[NewRight]) -> bool
    ensures { result ≡ lists_absent_party slice.now rights.now }
{
    rights
        .iter()
        .any(|right| !slice.stands(Kind::Party, right.party))
}

/// Returns whether the shares of some type have no common denominator up to 1,000,000,000, so that their sum
/// is not checked.
pub(crate) fn are_types_too_fine(alloc: Global, rights: &[NewRight]) -> Result<bool, AllocError>
    ensures { IfOk result (λ it. it ≡ are_types_too_fine rights.now) }
{
    Ok(
        is_type_too_fine(alloc, rights, RightType::Ownership)?
            || is_type_too_fine(alloc, rights, RightType::Lease)?
            || is_type_too_fine(alloc, rights, RightType::Usufruct)?,
    )
}

fn is_type_too_fine(
    alloc: Global,
    rights: &[NewRight],
    right_type: RightType,
) -> Result<bool, AllocError>
    ensures { IfOk result (λ it. it ≡ is_too_fine (wholeness (listed_of_type right_type rights.now))) }
{
    let shares = listed_of_type(alloc, rights, right_type)?;
    Ok(is_whole(shares.as_slice()) == Whole::TooFine)
}

/// Returns whether the shares of each type that occurs sum to one.
pub(crate) fn are_types_whole(alloc: Global, rights: &[NewRight]) -> Result<bool, AllocError>
    ensures { IfOk result (λ it. it ≡ are_types_whole rights.now) }
{
    Ok(
        is_type_whole(alloc, rights, RightType::Ownership)?
            && is_type_whole(alloc, rights, RightType::Lease)?
            && is_type_whole(alloc, rights, RightType::Usufruct)?,
    )
}

fn is_type_whole(
    alloc: Global,
    rights: &[NewRight],
    right_type: RightType,
) -> Result<bool, AllocError>
    ensures { IfOk result (λ it. it ≡ are_whole_or_none (listed_of_type right_type rights.now)) }
{
    let shares = listed_of_type(alloc, rights, right_type)?;
    Ok(shares.is_empty() || is_whole(shares.as_slice()) == Whole::Yes)
}

/// Returns the shares of the rights of a type, in their order.
fn listed_of_type(
    alloc: Global,
    rights: &[NewRight],
    right_type: RightType,
) -> Result<Vec<Fraction>, AllocError>
    ensures { IfOk result (λ it. it.items ≡ listed_of_type right_type rights.now) }
{
    let mut shares = Vec::new(alloc);
    for right in rights {
        if right.right_type.is(right_type) {
            shares.push(right.share)?;
        }
    }
    Ok(shares)
}

/// Returns whether a party has two rights of one type.
pub(crate) fn has_right_twice(rights: &[NewRight]) -> bool
    ensures { result ≡ has_right_twice rights.now }
{
    !are_pairwise_distinct(rights)
}

/// Returns whether no party has two rights of one type.
fn are_pairwise_distinct(rights: &[NewRight]) -> bool
    ensures { result ≡ are_distinct is_same_right rights.now }
{
    match rights.split_first() {
        Some((first, rest)) => !has_same_right(first, rest) && are_pairwise_distinct(rest),
        None => true,
    }
}

fn has_same_right(right: &NewRight, others: &[NewRight]) -> bool
    ensures { result ≡ list_any (is_same_right right.now) others.now }
{
    others.iter().any(|other| right.party == other.party && right.right_type.is(other.right_type))
}
