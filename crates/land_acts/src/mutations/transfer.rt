//! The content `transfer`: a share of a right goes to another party.
ghost use Rattle.std.specs.Prelude.{◌≡◌, ◌≤◌, ◌++◌, ◌∷◌, [], nat_lt, false, is_none, IfOk, OnOk};
ghost use Rattle.std.specs.Option.{option_map_or};
ghost use Rattle.land_acts.specs.Mutations.Planning.{first_refusal_of};
ghost use Rattle.land_acts.specs.Mutations.Transferring.{are_too_fine, are_too_fine_after, are_too_many};
ghost use Rattle.land_acts.specs.Mutations.Transferring.{ended_rights, right_of_receiver, right_at};
ghost use Rattle.land_acts.specs.Mutations.Transferring.{right_by_party, right_in_unit};
ghost use Rattle.land_acts.specs.Mutations.Transferring.{right_of_class, is_above, is_above_one, is_checked};
ghost use Rattle.land_acts.specs.Mutations.Transferring.{is_right_held_by, gives_to_itself, is_too_fine};
ghost use Rattle.land_acts.specs.Mutations.Transferring.{is_too_large};
ghost use Rattle.land_acts.specs.Mutations.Transferring.{move_change, new_rights, number_after};
ghost use Rattle.land_acts.specs.Mutations.Transferring.{remaining_entry};
ghost use Rattle.land_acts.specs.Mutations.Transferring.{entries_of_receiver, right_entry, increased_share};
ghost use Rattle.land_acts.specs.Mutations.Transferring.{remaining_share};
ghost use Rattle.land_acts.specs.Mutations.Transferring.{transfer_refusals};
ghost use Rattle.land_acts.specs.declared.mutations.refusal.Refusal.TheVariants.{ClockOut, SameParty};
ghost use Rattle.land_core.specs.Changes.{after};
ghost use Rattle.land_core.specs.Numbers.{last_next};
ghost use Rattle.land_core.specs.Units.{rrr_count, type_shares};
ghost use Rattle.land_fraction.specs.Wholeness.{common_of};

use crate::mutations::planning::{Slice, runs_out_of_numbers};
use crate::mutations::refusal::Refusal;
use land_core::change::Change;
use land_core::content::Transfer;
use land_core::contents::{rrr_count, type_shares};
use land_core::kind::Kind;
use land_core::rrr::{Class, RightType, RrrRecord};
use land_core::sequence::{NumberList, Sequence};
use land_fraction::{Fraction, FractionFault, common};
use std::alloc::{AllocError, Global};
use std::cmp::Ordering;

/// A right in a unit.
#[derive(Clone, Copy, Debug)]
pub struct HeldRight {
    /// The number of the entry.
    pub number: u64,
    /// The party that has the right.
    pub party: u64,
    /// Its type.
    pub right_type: RightType,
    /// Its share.
    pub share: Fraction,
}

/// Returns the first refusal of a transfer whose condition holds: 202, 204, 205, 206, 207, 210, 217 or 219.
/// The other error is out of memory.
pub(crate) fn refusal(
    alloc: Global,
    slice: &Slice,
    it: &Transfer,
    stamp: Option<i64>,
) -> Result<Option<Refusal>, AllocError>
    ensures { IfOk result (λ first. first ≡ first_refusal_of (transfer_refusals slice.now it.now stamp)) }
{
    if !slice.stands(Kind::Unit, it.unit) {
        return Ok(Some(Refusal::NoSuchUnit));
    }
    let Some(from) = right_at(slice, it.unit, it.right) else {
        return Ok(Some(Refusal::NoSuchRight));
    };
    if !slice.stands(Kind::Party, it.receiver) {
        return Ok(Some(Refusal::NoSuchParty));
    }
    if is_too_large(slice, it, &from) {
        return Ok(Some(Refusal::ShareTooLarge));
    }
    if are_too_fine(alloc, slice, it, &from)? {
        return Ok(Some(Refusal::SharesTooFine));
    }
    if are_too_many(alloc, slice, it, &from)? {
        return Ok(Some(Refusal::TooMany));
    }
    Ok(last_refusal(it, &from, stamp))
}

/// Returns the refusals after 210: 217 or 219.
fn last_refusal(it: &Transfer, from: &HeldRight, stamp: Option<i64>) -> Option<Refusal>
    ensures { result ≡ first_refusal_of
        ((ClockOut, is_none stamp) ∷ (SameParty, gives_to_itself it.now from.now)
        ∷ []) }
{
    if stamp.is_none() {
        Some(Refusal::ClockOut)
    } else if gives_to_itself(it, from) {
        Some(Refusal::SameParty)
    } else {
        None
    }
}

// ---- the rights of giver and receiver

/// Returns the right of this unit that exists at a number.
pub(crate) fn right_at(slice: &Slice, unit: u64, number: u64) -> Option<HeldRight>
    ensures { result ≡ right_at slice.now unit number }
{
    match slice.rrrs.get(number) {
        Some(entry) => right_in_unit(unit, number, entry),
        None => None,
    }
}

/// Returns an entry as a right, if it is a right of this unit.
fn right_in_unit(unit: u64, number: u64, entry: &RrrRecord) -> Option<HeldRight>
    ensures { result ≡ right_in_unit unit number entry.now }
{
    if entry.unit == unit {
        right_of_class(number, entry.party, &entry.class)
    } else {
        None
    }
}

/// Returns an entry as a right, if it is one.
fn right_of_class(number: u64, party: u64, class: &Class) -> Option<HeldRight>
    ensures { result ≡ right_of_class number party class.now }
{
    match class {
        Class::Right { right_type, share } => Some(HeldRight {
            number,
            party,
            right_type: *right_type,
            share: *share,
        }),
        _ => None,
    }
}

/// Returns the right of the same type that the receiver already has.
fn right_of_receiver(slice: &Slice, it: &Transfer, from: &HeldRight) -> Option<HeldRight>
    ensures { result ≡ right_of_receiver slice.now it.now from.now }
{
    right_by_party(slice, it.unit, it.receiver, from.right_type)
}

/// Returns the right of a type that a party has in a unit. There is at most one.
fn right_by_party(slice: &Slice, unit: u64, party: u64, right_type: RightType) -> Option<HeldRight>
    ensures { result ≡ right_by_party slice.now unit party right_type }
{
    for (number, entry) in slice.rrrs.iter() {
        if let Some(held) = right_in_unit(unit, *number, entry) {
            if is_right_held_by(&held, party, right_type) {
                return Some(held);
            }
        }
    }
    None
}

fn is_right_held_by(held: &HeldRight, party: u64, right_type: RightType) -> bool
    ensures { result ≡ is_right_held_by party right_type held.now }
{
    held.party == party && held.right_type.is(right_type)
}

// ---- the refusals

/// Returns whether the receiver is the party that gives.
fn gives_to_itself(it: &Transfer, from: &HeldRight) -> bool
    ensures { result ≡ gives_to_itself it.now from.now }
{
    from.party == it.receiver
}

/// Returns whether the share is above that of the right, or another receiver would have more than one.
fn is_too_large(slice: &Slice, it: &Transfer, from: &HeldRight) -> bool
    ensures { result ≡ is_too_large slice.now it.now from.now }
{
    is_above(it, from) || !gives_to_itself(it, from) && exceeds_one(slice, it, from)
}

/// Returns whether the share is above that of the right.
fn is_above(it: &Transfer, from: &HeldRight) -> bool
    ensures { result ≡ is_above it.now from.now }
{
    match from.share.cmp(&it.share) {
        Ordering::Less => true,
        Ordering::Equal | Ordering::Greater => false,
    }
}

/// Returns whether the receiver would have more than one.
fn exceeds_one(slice: &Slice, it: &Transfer, from: &HeldRight) -> bool
    ensures { result ≡ option_map_or (λ to. is_above_one (increased_share it.now to))
        (right_of_receiver slice.now it.now from.now) false }
{
    match right_of_receiver(slice, it, from) {
        Some(to) => is_above_one(to.share.plus(it.share)),
        None => false,
    }
}

/// Returns whether a sum of two shares is above one. Such a sum is never zero.
fn is_above_one(share: Result<Fraction, FractionFault>) -> bool
    ensures { result ≡ is_above_one share }
{
    match share {
        Err(FractionFault::Zero | FractionFault::AboveOne) => true,
        Ok(_) | Err(FractionFault::TooFine) => false,
    }
}

/// Returns whether the denominator of a changed share is above 1,000,000,000.
fn is_too_fine(share: Result<Fraction, FractionFault>) -> bool
    ensures { result ≡ is_too_fine share }
{
    match share {
        Err(FractionFault::TooFine) => true,
        Ok(_) | Err(FractionFault::Zero | FractionFault::AboveOne) => false,
    }
}

/// Returns whether the denominator of the receiver's new share is above 1,000,000,000.
fn becomes_too_fine(slice: &Slice, it: &Transfer, from: &HeldRight) -> bool
    ensures { result ≡ option_map_or (λ to. is_too_fine (increased_share it.now to))
        (right_of_receiver slice.now it.now from.now) false }
{
    match right_of_receiver(slice, it, from) {
        Some(to) => is_too_fine(to.share.plus(it.share)),
        None => false,
    }
}

/// Returns whether a changed share is too fine, or the unit is checked and its shares of the type would be.
fn are_too_fine(
    alloc: Global,
    slice: &Slice,
    it: &Transfer,
    from: &HeldRight,
) -> Result<bool, AllocError>
    ensures { IfOk result (λ are. are ≡ are_too_fine slice.now it.now from.now) }
{
    if gives_to_itself(it, from) {
        return Ok(false);
    }
    if is_too_fine(from.share.minus(it.share)) || becomes_too_fine(slice, it, from) {
        return Ok(true);
    }
    if !is_checked(slice, it.unit) {
        return Ok(false);
    }
    are_too_fine_after(alloc, slice, it, from)
}

/// Returns whether a unit exists and is checked.
pub(crate) fn is_checked(slice: &Slice, unit: u64) -> bool
    ensures { result ≡ is_checked slice.now unit }
{
    match slice.units.get(unit) {
        Some(unit) => unit.checked,
        None => false,
    }
}

/// Returns whether the shares of the type in the unit have no common denominator up to 1,000,000,000 after
/// the transfer. The only error is out of memory.
fn are_too_fine_after(
    alloc: Global,
    slice: &Slice,
    it: &Transfer,
    from: &HeldRight,
) -> Result<bool, AllocError>
    ensures { IfOk result (λ are. are ≡ are_too_fine_after slice.now it.now from.now) }
{
    let changed = after_move(alloc, slice, it, from)?;
    have_no_common_denominator(alloc, &changed, it.unit, from.right_type)
}

/// Returns the slice after the transfer, except for its next number. The only error is out of memory.
fn after_move(
    alloc: Global,
    slice: &Slice,
    it: &Transfer,
    from: &HeldRight,
) -> Result<Slice, AllocError>
    ensures { IfOk result (λ changed. changed
        ≡ after (record (move_change slice.now 0 it.now from.now) { next = slice.now.next }) slice.now) }
{
    let change = change_of_entries(alloc, slice, 0, it, from)?;
    slice.with_change(alloc, &change)
}

/// Returns whether the shares of a type in a unit have no common denominator up to 1,000,000,000.
fn have_no_common_denominator(
    alloc: Global,
    slice: &Slice,
    unit: u64,
    right_type: RightType,
) -> Result<bool, AllocError>
    ensures { IfOk result (λ lack. lack ≡ is_none (common_of (type_shares slice.now unit right_type))) }
{
    let shares = type_shares(alloc, slice, unit, right_type)?;
    Ok(common(shares.as_slice()).is_none())
}

/// Returns whether the receiver needs a new right, and either no number is left for it or the unit would have
/// more than 256 entries.
fn are_too_many(
    alloc: Global,
    slice: &Slice,
    it: &Transfer,
    from: &HeldRight,
) -> Result<bool, AllocError>
    ensures { IfOk result (λ are. are ≡ are_too_many slice.now it.now from.now) }
{
    if right_of_receiver(slice, it, from).is_some() {
        return Ok(false);
    }
    if runs_out_of_numbers(slice, 1) {
        return Ok(true);
    }
    has_too_many_entries_after(alloc, slice, it, from)
}

/// Returns whether the unit has more than 256 entries after the transfer. The only error is out of memory.
fn has_too_many_entries_after(
    alloc: Global,
    slice: &Slice,
    it: &Transfer,
    from: &HeldRight,
) -> Result<bool, AllocError>
    ensures { IfOk result (λ is_crowded. is_crowded
        ≡ nat_lt 256 (rrr_count (after (move_change slice.now 0 it.now from.now) slice.now) it.now.unit)) }
{
    let changed = after_move(alloc, slice, it, from)?;
    Ok(256 < rrr_count(&changed, it.unit))
}

// ---- the effect

/// Returns the change of a transfer from a right. The only error is out of memory.
pub(crate) fn change(
    alloc: Global,
    slice: &Slice,
    source: u64,
    it: &Transfer,
    from: &HeldRight,
) -> Result<Change, AllocError>
    requires { number_after slice.now (right_of_receiver slice.now it.now from.now) ≤ last_next }
    ensures { IfOk result (λ change. change ≡ move_change slice.now source it.now from.now) }
{
    let mut change = change_of_entries(alloc, slice, source, it, from)?;
    if right_of_receiver(slice, it, from).is_none() {
        change.next = slice.next + 1;
    }
    Ok(change)
}

/// Returns the same change without its next number.
fn change_of_entries(
    alloc: Global,
    slice: &Slice,
    source: u64,
    it: &Transfer,
    from: &HeldRight,
) -> Result<Change, AllocError>
    ensures { IfOk result (λ change. change
        ≡ record (move_change slice.now source it.now from.now) { next = slice.now.next }) }
{
    let ended = ended_rights(alloc, it, from)?;
    let mut rrrs = remaining_entry(alloc, source, it, from)?;
    receive(&mut rrrs, slice, source, it, from)?;
    let mut change = Change::empty(alloc, slice.next);
    change.put.rrrs = rrrs;
    change.ended.rrrs = ended;
    Ok(change)
}

/// Returns the right with its remaining share, or nothing if no share remains.
fn remaining_entry(
    alloc: Global,
    source: u64,
    it: &Transfer,
    from: &HeldRight,
) -> Result<Sequence<(u64, RrrRecord)>, AllocError>
    ensures { IfOk result (λ rrrs.
        rrrs ≡ remaining_entry source it.now from.now (remaining_share it.now from.now)) }
{
    match from.share.minus(it.share) {
        Ok(share) => {
            let entry = right_entry(it.unit, from.party, from.right_type, share, source);
            Sequence::of_one(alloc, (from.number, entry))
        },
        Err(_) => Ok(Sequence::new(alloc)),
    }
}

/// Returns the number of the right if no share remains, because the right ends then.
fn ended_rights(alloc: Global, it: &Transfer, from: &HeldRight) -> Result<NumberList, AllocError>
    ensures { IfOk result (λ ended. ended ≡ ended_rights from.now (remaining_share it.now from.now)) }
{
    match from.share.minus(it.share) {
        Ok(_) => Ok(Sequence::new(alloc)),
        Err(_) => Sequence::of_one(alloc, from.number),
    }
}

/// Appends the receiver's right with its increased share, or a new right.
fn receive(
    rrrs: &mut Sequence<(u64, RrrRecord)>,
    slice: &Slice,
    source: u64,
    it: &Transfer,
    from: &HeldRight,
) -> Result<(), AllocError>
    ensures { OnOk result (rrrs.new ≡ rrrs.old
        ++ entries_of_receiver slice.now source it.now from.now
        (right_of_receiver slice.now it.now from.now)) }
{
    let Some(to) = right_of_receiver(slice, it, from) else {
        let entry = right_entry(it.unit, it.receiver, from.right_type, it.share, source);
        return rrrs.push((slice.next, entry));
    };
    if let Ok(share) = to.share.plus(it.share) {
        let entry = right_entry(it.unit, it.receiver, to.right_type, share, source);
        rrrs.push((to.number, entry))?;
    }
    Ok(())
}

/// Returns a right as an entry, with its source.
fn right_entry(
    unit: u64,
    party: u64,
    right_type: RightType,
    share: Fraction,
    source: u64,
) -> RrrRecord
    ensures { result ≡ right_entry unit party right_type share source }
{
    RrrRecord {
        unit,
        party,
        class: Class::Right { right_type, share },
        source,
    }
}

/// Returns the number of the new right, if the receiver has none of the type.
pub(crate) fn created_numbers(
    alloc: Global,
    slice: &Slice,
    it: &Transfer,
    from: &HeldRight,
) -> Result<NumberList, AllocError>
    ensures { IfOk result (λ made.
        made ≡ new_rights slice.now (right_of_receiver slice.now it.now from.now)) }
{
    match right_of_receiver(slice, it, from) {
        Some(_) => Ok(Sequence::new(alloc)),
        None => Sequence::of_one(alloc, slice.next),
    }
}
