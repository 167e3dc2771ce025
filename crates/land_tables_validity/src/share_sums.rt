//! Conditions on the values of a unit that are current together: shares sum to one, and there are at most 256
//! parcels and 256 entries.
ghost use Rattle.std.specs.List.{list_any};
ghost use Rattle.std.specs.Prelude.{◌≡◌, IfOk};
ghost use Rattle.land_core.specs.Units.{are_whole_or_none};
ghost use Rattle.land_tables_validity.specs.Holdings.{are_few, are_shares_whole, class_holding};
ghost use Rattle.land_tables_validity.specs.Holdings.{is_checked_unit};
ghost use Rattle.land_tables_validity.specs.Holdings.{is_entry, is_parcel_holding, is_unit_holding};
ghost use Rattle.land_tables_validity.specs.Holdings.{right_holding};
ghost use Rattle.land_tables_validity.specs.Holdings.{holding_share};
ghost use Rattle.land_tables_validity.specs.Holdings.{holding_shares};
ghost use Rattle.land_tables_validity.specs.LiveSpan.{span_values, if_any_marked};

use land_core::rrr::{Class, RightType};
use land_fraction::{Fraction, Whole, is_whole};
use land_tables_history::sweeps::sweep::LiveSpan;
use std::alloc::{AllocError, Global};

/// A value of a unit, as needed for the check.
#[derive(Clone, Copy, Debug, PartialEq, Eq, PartialOrd, Ord)]
pub(crate) enum Holding {
    /// The unit itself.
    Unit {
        /// Whether its shares must sum to one.
        checked: bool,
    },
    /// A parcel.
    Parcel,
    /// An ownership.
    Ownership {
        /// The share.
        share: Fraction,
    },
    /// A lease.
    Lease {
        /// The share.
        share: Fraction,
    },
    /// A usufruct.
    Usufruct {
        /// The share.
        share: Fraction,
    },
    /// An entry that is not a right.
    Other,
}

impl Holding {
    /// Returns the value of an entry, by its class.
    pub(crate) fn of_class(class: &Class) -> Holding
        ensures { result ≡ class_holding class.now }
    {
        match class {
            Class::Right { right_type, share } => Holding::of_right(*right_type, *share),
            _ => Holding::Other,
        }
    }

    fn of_right(right_type: RightType, share: Fraction) -> Holding
        ensures { result ≡ right_holding right_type share }
    {
        match right_type {
            RightType::Ownership => Holding::Ownership { share },
            RightType::Lease => Holding::Lease { share },
            RightType::Usufruct => Holding::Usufruct { share },
        }
    }

    fn is_unit(self) -> bool
        ensures { result ≡ is_unit_holding self }
    {
        match self {
            Holding::Unit { .. } => true,
            _ => false,
        }
    }

    fn is_checked(self) -> bool
        ensures { result ≡ is_checked_unit self }
    {
        match self {
            Holding::Unit { checked } => checked,
            _ => false,
        }
    }

    fn is_parcel(self) -> bool
        ensures { result ≡ is_parcel_holding self }
    {
        match self {
            Holding::Parcel => true,
            _ => false,
        }
    }

    fn is_entry(self) -> bool
        ensures { result ≡ is_entry self }
    {
        match self {
            Holding::Unit { .. } | Holding::Parcel => false,
            _ => true,
        }
    }

    /// Returns the share of a right of this type, `None` for other values.
    fn share_of(self, wanted: RightType) -> Option<Fraction>
        ensures { result ≡ holding_share wanted self }
    {
        match (wanted, self) {
            (RightType::Ownership, Holding::Ownership { share })
            | (RightType::Lease, Holding::Lease { share })
            | (RightType::Usufruct, Holding::Usufruct { share }) => Some(share),
            _ => None,
        }
    }
}

/// Returns whether there are at most 256 parcels and 256 entries, if the unit itself is current. If there are
/// at most 256 values in all, this is so without counting.
pub(crate) fn are_few_in_unit(there: &[LiveSpan<Holding>]) -> bool
    ensures { result ≡ if_any_marked is_unit_holding are_few (span_values there.now) }
{
    if there.len() <= 256 {
        return true;
    }
    !has_unit(there) || are_few(there)
}

fn has_unit(there: &[LiveSpan<Holding>]) -> bool
    ensures { result ≡ list_any is_unit_holding (span_values there.now) }
{
    there.iter().any(|one| one.what.is_unit())
}

fn has_checked(there: &[LiveSpan<Holding>]) -> bool
    ensures { result ≡ list_any is_checked_unit (span_values there.now) }
{
    there.iter().any(|one| one.what.is_checked())
}

/// Returns whether there are at most 256 parcels and at most 256 entries.
fn are_few(there: &[LiveSpan<Holding>]) -> bool
    ensures { result ≡ are_few (span_values there.now) }
{
    let mut parcels: usize = 0;
    let mut entries: usize = 0;
    for one in there {
        parcels += usize::from(one.what.is_parcel());
        entries += usize::from(one.what.is_entry());
        if parcels > 256 || entries > 256 {
            return false;
        }
    }
    true
}

/// Returns whether the shares of each type of right that occurs sum to one, if the unit is current and
/// checked. Returns an error only if it is out of memory.
pub(crate) fn are_whole_in_checked_unit(
    alloc: Global,
    there: &[LiveSpan<Holding>],
) -> Result<bool, AllocError>
    ensures { IfOk result
        (λ it. it ≡ if_any_marked is_checked_unit are_shares_whole (span_values there.now)) }
{
    Ok(!has_checked(there) || are_shares_whole(alloc, there)?)
}

fn are_shares_whole(alloc: Global, there: &[LiveSpan<Holding>]) -> Result<bool, AllocError>
    ensures { IfOk result (λ it. it ≡ are_shares_whole (span_values there.now)) }
{
    Ok(
        is_type_whole(alloc, there, RightType::Ownership)?
            && is_type_whole(alloc, there, RightType::Lease)?
            && is_type_whole(alloc, there, RightType::Usufruct)?,
    )
}

fn is_type_whole(
    alloc: Global,
    there: &[LiveSpan<Holding>],
    right_type: RightType,
) -> Result<bool, AllocError>
    ensures { IfOk result (λ it. it ≡ are_whole_or_none (holding_shares right_type (span_values there.now))) }
{
    let shares = shares_of(alloc, there, right_type)?;
    Ok(are_whole_or_none(shares.as_slice()))
}

/// Returns the shares of the rights of this type. Allocates only if there are any.
fn shares_of(
    alloc: Global,
    there: &[LiveSpan<Holding>],
    right_type: RightType,
) -> Result<Vec<Fraction>, AllocError>
    ensures { IfOk result (λ it. it.items ≡ holding_shares right_type (span_values there.now)) }
{
    let mut shares = Vec::new(alloc);
    for one in there {
        if let Some(share) = one.what.share_of(right_type) {
            shares.push(share)?;
        }
    }
    Ok(shares)
}

fn are_whole_or_none(shares: &[Fraction]) -> bool
    ensures { result ≡ are_whole_or_none shares.now }
{
    shares.is_empty() || is_whole(shares) == Whole::Yes
}
