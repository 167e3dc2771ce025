//! The contents of mutations.
ghost use Rattle.std.specs.Prelude.{◌≡◌};
ghost use Rattle.land_core.specs.Contents.{are_letters, is_amount, is_capital, is_currency, is_discharge};
ghost use Rattle.land_core.specs.Contents.{is_mortgage, is_same_discharge, is_same_mortgage};
ghost use Rattle.land_core.specs.Contents.{is_same_transfer, is_transfer};

use crate::duplicate::Duplicate;
use crate::limits::is_number;
use crate::merger::{Merger, lists_number};
use crate::subdivision::Subdivision;
use crate::text::Text;
use land_fraction::Fraction;
use std::alloc::{AllocError, Global};

/// Transfers a share of a unit from a right to a receiver.
#[derive(Clone, Copy, Debug)]
pub struct Transfer {
    /// The unit's number.
    pub unit: u64,
    /// The number of the right from which the share is transferred.
    pub right: u64,
    /// The number of the receiving party.
    pub receiver: u64,
    /// The share, as a part of the whole unit.
    pub share: Fraction,
}

/// Mortgages a unit as security for a loan.
#[derive(Debug, Drop)]
pub struct Mortgage {
    /// The unit's number.
    pub unit: u64,
    /// The number of the lending party.
    pub creditor: u64,
    /// The amount in minor units: 1 to 1_000_000_000_000_000.
    pub amount: u64,
    /// The currency: three letters from A to Z (ISO 4217).
    pub currency: Text,
}

/// Discharges a mortgage.
#[derive(Clone, Copy, Debug)]
pub struct Discharge {
    /// The unit's number.
    pub unit: u64,
    /// The mortgage's number.
    pub mortgage: u64,
}

/// The change that a mutation requests.
#[derive(Debug, Drop)]
pub enum Content {
    /// Transfers a share of a unit from a right to a receiver.
    Transfer(Transfer),
    /// Divides a parcel of a unit into parts.
    Subdivision(Subdivision),
    /// Merges parcels of a unit and of other units, which end.
    Merger(Merger),
    /// Mortgages a unit as security for a loan.
    Mortgage(Mortgage),
    /// Discharges a mortgage.
    Discharge(Discharge),
}

impl Content {
    ghost use Rattle.land_core.specs.Contents.{is_same_content, is_well_formed_content, content_names_unit};

    /// Checks if each field is within its limits.
    pub fn is_well_formed(&self) -> bool
        ensures { result ≡ is_well_formed_content self.now }
    {
        match self {
            Content::Transfer(it) => it.is_well_formed(),
            Content::Subdivision(it) => it.is_well_formed(),
            Content::Merger(it) => it.is_well_formed(),
            Content::Mortgage(it) => it.is_well_formed(),
            Content::Discharge(it) => it.is_well_formed(),
        }
    }

    /// Checks if two contents are equal.
    pub fn is_same(&self, other: &Content) -> bool
        ensures { result ≡ is_same_content self.now other.now }
    {
        match (self, other) {
            (Content::Transfer(it), Content::Transfer(other)) => it.is_same(other),
            (Content::Subdivision(it), Content::Subdivision(other)) => it.is_same(other),
            (Content::Merger(it), Content::Merger(other)) => it.is_same(other),
            (Content::Mortgage(it), Content::Mortgage(other)) => it.is_same(other),
            (Content::Discharge(it), Content::Discharge(other)) => it.is_same(other),
            _ => false,
        }
    }

    /// Checks if it refers to the unit.
    pub fn names_unit(&self, unit: u64) -> bool
        ensures { result ≡ content_names_unit unit self.now }
    {
        match self {
            Content::Transfer(it) => it.unit == unit,
            Content::Subdivision(it) => it.unit == unit,
            Content::Merger(it) => it.unit == unit || lists_number(it.others.as_slice(), unit),
            Content::Mortgage(it) => it.unit == unit,
            Content::Discharge(it) => it.unit == unit,
        }
    }
}

impl Transfer {
    fn is_well_formed(&self) -> bool
        ensures { result ≡ is_transfer self.now }
    {
        is_number(self.unit) && is_number(self.right) && is_number(self.receiver)
    }

    fn is_same(&self, other: &Transfer) -> bool
        ensures { result ≡ is_same_transfer self.now other.now }
    {
        self.unit == other.unit
            && self.right == other.right
            && self.receiver == other.receiver
            && self.share.numerator() == other.share.numerator()
            && self.share.denominator() == other.share.denominator()
    }
}

impl Mortgage {
    fn is_well_formed(&self) -> bool
        ensures { result ≡ is_mortgage self.now }
    {
        is_number(self.unit)
            && is_number(self.creditor)
            && is_amount(self.amount)
            && is_currency(self.currency.as_str())
    }

    fn is_same(&self, other: &Mortgage) -> bool
        ensures { result ≡ is_same_mortgage self.now other.now }
    {
        self.unit == other.unit
            && self.creditor == other.creditor
            && self.amount == other.amount
            && self.currency.as_str() == other.currency.as_str()
    }
}

impl Discharge {
    fn is_well_formed(&self) -> bool
        ensures { result ≡ is_discharge self.now }
    {
        is_number(self.unit) && is_number(self.mortgage)
    }

    fn is_same(&self, other: &Discharge) -> bool
        ensures { result ≡ is_same_discharge self.now other.now }
    {
        self.unit == other.unit && self.mortgage == other.mortgage
    }
}

/// Checks if an amount is 1 to 1_000_000_000_000_000 minor units.
pub fn is_amount(amount: u64) -> bool
    ensures { result ≡ is_amount amount }
{
    1 <= amount && amount <= 1_000_000_000_000_000
}

/// Checks if a text is three letters A to Z (ISO 4217).
pub fn is_currency(text: &str) -> bool
    ensures { result ≡ is_currency text.now }
{
    text.len() == 3 && are_letters(text.as_bytes())
}

fn are_letters(bytes: &[u8]) -> bool
    ensures { result ≡ are_letters bytes.now }
{
    bytes.iter().all(|byte| is_capital(*byte))
}

fn is_capital(byte: u8) -> bool
    ensures { result ≡ is_capital byte }
{
    65 <= byte && byte <= 90
}

impl Duplicate for Content {
    fn copy(&self, alloc: Global) -> Result<Content, AllocError> {
        match self {
            Content::Transfer(it) => Ok(Content::Transfer(*it)),
            Content::Subdivision(it) => Ok(Content::Subdivision(it.copy(alloc)?)),
            Content::Merger(it) => Ok(Content::Merger(it.copy(alloc)?)),
            Content::Mortgage(it) => Ok(Content::Mortgage(it.copy(alloc)?)),
            Content::Discharge(it) => Ok(Content::Discharge(*it)),
        }
    }
}

impl Duplicate for Mortgage {
    fn copy(&self, alloc: Global) -> Result<Mortgage, AllocError> {
        Ok(Mortgage {
            unit: self.unit,
            creditor: self.creditor,
            amount: self.amount,
            currency: self.currency.copy(alloc)?,
        })
    }
}
