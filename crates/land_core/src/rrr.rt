//! Rights, restrictions, responsibilities and mortgages (LA_RRR): the entries of units.
ghost use Rattle.std.specs.Prelude.{◌≡◌};
ghost use Rattle.land_core.specs.Units.{is_right_in, is_type, rank_of, share_in_unit, type_of};

use crate::duplicate::Duplicate;
use crate::text::Text;
use land_fraction::Fraction;
use std::alloc::{AllocError, Global};

/// The type of a right (LA_RightType).
#[derive(Clone, Copy, Debug, PartialEq, Eq)]
pub enum RightType {
    /// To own.
    Ownership,
    /// To use for rent.
    Lease,
    /// To use and to take the fruits.
    Usufruct,
}

impl RightType {
    /// Checks if two types are equal.
    pub fn is(self, other: RightType) -> bool
        ensures { result ≡ is_type self other }
    {
        match (self, other) {
            (RightType::Ownership, RightType::Ownership)
            | (RightType::Lease, RightType::Lease)
            | (RightType::Usufruct, RightType::Usufruct) => true,
            _ => false,
        }
    }
}

/// The class of an entry, with the data of that class.
#[derive(Debug, Drop)]
pub enum Class {
    /// A right to a share of the unit (LA_Right).
    Right {
        /// The type of the right.
        right_type: RightType,
        /// The share of its party.
        share: Fraction,
    },
    /// A duty of its party to refrain or to tolerate (LA_Restriction).
    Restriction {
        /// The wording: 1 to 200 characters.
        words: Text,
    },
    /// A duty of its party to act (LA_Responsibility).
    Responsibility {
        /// The wording: 1 to 200 characters.
        words: Text,
    },
    /// A loan that the unit secures; its party is the creditor (LA_Mortgage).
    Mortgage {
        /// The amount in minor units: 1 to 1_000_000_000_000_000.
        amount: u64,
        /// The currency: three letters from A to Z (ISO 4217).
        currency: Text,
        /// The rank among the mortgages of the unit, from 1.
        rank: u64,
    },
}

impl Class {
    ghost use Rattle.land_core.specs.Units.{is_right_of, share_of};

    /// Returns the type of a right; `None` for another class.
    pub fn right_type(&self) -> Option<RightType>
        ensures { result ≡ type_of self.now }
    {
        match self {
            Class::Right { right_type, .. } => Some(*right_type),
            _ => None,
        }
    }

    /// Returns the rank of a mortgage; `None` for another class.
    pub fn rank(&self) -> Option<u64>
        ensures { result ≡ rank_of self.now }
    {
        match self {
            Class::Mortgage { rank, .. } => Some(*rank),
            _ => None,
        }
    }

    /// Checks if it is a right of this type.
    pub fn is_right_of(&self, wanted: RightType) -> bool
        ensures { result ≡ is_right_of wanted self.now }
    {
        match self {
            Class::Right { right_type, .. } => right_type.is(wanted),
            _ => false,
        }
    }

    /// Returns the share of a right of this type, else `None`.
    pub fn share_of(&self, wanted: RightType) -> Option<Fraction>
        ensures { result ≡ share_of wanted self.now }
    {
        match self {
            Class::Right { right_type, share } if right_type.is(wanted) => Some(*share),
            _ => None,
        }
    }
}

impl Duplicate for Class {
    fn copy(&self, alloc: Global) -> Result<Class, AllocError> {
        match self {
            Class::Right { right_type, share } => Ok(Class::Right {
                right_type: *right_type,
                share: *share,
            }),
            Class::Restriction { words } => Ok(Class::Restriction {
                words: words.copy(alloc)?,
            }),
            Class::Responsibility { words } => Ok(Class::Responsibility {
                words: words.copy(alloc)?,
            }),
            Class::Mortgage {
                amount,
                currency,
                rank,
            } => Ok(Class::Mortgage {
                amount: *amount,
                currency: currency.copy(alloc)?,
                rank: *rank,
            }),
        }
    }
}

/// The record of an entry, stored by its number.
#[derive(Debug, Drop)]
pub struct RrrRecord {
    /// The number of its unit.
    pub unit: u64,
    /// The number of its party: the holder of the right or the duty, or the creditor.
    pub party: u64,
    /// The class.
    pub class: Class,
    /// The number of its source.
    pub source: u64,
}

impl RrrRecord {
    /// Checks if it is a right of a type in a unit.
    pub fn is_right_in(&self, unit: u64, right_type: RightType) -> bool
        ensures { result ≡ is_right_in unit right_type self.now }
    {
        self.unit == unit && self.class.is_right_of(right_type)
    }

    /// Returns the share of a right of this type in this unit, else `None`.
    pub fn share_in(&self, unit: u64, right_type: RightType) -> Option<Fraction>
        ensures { result ≡ share_in_unit unit right_type self.now }
    {
        if self.unit == unit {
            self.class.share_of(right_type)
        } else {
            None
        }
    }
}

impl Duplicate for RrrRecord {
    fn copy(&self, alloc: Global) -> Result<RrrRecord, AllocError> {
        Ok(RrrRecord {
            unit: self.unit,
            party: self.party,
            class: self.class.copy(alloc)?,
            source: self.source,
        })
    }
}

/// An entry: its record with its number.
#[derive(Debug, Drop)]
pub struct Rrr {
    /// Its number.
    pub number: u64,
    /// The number of its unit.
    pub unit: u64,
    /// The number of its party: the holder of the right or the duty, or the creditor.
    pub party: u64,
    /// The class.
    pub class: Class,
    /// The number of its source.
    pub source: u64,
}

impl Duplicate for Rrr {
    fn copy(&self, alloc: Global) -> Result<Rrr, AllocError> {
        Ok(Rrr {
            number: self.number,
            unit: self.unit,
            party: self.party,
            class: self.class.copy(alloc)?,
            source: self.source,
        })
    }
}
