//! The claims of entries: the data that must be compatible within a unit.
ghost use Rattle.std.specs.Prelude.{◌≡◌};
ghost use Rattle.land_core.specs.ByUnit.{claim_of, claimed_share, do_claims_clash, is_claim_of};

use crate::rrr::{Class, RightType, RrrRecord};
use land_fraction::Fraction;

/// The claim of an entry, which must be compatible with the other claims in its unit.
#[derive(Clone, Copy, Debug)]
pub(crate) enum Claim {
    /// A party has a right of this type, with a share.
    Right {
        /// The holder of the right.
        party: u64,
        /// Its type.
        right_type: RightType,
        /// Its share.
        share: Fraction,
    },
    /// A mortgage has a rank.
    Mortgage {
        /// The rank.
        rank: u64,
    },
    /// No claim: a restriction or a responsibility is compatible with any other entry.
    Other,
}

impl Claim {
    /// Returns the claim of an entry.
    pub(crate) fn of(entry: &RrrRecord) -> Claim
        ensures { result ≡ claim_of entry.now }
    {
        match &entry.class {
            Class::Right { right_type, share } => Claim::Right {
                party: entry.party,
                right_type: *right_type,
                share: *share,
            },
            Class::Mortgage { rank, .. } => Claim::Mortgage { rank: *rank },
            Class::Restriction { .. } | Class::Responsibility { .. } => Claim::Other,
        }
    }

    /// Returns the share of a right of this type, else `None`.
    pub(crate) fn share_of(self, wanted: RightType) -> Option<Fraction>
        ensures { result ≡ claimed_share wanted self }
    {
        match self {
            Claim::Right {
                right_type,
                share,
                ..
            } if right_type.is(wanted) => Some(share),
            _ => None,
        }
    }

    /// Checks if it is a right of this type.
    pub(crate) fn is_right_of(self, wanted: RightType) -> bool
        ensures { result ≡ is_claim_of wanted self }
    {
        match self {
            Claim::Right { right_type, .. } => right_type.is(wanted),
            _ => false,
        }
    }

    /// Checks if two claims clash in a unit: two rights of the same type and party, or two mortgages of the
    /// same rank.
    pub(crate) fn do_clash(self, other: Claim) -> bool
        ensures { result ≡ do_claims_clash self other }
    {
        match (self, other) {
            (
                Claim::Right {
                    party,
                    right_type,
                    ..
                },
                Claim::Right {
                    party: other_party,
                    right_type: other_type,
                    ..
                },
            ) => party == other_party && right_type.is(other_type),
            (Claim::Mortgage { rank }, Claim::Mortgage { rank: other_rank }) => rank == other_rank,
            _ => false,
        }
    }
}
