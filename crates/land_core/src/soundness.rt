//! The faults of a register that is not sound.
ghost use Rattle.std.specs.Prelude.{◌≡◌};

use std::alloc::AllocError;

mod by_unit;
pub mod check;
mod claim;
mod groups;
mod mutations;
mod units;

/// The faults of a register that is not sound.
#[derive(Clone, Copy, Debug, PartialEq, Eq)]
pub enum Unsound {
    /// A reference is invalid: a record's number is not in use; a party with a role or a member of a group is
    /// not a single party; members belong to a party that is not a group; a parcel, an entry or a mutation
    /// refers to a record that does not exist; a content is not within its limits; or a mandate is not
    /// between two different single parties.
    Reference,
    /// The shares of a type of right in a checked unit do not sum to 1.
    Shares,
    /// A group has fewer than 2 or more than 64 members, or their shares do not sum to 1.
    Group,
    /// A unit has no parcel or no owner.
    Bare,
    /// A unit has more than 256 parcels or more than 256 entries.
    Crowded,
    /// In a unit, a party has two rights of the same type, or two mortgages have the same rank.
    Twice,
    /// The rank of a mortgage is 0, or not below the next number.
    Rank,
    /// No party is state administrator.
    Administrator,
    /// A party has lodged two mutations with the same reference.
    Reused,
    /// Error: out of memory, so the check was not completed.
    Memory,
}

impl From<AllocError> for Unsound {
    ghost use Rattle.land_core.specs.declared.soundness.Unsound.TheVariants.{Memory};

    ghost from_gives = { λ _ fault. fault ≡ Memory };

    fn from(_fault: AllocError) -> Unsound {
        Unsound::Memory
    }
}
