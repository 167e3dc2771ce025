//! The refusals of acts, and the plan of an act that is not refused.
ghost use Rattle.std.specs.Prelude.{◌≡◌};

use land_core::change::{Change, Done};
use std::alloc::AllocError;

/// The reason for which an act is refused. Each condition has its number in replies.
#[derive(Clone, Copy, Debug, PartialEq, Eq)]
pub enum Refusal {
    /// 201: there is no undecided mutation at the number.
    NotLodged,
    /// 202: a unit to which the act refers does not exist.
    NoSuchUnit,
    /// 203: a parcel to which the act refers does not exist in these units.
    NoSuchParcel,
    /// 204: an entry to which the act refers does not exist, or has another class.
    NoSuchRight,
    /// 205: a party to which the act refers does not exist, or has another kind.
    NoSuchParty,
    /// 206: the share is above that of the right, or the receiver would have more than one.
    ShareTooLarge,
    /// 207: the shares have no common denominator up to 1,000,000,000.
    SharesTooFine,
    /// 209: a unit that is to end has a parcel that is not listed, differs in being checked, or has other
    /// entries.
    UnitsUnlike,
    /// 210: a new number would be above 1,000,000,000, or a unit would have more than 256 parcels or entries.
    TooMany,
    /// 211: the creditor does not hold the role bank.
    NotBank,
    /// 212: the entry is not a mortgage.
    NotMortgage,
    /// 213: the shares do not sum to one.
    SharesNotWhole,
    /// 214: the caller has lodged another document or content under the reference.
    ReferenceUsed,
    /// 215: the party already holds the role.
    RoleHeld,
    /// 216: the party does not hold the role.
    RoleNotHeld,
    /// 217: no later stamp exists.
    ClockOut,
    /// 218: no other party is state administrator.
    LastAdministrator,
    /// 219: a party occurs twice.
    SameParty,
    /// 220: the new outlines do not cover exactly the ground of the old ones.
    NotMatched,
    /// 221: the mandate exists already.
    MandateHeld,
    /// 222: the mandate does not exist.
    NoMandate,
    /// 501: out of memory.
    NoMemory,
}

impl Refusal {
    ghost use Rattle.land_acts.specs.Mutations.Planning.{refusal_number};

    /// Returns the number of the refusal in replies.
    pub fn number(self) -> u16
        ensures { result ≡ refusal_number self }
    {
        match self {
            Refusal::NotLodged => 201,
            Refusal::NoSuchUnit => 202,
            Refusal::NoSuchParcel => 203,
            Refusal::NoSuchRight => 204,
            Refusal::NoSuchParty => 205,
            Refusal::ShareTooLarge => 206,
            Refusal::SharesTooFine => 207,
            Refusal::UnitsUnlike => 209,
            Refusal::TooMany => 210,
            Refusal::NotBank => 211,
            Refusal::NotMortgage => 212,
            Refusal::SharesNotWhole => 213,
            Refusal::ReferenceUsed => 214,
            Refusal::RoleHeld => 215,
            Refusal::RoleNotHeld => 216,
            Refusal::ClockOut => 217,
            Refusal::LastAdministrator => 218,
            Refusal::SameParty => 219,
            Refusal::NotMatched => 220,
            Refusal::MandateHeld => 221,
            Refusal::NoMandate => 222,
            Refusal::NoMemory => 501,
        }
    }
}

impl From<AllocError> for Refusal {
    ghost use Rattle.land_acts.specs.declared.mutations.refusal.Refusal.TheVariants.{NoMemory};

    ghost from_gives = { λ _ refusal. refusal ≡ NoMemory };

    fn from(_error: AllocError) -> Refusal {
        Refusal::NoMemory
    }
}

/// The plan of an act that is not refused.
#[derive(Debug, Drop)]
pub enum Planned {
    /// A change, and the receipt.
    New(Change, Done),
    /// The receipt of the first time: the act repeats an earlier one.
    Repeat(Done),
}
