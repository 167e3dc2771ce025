//! Facts of registers and changes.
use crate::facts::lodged::Lodged;
use land_core::kind::{Kind, PartyKind};
use land_core::role::Role;
use land_core::rrr::RightType;

/// A party's number, and the numerator and denominator of its share.
pub type Share = (u64, u64, u64);

/// A party's number, the type of its right, and the numerator and denominator of its share.
pub type Right = (u64, RightType, u64, u64);

/// The class of an entry.
#[derive(Drop)]
pub enum Held {
    /// A right with the numerator and denominator of its share.
    Right(RightType, u64, u64),
    Restriction,
    Responsibility,
    /// A mortgage of this rank.
    Mortgage(u64),
}

/// A fact of a register.
#[derive(Drop)]
pub enum Fact {
    /// The next number.
    Next(u64),
    /// A party's number, kind and name.
    Party(u64, PartyKind, &'static str),
    Grant(u64, Role),
    Revoke(u64, Role),
    /// A group's number and members.
    Members(u64, &'static [Share]),
    /// A group's number, and its number of members with equal shares, with the numbers from 20 on.
    Crowd(u64, u64),
    Source(u64),
    /// A unit's number and name, and whether its shares are checked.
    Unit(u64, &'static str, bool),
    /// A parcel's number, unit, label and source.
    Parcel(u64, u64, &'static str, u64),
    /// An entry's number, unit, party, source and class.
    Rrr(u64, u64, u64, u64, Held),
    /// A mutation's number, and how it was lodged.
    Mutation(u64, Lodged),
    /// A mandate that is given: its principal and its agent.
    Mandate(u64, u64),
    /// A mandate that is withdrawn.
    Withdrawn(u64, u64),
    /// An object that is removed.
    Ended(Kind, u64),
}

/// The outline of each parcel.
pub const SQUARE: &str = "POLYGON ((0 0, 10 0, 10 10, 0 10, 0 0))";
