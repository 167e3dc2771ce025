//! A register with one unit, its two parcels, its entries and the source of all of them.
use crate::facts::facts::{Fact, Held};
use crate::facts::lodged::{Asked, Lodged};
use land_core::kind::Kind;
use land_core::mutation::MutationState;
use land_core::rrr::RightType::{Lease, Ownership};

pub(super) const ANNA: u64 = 2;

pub(super) const BEN: u64 = 3;

pub(super) const SAM: u64 = 4;

pub(super) const DEED: u64 = 6;

pub(super) const GARDEN: u64 = 7;

pub(super) const LAWN: u64 = 8;

pub(super) const POND: u64 = 9;

/// Anna owns a half.
pub(super) const ANNAS: u64 = 10;

/// Ben owns the other half.
pub(super) const BENS: u64 = 11;

/// Sam has the lease.
pub(super) const LEASE: u64 = 12;

/// A restriction of Anna.
pub(super) const PATH: u64 = 13;

/// A responsibility of Ben.
pub(super) const HEDGE: u64 = 14;

/// A mortgage of Sam.
pub(super) const LOAN: u64 = 15;

/// The number after all of these: another unit, if it exists.
pub(super) const ORCHARD: u64 = 16;

/// No object has this number.
pub(super) const NOBODY: u64 = 99;

pub(super) const HALF: Held = Held::Right(Ownership, 1, 2);

pub(super) const ALL: Held = Held::Right(Ownership, 1, 1);

/// The garden, record by record, for Anna, Ben and Sam.
pub(super) const RECORDS: &[Fact] = &[
    Fact::Source(DEED),
    Fact::Unit(GARDEN, "Garden", true),
    Fact::Parcel(LAWN, GARDEN, "12a", DEED),
    Fact::Parcel(POND, GARDEN, "12b", DEED),
    Fact::Rrr(ANNAS, GARDEN, ANNA, DEED, HALF),
    Fact::Rrr(BENS, GARDEN, BEN, DEED, HALF),
    Fact::Rrr(LEASE, GARDEN, SAM, DEED, Held::Right(Lease, 1, 1)),
    Fact::Rrr(PATH, GARDEN, ANNA, DEED, Held::Restriction),
    Fact::Rrr(HEDGE, GARDEN, BEN, DEED, Held::Responsibility),
    Fact::Rrr(LOAN, GARDEN, SAM, DEED, Held::Mortgage(1)),
    Fact::Next(16),
];

/// A transfer of a share of Anna's half to Sam, undecided.
pub(super) const SHARE: Lodged = Lodged(
    SAM,
    "T1",
    DEED,
    MutationState::Lodged,
    Asked::Transfer(GARDEN, ANNAS, SAM, 1, 4),
);

/// Sam's mortgage, as lodged.
pub(super) const LOAN_LODGED: Lodged = Lodged(
    SAM,
    "M1",
    DEED,
    MutationState::Approved,
    Asked::Mortgage(GARDEN, SAM, 2_500_000, "EUR"),
);

/// A mutation of Anna, who is not a bank.
pub(super) const LETTER: Lodged = Lodged(
    ANNA,
    "T1",
    DEED,
    MutationState::Refused,
    Asked::Discharge(GARDEN, LOAN),
);

/// Mutations of the garden, of each content and in each state.
pub(super) const LODGED: &[Fact] = &[
    Fact::Mutation(16, SHARE),
    Fact::Mutation(17, LOAN_LODGED),
    Fact::Mutation(18, LETTER),
    Fact::Next(19),
];

/// Removes the garden's rights.
pub(super) const WITHOUT_RIGHTS: &[Fact] = &[
    Fact::Ended(Kind::Rrr, ANNAS),
    Fact::Ended(Kind::Rrr, BENS),
    Fact::Ended(Kind::Rrr, LEASE),
];

/// The pond becomes a unit of its own, which Anna owns in place of her half of the garden, and Ben all of
/// that.
pub(super) const WITH_ORCHARD: &[Fact] = &[
    Fact::Unit(ORCHARD, "Orchard", true),
    Fact::Parcel(POND, ORCHARD, "12b", DEED),
    Fact::Rrr(ANNAS, ORCHARD, ANNA, DEED, ALL),
    Fact::Rrr(BENS, GARDEN, BEN, DEED, ALL),
    Fact::Next(17),
];
