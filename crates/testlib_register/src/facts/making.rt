//! Builds the records of facts.
use crate::facts::facts::{Held, SQUARE, Share};
use land_core::kind::PartyKind;
use land_core::member::Members;
use land_core::parcel::ParcelRecord;
use land_core::party::PartyRecord;
use land_core::records::Records;
use land_core::rrr::{Class, RrrRecord};
use land_core::source::{SourceKind, SourceRecord};
use land_core::text::Text;
use land_core::unit::UnitRecord;
use land_fraction::Fraction;
use land_shape::read_wkt;
use std::alloc::{AllocError, Global};
use testlib_cases::stop::Stop;

/// Returns a text of a record.
pub fn text(alloc: Global, text: &str) -> Result<Text, AllocError> {
    Ok(Text::new(String::from_str(alloc, text)?))
}

/// Returns a party of this kind and name.
pub(crate) fn party(alloc: Global, kind: PartyKind, name: &str) -> Result<PartyRecord, Stop> {
    Ok(PartyRecord {
        kind,
        name: text(alloc, name)?,
    })
}

/// Returns members with these shares.
pub(crate) fn members(alloc: Global, shares: &[Share]) -> Result<Members, Stop> {
    let mut members = Records::new(alloc);
    for (party, n, d) in shares {
        members.insert(*party, Fraction::new(*n, *d)?)?;
    }
    Ok(members)
}

/// Returns this number of members with equal shares, with the numbers from 20 on.
pub(crate) fn crowd(alloc: Global, count: u64) -> Result<Members, Stop> {
    let share = Fraction::new(1, count)?;
    let mut members = Records::new(alloc);
    for place in 0..count {
        members.insert(place.saturating_add(20), share)?;
    }
    Ok(members)
}

/// Returns a document with the title Deed 1.
pub(crate) fn source(alloc: Global) -> Result<SourceRecord, Stop> {
    Ok(SourceRecord {
        kind: SourceKind::Administrative,
        title: text(alloc, "Deed 1")?,
    })
}

/// Returns a unit with this name, with checked shares or not.
pub(crate) fn unit(alloc: Global, name: &str, checked: bool) -> Result<UnitRecord, Stop> {
    Ok(UnitRecord {
        name: text(alloc, name)?,
        checked,
    })
}

/// Returns a parcel whose outline is a square.
pub(crate) fn parcel(
    alloc: Global,
    unit: u64,
    label: &str,
    source: u64,
) -> Result<ParcelRecord, Stop> {
    Ok(ParcelRecord {
        unit,
        label: text(alloc, label)?,
        outline: read_wkt(alloc, SQUARE)?,
        source,
    })
}

/// The class of an entry.
fn class(alloc: Global, held: &Held) -> Result<Class, Stop> {
    Ok(match held {
        Held::Right(right_type, n, d) => Class::Right {
            right_type: *right_type,
            share: Fraction::new(*n, *d)?,
        },
        Held::Restriction => Class::Restriction {
            words: text(alloc, "No fence")?,
        },
        Held::Responsibility => Class::Responsibility {
            words: text(alloc, "Cuts the hedge")?,
        },
        Held::Mortgage(rank) => Class::Mortgage {
            amount: 2_500_000,
            currency: text(alloc, "EUR")?,
            rank: *rank,
        },
    })
}

/// Returns an entry.
pub(crate) fn rrr(
    alloc: Global,
    unit: u64,
    party: u64,
    source: u64,
    held: &Held,
) -> Result<RrrRecord, Stop> {
    Ok(RrrRecord {
        unit,
        party,
        class: class(alloc, held)?,
        source,
    })
}
