//! Mutations: contents as rows write them, the lodgings that they denote, and mutations in one line.
use crate::asked::text;
use crate::stop::Stop;
use land_core::act::{Lodging, NewParcel};
use land_core::content::{Content, Discharge, Mortgage, Transfer};
use land_core::merger::Merger;
use land_core::mutation::Mutation;
use land_core::sequence::{NumberList, Sequence};
use land_core::subdivision::{Part, Subdivision};
use land_core::text::Text;
use land_fraction::Fraction;
use land_shape::{Ring, read_wkt};
use std::alloc::{AllocError, Global};

/// A parcel's label and outline.
pub struct RowParcel(pub &'static str, pub &'static str);

/// A part's label and outline, and the name of its new unit, if any.
pub struct RowPart(pub &'static str, pub &'static str, pub Option<&'static str>);

/// The content of a mutation of a row.
pub enum RowContent {
    /// A unit, a right, a receiver, and the numerator and denominator of a share.
    Transfer(u64, u64, u64, u64, u64),
    /// A unit and a parcel, the first part and the others.
    Subdivision(u64, u64, RowParcel, &'static [RowPart]),
    /// A unit, others, parcels, and the new parcel.
    Merger(u64, &'static [u64], &'static [u64], RowParcel),
    /// A unit, a creditor, and an amount of euros in cents.
    Mortgage(u64, u64, u64),
    /// A unit and a mortgage.
    Discharge(u64, u64),
}

fn transfer(unit: u64, right: u64, receiver: u64, n: u64, d: u64) -> Result<Content, Stop> {
    Ok(Content::Transfer(Transfer {
        unit,
        right,
        receiver,
        share: Fraction::new(n, d)?,
    }))
}

fn new_parcel(alloc: Global, it: &RowParcel) -> Result<NewParcel, Stop> {
    Ok(NewParcel {
        label: text(alloc, it.0)?,
        outline: read_wkt(alloc, it.1)?,
    })
}

fn unit_name(alloc: Global, name: Option<&str>) -> Result<Option<Text>, AllocError> {
    match name {
        Some(name) => Ok(Some(text(alloc, name)?)),
        None => Ok(None),
    }
}

fn part(alloc: Global, it: &RowPart) -> Result<Part, Stop> {
    Ok(Part {
        label: text(alloc, it.0)?,
        outline: read_wkt(alloc, it.1)?,
        unit: unit_name(alloc, it.2)?,
    })
}

fn parts(alloc: Global, rows: &[RowPart]) -> Result<Sequence<Part>, Stop> {
    let mut parts = Sequence::new(alloc);
    for row in rows {
        parts.push(part(alloc, row)?)?;
    }
    Ok(parts)
}

fn subdivision(
    alloc: Global,
    unit: u64,
    parcel: u64,
    first: &RowParcel,
    rest: &[RowPart],
) -> Result<Content, Stop> {
    Ok(Content::Subdivision(Subdivision {
        unit,
        parcel,
        first: new_parcel(alloc, first)?,
        rest: parts(alloc, rest)?,
    }))
}

fn numbers(alloc: Global, rows: &[u64]) -> Result<NumberList, AllocError> {
    Ok(Sequence::from_vec(Vec::from_slice(alloc, rows)?))
}

fn merger(
    alloc: Global,
    unit: u64,
    others: &[u64],
    parcels: &[u64],
    new: &RowParcel,
) -> Result<Content, Stop> {
    Ok(Content::Merger(Merger {
        unit,
        others: numbers(alloc, others)?,
        parcels: numbers(alloc, parcels)?,
        label: text(alloc, new.0)?,
        outline: read_wkt(alloc, new.1)?,
    }))
}

fn mortgage(alloc: Global, unit: u64, creditor: u64, amount: u64) -> Result<Content, Stop> {
    Ok(Content::Mortgage(Mortgage {
        unit,
        creditor,
        amount,
        currency: text(alloc, "EUR")?,
    }))
}

fn content(alloc: Global, it: &RowContent) -> Result<Content, Stop> {
    match it {
        RowContent::Transfer(unit, right, receiver, n, d) => {
            transfer(*unit, *right, *receiver, *n, *d)
        }
        RowContent::Subdivision(unit, parcel, first, rest) => {
            subdivision(alloc, *unit, *parcel, first, rest)
        }
        RowContent::Merger(unit, others, parcels, new) => {
            merger(alloc, *unit, others, parcels, new)
        }
        RowContent::Mortgage(unit, creditor, amount) => mortgage(alloc, *unit, *creditor, *amount),
        RowContent::Discharge(unit, mortgage) => Ok(Content::Discharge(Discharge {
            unit: *unit,
            mortgage: *mortgage,
        })),
    }
}

pub fn lodging(
    alloc: Global,
    reference: &str,
    document: &str,
    it: &RowContent,
) -> Result<Lodging, Stop> {
    Ok(Lodging {
        reference: text(alloc, reference)?,
        document: text(alloc, document)?,
        content: content(alloc, it)?,
    })
}

fn write_transfer(line: &mut String, it: &Transfer) -> Result<(), AllocError> {
    write!(
        line,
        " Transfer {} of {} in {} to {}",
        it.share, it.right, it.unit, it.receiver
    )
}

fn write_outline(line: &mut String, label: &Text, outline: &Ring) -> Result<(), AllocError> {
    let outline = outline.write_wkt()?;
    write!(line, " {} {}", label.as_str(), outline.as_str())
}

fn write_part(line: &mut String, it: &Part) -> Result<(), AllocError> {
    write_outline(line, &it.label, &it.outline)?;
    match &it.unit {
        Some(name) => write!(line, " in {}", name.as_str()),
        None => Ok(()),
    }
}

fn write_subdivision(line: &mut String, it: &Subdivision) -> Result<(), AllocError> {
    write!(line, " Subdivision {} in {}:", it.parcel, it.unit)?;
    write_outline(line, &it.first.label, &it.first.outline)?;
    for part in it.rest.as_slice() {
        write_part(line, part)?;
    }
    Ok(())
}

fn write_merger(line: &mut String, it: &Merger) -> Result<(), AllocError> {
    let (others, parcels) = (it.others.as_slice(), it.parcels.as_slice());
    write!(
        line,
        " Merger {:?} in {} and {:?}:",
        parcels, it.unit, others
    )?;
    write_outline(line, &it.label, &it.outline)
}

fn write_mortgage(line: &mut String, it: &Mortgage) -> Result<(), AllocError> {
    write!(
        line,
        " Mortgage {} {} on {} of {}",
        it.amount,
        it.currency.as_str(),
        it.unit,
        it.creditor
    )
}

fn write_content(line: &mut String, content: &Content) -> Result<(), AllocError> {
    match content {
        Content::Transfer(it) => write_transfer(line, it),
        Content::Subdivision(it) => write_subdivision(line, it),
        Content::Merger(it) => write_merger(line, it),
        Content::Mortgage(it) => write_mortgage(line, it),
        Content::Discharge(it) => write!(line, " Discharge {} on {}", it.mortgage, it.unit),
    }
}

pub fn write_mutation(line: &mut String, it: &Mutation) -> Result<(), AllocError> {
    write!(
        line,
        "mutation {} {} of {} from {}",
        it.number,
        it.reference.as_str(),
        it.lodger,
        it.source
    )?;
    write!(line, " at {}: {:?}", it.lodged, it.state)?;
    write_content(line, &it.content)
}
