//! Acts for the tests of limits.
use super::asked::{Asked, content};
use super::{ANNA, GARDEN, Right};
use crate::core_types::text;
use crate::shape::SQUARE;
use land_core::act::{Burden, BurdenClass, Lodging, NewParcel, NewRight, NewUnit};
use land_core::sequence::Sequence;
use land_fraction::Fraction;
use land_shape::read_wkt;
use std::alloc::{AllocError, Global};
use std::test::Fail;

/// The texts of a first registration: the name of the unit, the title of the document, and the label of the
/// parcels; and the number of parcels.
#[derive(Clone, Copy)]
pub(super) struct Draft<'a> {
    pub name: &'a str,
    pub document: &'a str,
    pub label: &'a str,
    pub parcels: usize,
}

fn parcel(alloc: Global, label: &str) -> Result<NewParcel, Fail> {
    Ok(NewParcel {
        label: text(alloc, label)?,
        outline: read_wkt(alloc, SQUARE)?,
    })
}

fn parcels(alloc: Global, draft: &Draft<'_>) -> Result<Sequence<NewParcel>, Fail> {
    let mut parcels = Vec::new(alloc);
    for _ in 0..draft.parcels {
        parcels.push(parcel(alloc, draft.label)?)?;
    }
    Ok(Sequence::from_vec(parcels))
}

/// Returns a first registration from a draft, without rights.
fn without_rights(alloc: Global, draft: &Draft<'_>) -> Result<NewUnit, Fail> {
    Ok(NewUnit {
        name: text(alloc, draft.name)?,
        checked: true,
        document: text(alloc, draft.document)?,
        parcels: parcels(alloc, draft)?,
        rights: Sequence::new(alloc),
    })
}

fn right(it: &Right) -> Result<NewRight, Fail> {
    Ok(NewRight {
        party: it.0,
        right_type: it.1,
        share: Fraction::new(it.2, it.3)?,
    })
}

fn add_rights(unit: &mut NewUnit, rights: &[Right]) -> Result<(), Fail> {
    for it in rights {
        unit.rights.push(right(it)?)?;
    }
    Ok(())
}

pub(super) fn registration(
    alloc: Global,
    draft: &Draft<'_>,
    rights: &[Right],
) -> Result<NewUnit, Fail> {
    let mut unit = without_rights(alloc, draft)?;
    add_rights(&mut unit, rights)?;
    Ok(unit)
}

/// Returns a burden of Anna on the garden with these words and this title of the document.
pub(super) fn burden(
    alloc: Global,
    class: BurdenClass,
    words: &str,
    document: &str,
) -> Result<Burden, AllocError> {
    Ok(Burden {
        unit: GARDEN,
        party: ANNA,
        class,
        words: text(alloc, words)?,
        document: text(alloc, document)?,
    })
}

/// Returns a lodging under this reference, with this title of the document.
pub(super) fn lodging(
    alloc: Global,
    reference: &str,
    document: &str,
    it: &Asked,
) -> Result<Lodging, Fail> {
    Ok(Lodging {
        reference: text(alloc, reference)?,
        document: text(alloc, document)?,
        content: content(alloc, it)?,
    })
}
