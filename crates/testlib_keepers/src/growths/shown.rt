//! Objects and title sheets.
use crate::growths::marks::mark;
use land_core::caller::Caller;
use land_core::kind::Kind;
use land_core::object::Object;
use land_core::role::Role;
use land_keep::keeper::Keeper;
use std::alloc::Global;
use testlib_scenario::stop::{Stop, expect};

/// An object: its name, its kind and its number.
struct Shown(&'static str, Kind, u64);

const SHOWN: &[Shown] = &[
    Shown("a party", Kind::Party, 3),
    Shown("a unit", Kind::Unit, 9),
    Shown("a parcel", Kind::Parcel, 24),
    Shown("an entry", Kind::Rrr, 21),
    Shown("a source", Kind::Source, 8),
    Shown("a mutation", Kind::Mutation, 15),
];

/// Returns the number of an object.
fn number_of(object: &Object) -> u64 {
    match object {
        Object::Party(it) => it.number,
        Object::Unit(it) => it.number,
        Object::Parcel(it) => it.number,
        Object::Rrr(it) => it.number,
        Object::Source(it) => it.number,
        Object::Mutation(it) => it.number,
    }
}

/// Checks if an object exists now.
fn has_expected_object<K: Keeper>(
    alloc: Global,
    keeper: &mut K,
    shown: &Shown,
) -> Result<bool, Stop> {
    let last = keeper.last();
    match keeper.object(alloc, shown.1, shown.2, last)? {
        Some(object) => Ok(number_of(&object) == shown.2),
        None => Ok(false),
    }
}

/// Checks that each object exists now.
pub fn expect_objects<K: Keeper>(
    rt: &impl Print,
    alloc: Global,
    keeper: &mut K,
) -> Result<(), Stop> {
    for (place, shown) in SHOWN.iter().enumerate() {
        mark(rt, shown.0)?;
        expect(has_expected_object(alloc, keeper, shown)?, shown.0, place)?;
    }
    Ok(())
}

/// A title sheet of the garden: its name, the caller, its role, and the number of its entries.
struct Sheet(&'static str, u64, Role, usize);

const SHEETS: &[Sheet] = &[
    Sheet("the sheet of an owner", 3, Role::Citizen, 3),
    Sheet("the sheet of a lessee", 6, Role::Citizen, 2),
    Sheet("the sheet of a notary", 5, Role::Notary, 3),
];

/// Checks if the garden's title sheet has the given number of entries now.
fn has_expected_entries<K: Keeper>(
    alloc: Global,
    keeper: &mut K,
    sheet: &Sheet,
) -> Result<bool, Stop> {
    let last = keeper.last();
    let caller = Caller {
        party: sheet.1,
        role: sheet.2,
    };
    match keeper.view(alloc, caller, 9, last)? {
        Some(view) => Ok(view.rrrs.as_slice().len() == sheet.3),
        None => Ok(false),
    }
}

/// Checks that each title sheet has its entries.
pub fn expect_sheet_entries<K: Keeper>(
    rt: &impl Print,
    alloc: Global,
    keeper: &mut K,
) -> Result<(), Stop> {
    for (place, sheet) in SHEETS.iter().enumerate() {
        mark(rt, sheet.0)?;
        expect(has_expected_entries(alloc, keeper, sheet)?, sheet.0, place)?;
    }
    Ok(())
}
