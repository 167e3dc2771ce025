//! A unit as a caller sees it at a moment: the data of a title sheet.
ghost use Rattle.std.specs.Prelude.{◌≡◌, IfOk};
ghost use Rattle.land_keep.specs.Sheets.{visible_entries, name_at, parcels_at, view_at};

use land_core::caller::Caller;
use land_core::duplicate::Duplicate;
use land_core::kind::Kind;
use land_core::parcel::Parcel;
use land_core::register::Register;
use land_core::rrr::Rrr;
use land_core::sequence::Sequence;
use land_core::text::Text;
use land_core::unit::Unit;
use land_rules::rules::sees;
use land_shape::Ring;
use std::alloc::{AllocError, Global};

/// An entry with the name of its party.
#[derive(Debug, Drop)]
pub struct NamedRrr {
    /// The entry.
    pub rrr: Rrr,
    /// The name of its party.
    pub name: Text,
}

/// A unit with its parcels, and with the entries that the caller sees.
#[derive(Debug, Drop)]
pub struct View {
    /// The unit.
    pub unit: Unit,
    /// Its parcels, ordered by number.
    pub parcels: Sequence<Parcel>,
    /// Its entries in sight, ordered by number.
    pub rrrs: Sequence<NamedRrr>,
    /// The moment, in Unix milliseconds.
    pub at: i64,
}

/// Returns a unit of a register as a caller sees it, or `None` if it does not exist.
pub fn view_of(
    alloc: Global,
    register: &Register,
    caller: Caller,
    unit: u64,
    at: i64,
) -> Result<Option<View>, AllocError>
    ensures { IfOk result (λ it. it ≡ view_at register.now caller unit at) }
{
    match register.units.get(unit) {
        Some(record) => Ok(Some(View {
            unit: Unit {
                number: unit,
                name: record.name.copy(alloc)?,
                checked: record.checked,
            },
            parcels: parcels_of(alloc, register, unit)?,
            rrrs: entries_of(alloc, register, caller, unit)?,
            at,
        })),
        None => Ok(None),
    }
}

/// Returns the parcels of a unit, ordered by number.
fn parcels_of(alloc: Global, register: &Register, unit: u64) -> Result<Sequence<Parcel>, AllocError>
    ensures { IfOk result (λ it. it ≡ parcels_at register.now unit) }
{
    let mut parcels = Sequence::new(alloc);
    for (number, parcel) in register.parcels.iter() {
        if parcel.unit == unit {
            parcels.push(Parcel {
                number: *number,
                unit: parcel.unit,
                label: parcel.label.copy(alloc)?,
                outline: Ring::copy(&parcel.outline)?,
                source: parcel.source,
            })?;
        }
    }
    Ok(parcels)
}

/// Returns the entries of a unit that the caller sees, ordered by number, with the names of their parties.
fn entries_of(
    alloc: Global,
    register: &Register,
    caller: Caller,
    unit: u64,
) -> Result<Sequence<NamedRrr>, AllocError>
    ensures { IfOk result (λ it. it ≡ visible_entries register.now caller unit) }
{
    let mut entries = Sequence::new(alloc);
    for (number, entry) in register.rrrs.iter() {
        if entry.unit == unit && sees(register, caller, Kind::Rrr, *number) {
            let rrr = Rrr {
                number: *number,
                unit: entry.unit,
                party: entry.party,
                class: entry.class.copy(alloc)?,
                source: entry.source,
            };
            let name = name_of(alloc, register, entry.party)?;
            entries.push(NamedRrr { rrr, name })?;
        }
    }
    Ok(entries)
}

/// Returns the name of a party; an empty text if it does not exist.
pub(crate) fn name_of(alloc: Global, register: &Register, party: u64) -> Result<Text, AllocError>
    ensures { IfOk result (λ it. it ≡ name_at register.now party) }
{
    match register.parties.get(party) {
        Some(record) => record.name.copy(alloc),
        None => Ok(Text::new(String::new(alloc))),
    }
}
