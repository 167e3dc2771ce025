//! Writes title sheets line by line.
ghost use Rattle.std.specs.Prelude.{◌≡◌, IfOk, string_bytes};
ghost use Rattle.land_core.specs.Numbers.{IsMoment};
ghost use Rattle.land_sheet.specs.Appending.{AppendsText};
ghost use Rattle.land_sheet.specs.Dates.{civil_date};
ghost use Rattle.land_sheet.specs.Sheets.{IsSheet, area_line, checked_line, date_part, end_line, head_lines};
ghost use Rattle.land_sheet.specs.Sheets.{moment_line};
ghost use Rattle.land_sheet.specs.Sheets.{parcel_count_line, parcel_line, parcel_lines, parcel_part};
ghost use Rattle.land_sheet.specs.Sheets.{sheet_text, time_part};
ghost use Rattle.land_sheet.specs.Sheets.{class_end, entry_count_line, entry_line, entry_lines, entry_part};
ghost use Rattle.land_sheet.specs.Sheets.{entry_start};
ghost use Rattle.land_sheet.specs.Sheets.{title_line, unit_line};

use crate::areas::{doubled_areas, square_metres};
use crate::dates::date_of;
use jiff_core::civil::Date;
use land_core::parcel::Parcel;
use land_core::rrr::Class;
use land_core::unit::Unit;
use land_core::words::class_word;
use land_keep::view::{NamedRrr, View};
use std::alloc::{AllocError, Global};

/// Returns the title sheet of a unit for a caller; each line ends with a line feed. The view's moment is from
/// 0 to the last moment of 2099. Areas are exact for any number of parcels. The only error is out of memory.
pub fn title_sheet(alloc: Global, view: &View) -> Result<String, AllocError>
    requires { IsMoment view.now.at }
    ensures { IfOk result (λ text. IsSheet view.now (string_bytes text)) }
{
    let moment = view.at.unsigned_abs();
    let date = date_of(moment);
    sheet_on(alloc, view, date, moment)
}

/// The initial capacity of a sheet in bytes: enough for a unit with a parcel and a few entries.
const SHEET_CAPACITY: usize = 512;

/// Returns the sheet of a view with a date and a moment.
#[tactic(auto, unfolding(crate::specs::Sheets::sheet_text))]
fn sheet_on(alloc: Global, view: &View, date: Date, moment: u64) -> Result<String, AllocError>
    ensures { IfOk result (λ text. string_bytes text ≡ sheet_text view.now (civil_date date) moment) }
{
    let mut text = String::with_capacity(alloc, SHEET_CAPACITY)?;
    push_head(&mut text, &view.unit, date, moment)?;
    push_parcel_part(&mut text, alloc, view.parcels.as_slice())?;
    push_entry_part(&mut text, view.rrrs.as_slice())?;
    push_end(&mut text)?;
    Ok(text)
}

/// Writes the lines before the area.
#[tactic(auto, unfolding(crate::specs::Sheets::head_lines))]
fn push_head(text: &mut String, unit: &Unit, date: Date, moment: u64) -> Result<(), AllocError>
    ensures { AppendsText result text.old text.new (head_lines unit.now (civil_date date) moment) }
{
    push_title(text)?;
    push_unit(text, unit)?;
    push_moment(text, date, moment)?;
    push_checked(text, unit.checked)
}

#[tactic(auto, unfolding(crate::specs::Sheets::title_line))]
fn push_title(text: &mut String) -> Result<(), AllocError>
    ensures { AppendsText result text.old text.new title_line }
{
    text.push_str("TITLE SHEET\n")
}

#[tactic(auto, unfolding(crate::specs::Sheets::end_line))]
fn push_end(text: &mut String) -> Result<(), AllocError>
    ensures { AppendsText result text.old text.new end_line }
{
    text.push_str("END\n")
}

#[tactic(auto, unfolding(crate::specs::Sheets::unit_line))]
fn push_unit(text: &mut String, unit: &Unit) -> Result<(), AllocError>
    ensures { AppendsText result text.old text.new (unit_line unit.now) }
{
    let number = unit.number;
    let name = unit.name.as_str();
    write!(text, "Unit {number} {name}\n")
}

#[tactic(auto, unfolding(crate::specs::Sheets::moment_line))]
fn push_moment(text: &mut String, date: Date, moment: u64) -> Result<(), AllocError>
    ensures { AppendsText result text.old text.new (moment_line (civil_date date) moment) }
{
    push_date(text, date)?;
    push_time(text, moment)
}

#[tactic(auto, unfolding(crate::specs::Sheets::date_part))]
fn push_date(text: &mut String, date: Date) -> Result<(), AllocError>
    ensures { AppendsText result text.old text.new (date_part (civil_date date)) }
{
    let year = date.year.unsigned_abs();
    let month = date.month;
    let day = date.day;
    write!(text, "At {year:04}-{month:02}-{day:02}T")
}

#[tactic(auto, unfolding(crate::specs::Sheets::time_part))]
fn push_time(text: &mut String, moment: u64) -> Result<(), AllocError>
    ensures { AppendsText result text.old text.new (time_part moment) }
{
    let hours = moment / 3_600_000 % 24;
    let minutes = moment / 60_000 % 60;
    let seconds = moment / 1000 % 60;
    let rest = moment % 1000;
    write!(text, "{hours:02}:{minutes:02}:{seconds:02}.{rest:03}Z\n")
}

fn push_checked(text: &mut String, checked: bool) -> Result<(), AllocError>
    ensures { AppendsText result text.old text.new (checked_line checked) }
{
    if checked {
        text.push_str("Shares checked\n")
    } else {
        text.push_str("Shares unchecked\n")
    }
}

/// Writes the area and the parcels.
#[tactic(auto, unfolding(crate::specs::Sheets::parcel_part))]
fn push_parcel_part(text: &mut String, alloc: Global, parcels: &[Parcel]) -> Result<(), AllocError>
    ensures { AppendsText result text.old text.new (parcel_part parcels.now) }
{
    push_area(text, alloc, parcels)?;
    push_parcel_count(text, parcels)?;
    push_parcels(text, alloc, parcels)
}

#[tactic(auto, unfolding(crate::specs::Sheets::area_line))]
fn push_area(text: &mut String, alloc: Global, parcels: &[Parcel]) -> Result<(), AllocError>
    ensures { AppendsText result text.old text.new (area_line parcels.now) }
{
    let area = square_metres(alloc, doubled_areas(parcels))?;
    let area = area.as_str();
    write!(text, "Area {area}\n")
}

#[tactic(auto, unfolding(crate::specs::Sheets::parcel_count_line))]
fn push_parcel_count(text: &mut String, parcels: &[Parcel]) -> Result<(), AllocError>
    ensures { AppendsText result text.old text.new (parcel_count_line parcels.now) }
{
    let count = parcels.len();
    write!(text, "Parcels {count}\n")
}

fn push_parcels(text: &mut String, alloc: Global, parcels: &[Parcel]) -> Result<(), AllocError>
    ensures { AppendsText result text.old text.new (parcel_lines parcels.now) }
{
    for parcel in parcels {
        push_parcel(text, alloc, parcel)?;
    }
    Ok(())
}

#[tactic(auto, unfolding(crate::specs::Sheets::parcel_line))]
fn push_parcel(text: &mut String, alloc: Global, parcel: &Parcel) -> Result<(), AllocError>
    ensures { AppendsText result text.old text.new (parcel_line parcel.now) }
{
    let number = parcel.number;
    let area = square_metres(alloc, u128::from(parcel.outline.doubled_area()))?;
    let area = area.as_str();
    let label = parcel.label.as_str();
    write!(text, "{number:>10}  {area:>20}  {label}\n")
}

/// Writes the entries that the caller sees.
#[tactic(auto, unfolding(crate::specs::Sheets::entry_part))]
fn push_entry_part(text: &mut String, entries: &[NamedRrr]) -> Result<(), AllocError>
    ensures { AppendsText result text.old text.new (entry_part entries.now) }
{
    push_entry_count(text, entries)?;
    push_entries(text, entries)
}

#[tactic(auto, unfolding(crate::specs::Sheets::entry_count_line))]
fn push_entry_count(text: &mut String, entries: &[NamedRrr]) -> Result<(), AllocError>
    ensures { AppendsText result text.old text.new (entry_count_line entries.now) }
{
    let count = entries.len();
    write!(text, "Entries {count}\n")
}

fn push_entries(text: &mut String, entries: &[NamedRrr]) -> Result<(), AllocError>
    ensures { AppendsText result text.old text.new (entry_lines entries.now) }
{
    for entry in entries {
        push_entry(text, entry)?;
    }
    Ok(())
}

#[tactic(auto, unfolding(crate::specs::Sheets::entry_line))]
fn push_entry(text: &mut String, entry: &NamedRrr) -> Result<(), AllocError>
    ensures { AppendsText result text.old text.new (entry_line entry.now) }
{
    push_entry_start(text, entry)?;
    push_class_end(text, &entry.rrr.class)
}

/// Writes an entry's number, class and party.
#[tactic(auto, unfolding(crate::specs::Sheets::entry_start))]
fn push_entry_start(text: &mut String, entry: &NamedRrr) -> Result<(), AllocError>
    ensures { AppendsText result text.old text.new (entry_start entry.now) }
{
    let number = entry.rrr.number;
    let class = class_word(&entry.rrr.class);
    let party = entry.rrr.party;
    let name = entry.name.as_str();
    write!(text, "{number:>10}  {class:<14}  {party:>10} {name}: ")
}

/// Writes an entry's content.
fn push_class_end(text: &mut String, class: &Class) -> Result<(), AllocError>
    ensures { AppendsText result text.old text.new (class_end class.now) }
{
    match class {
        Class::Right { share, .. } => write!(text, "{share}\n"),
        Class::Restriction { words } | Class::Responsibility { words } => {
            let words = words.as_str();
            write!(text, "{words}\n")
        }
        Class::Mortgage {
            amount,
            currency,
            rank,
        } => {
            let currency = currency.as_str();
            write!(text, "rank {rank} {currency} {amount}\n")
        }
    }
}
