//! Objects and replies in one line each.
use crate::lodged::write_mutation;
use land_core::change::Done;
use land_core::member::Member;
use land_core::object::Object;
use land_core::parcel::Parcel;
use land_core::party::Party;
use land_core::rrr::{Class, Rrr};
use land_core::source::Source;
use land_core::unit::Unit;
use land_keep::reply::Reply;
use land_keep::view::{NamedRrr, View};
use std::alloc::{AllocError, Global};

/// Writes the members of a group, each as a number and a share.
fn write_members(line: &mut String, members: &[Member]) -> Result<(), AllocError> {
    for member in members {
        write!(line, "({} {})", member.party, member.share)?;
    }
    Ok(())
}

fn write_party(line: &mut String, it: &Party) -> Result<(), AllocError> {
    write!(
        line,
        "party {} {:?} {} [",
        it.number,
        it.kind,
        it.name.as_str()
    )?;
    write_members(line, it.members.as_slice())?;
    write!(line, "] {:?}", it.roles.as_slice())
}

fn write_unit(line: &mut String, it: &Unit) -> Result<(), AllocError> {
    write!(
        line,
        "unit {} {} {}",
        it.number,
        it.name.as_str(),
        it.checked
    )
}

fn write_outline(line: &mut String, it: &Parcel) -> Result<(), AllocError> {
    let outline = it.outline.write_wkt()?;
    line.push_str(outline.as_str())
}

fn write_parcel(line: &mut String, it: &Parcel) -> Result<(), AllocError> {
    write!(
        line,
        "parcel {} in {}: {}",
        it.number,
        it.unit,
        it.label.as_str()
    )?;
    write!(
        line,
        " of {} from {}: ",
        it.outline.doubled_area(),
        it.source
    )?;
    write_outline(line, it)
}

fn write_class(line: &mut String, class: &Class) -> Result<(), AllocError> {
    match class {
        Class::Right { right_type, share } => write!(line, "{:?} {}", right_type, share),
        Class::Restriction { words } => write!(line, "Restriction {}", words.as_str()),
        Class::Responsibility { words } => write!(line, "Responsibility {}", words.as_str()),
        Class::Mortgage {
            amount,
            currency,
            rank,
        } => write!(
            line,
            "Mortgage {amount} {} of rank {rank}",
            currency.as_str()
        ),
    }
}

fn write_rrr(line: &mut String, it: &Rrr) -> Result<(), AllocError> {
    write!(line, "rrr {} in {} of {}: ", it.number, it.unit, it.party)?;
    write_class(line, &it.class)?;
    write!(line, " from {}", it.source)
}

fn write_source(line: &mut String, it: &Source) -> Result<(), AllocError> {
    write!(
        line,
        "source {} {:?} {}",
        it.number,
        it.kind,
        it.title.as_str()
    )
}

fn write_object(line: &mut String, object: &Object) -> Result<(), AllocError> {
    match object {
        Object::Party(it) => write_party(line, it),
        Object::Unit(it) => write_unit(line, it),
        Object::Parcel(it) => write_parcel(line, it),
        Object::Rrr(it) => write_rrr(line, it),
        Object::Source(it) => write_source(line, it),
        Object::Mutation(it) => write_mutation(line, it),
    }
}

fn write_parcels(line: &mut String, parcels: &[Parcel]) -> Result<(), AllocError> {
    for parcel in parcels {
        write!(line, " parcel {}", parcel.number)?;
    }
    Ok(())
}

fn write_entries(line: &mut String, entries: &[NamedRrr]) -> Result<(), AllocError> {
    for entry in entries {
        write!(line, " rrr {} {}", entry.rrr.number, entry.name.as_str())?;
    }
    Ok(())
}

/// Writes a title sheet: the unit, its parcels' numbers, and its entries with their parties' names.
fn write_sheet(line: &mut String, it: &View) -> Result<(), AllocError> {
    write!(
        line,
        "sheet {} {} at {}:",
        it.unit.number,
        it.unit.name.as_str(),
        it.at
    )?;
    write_parcels(line, it.parcels.as_slice())?;
    write_entries(line, it.rrrs.as_slice())
}

pub fn write_done(line: &mut String, it: &Done) -> Result<(), AllocError> {
    write!(
        line,
        "done {} made {:?} at {}",
        it.number,
        it.made.as_slice(),
        it.stamp
    )
}

/// Writes a reply in one line. Error: out of memory, also if the reply is 501.
fn write_reply(line: &mut String, reply: &Reply) -> Result<(), AllocError> {
    match reply {
        Reply::Object(object) => write_object(line, object),
        Reply::Sheet(it) => write_sheet(line, it),
        Reply::Numbers(numbers) => write!(line, "numbers {:?}", numbers.as_slice()),
        Reply::Done(it) => write_done(line, it),
        Reply::Denied(rule) => write!(line, "denied {rule}"),
        Reply::Fault(number) => write!(line, "fault {number}"),
        Reply::Refused(number) => write!(line, "refused {number}"),
        Reply::Store(501) => Err(AllocError),
        Reply::Store(number) => write!(line, "store {number}"),
    }
}

/// Writes a title sheet with its parcels and its entries in full.
fn write_whole_sheet(line: &mut String, it: &View) -> Result<(), AllocError> {
    write_unit(line, &it.unit)?;
    write!(line, " at {}", it.at)?;
    for parcel in it.parcels.as_slice() {
        write_parcel(line, parcel)?;
    }
    for entry in it.rrrs.as_slice() {
        write_rrr(line, &entry.rrr)?;
        write!(line, " {}", entry.name.as_str())?;
    }
    Ok(())
}

fn write_whole(line: &mut String, reply: &Reply) -> Result<(), AllocError> {
    match reply {
        Reply::Sheet(it) => write_whole_sheet(line, it),
        _ => write_reply(line, reply),
    }
}

/// Returns a reply in one line, in full. Error: out of memory, also if the reply is 501.
pub fn full_line_of(alloc: Global, reply: &Reply) -> Result<String, AllocError> {
    let mut line = String::new(alloc);
    write_whole(&mut line, reply)?;
    Ok(line)
}

/// Checks if a reply is this line. Error: out of memory, also if the reply is 501.
pub fn is_told(alloc: Global, reply: &Reply, line: &str) -> Result<bool, AllocError> {
    let mut told = String::new(alloc);
    write_reply(&mut told, reply)?;
    Ok(told.as_str() == line)
}
