//! The rows of extracts.
use crate::wire::sheets::{EntryContent, class, ring, text};
use land_core::content::{Content, Discharge};
use land_core::kind::{Kind, PartyKind};
use land_core::mutation::{Mutation, MutationState};
use land_core::object::Object;
use land_core::parcel::Parcel;
use land_core::party::Party;
use land_core::rrr::{RightType, Rrr};
use land_core::sequence::Sequence;
use land_core::source::{Source, SourceKind};
use land_core::unit::Unit;
use land_sheet::rows::{csv_header, csv_row};
use std::alloc::Global;
use testlib_scenario::stop::{Stop, expect};

const HEADERS: &[(Kind, &str)] = &[
    (Kind::Party, "number,name,kind\n"),
    (Kind::Unit, "number,name,checked\n"),
    (
        Kind::Parcel,
        "number,unit,label,square_metres,outline,source\n",
    ),
    (
        Kind::Rrr,
        "number,unit,party,name,class,share,amount,currency,rank,words,source\n",
    ),
    (Kind::Source, "number,kind,title\n"),
    (
        Kind::Mutation,
        "number,lodger,reference,source,lodged,act,state\n",
    ),
];

/// An object.
#[derive(Clone, Copy)]
enum Shown {
    Party(PartyKind, &'static str),
    Unit(bool, &'static str),
    Parcel(&'static str, &'static str),
    Entry(EntryContent),
    Source(SourceKind, &'static str),
    Mutation(MutationState, &'static str),
}

/// An object by its number, the name of its party, and its row.
struct Row(u64, Shown, &'static str, &'static str);

const ROWS: &[Row] = &[
    Row(
        4,
        Shown::Party(PartyKind::NonNaturalPerson, "Bank, \"North\""),
        "",
        "4,\"Bank, \"\"North\"\"\",nonNaturalPerson\n",
    ),
    Row(
        2,
        Shown::Party(PartyKind::NaturalPerson, "Zoë"),
        "",
        "2,Zoë,naturalPerson\n",
    ),
    Row(
        7,
        Shown::Party(PartyKind::Group, "Anna and Ben"),
        "",
        "7,Anna and Ben,group\n",
    ),
    Row(9, Shown::Unit(true, "Garden"), "", "9,Garden,yes\n"),
    Row(10, Shown::Unit(false, " "), "", "10, ,no\n"),
    Row(
        24,
        Shown::Parcel("12a", "POLYGON ((0 0, 5000 0, 5000 10000, 0 10000, 0 0))"),
        "",
        "24,9,12a,50.0000000,\"POLYGON ((0 0, 5000 0, 5000 10000, 0 10000, 0 0))\",8\n",
    ),
    Row(
        13,
        Shown::Entry(EntryContent::Right(RightType::Lease, 1, 1)),
        "Sam",
        "13,9,6,Sam,lease,1/1,,,,,8\n",
    ),
    Row(
        12,
        Shown::Entry(EntryContent::Right(RightType::Usufruct, 6, 8)),
        "A \"B\"",
        "12,9,6,\"A \"\"B\"\"\",usufruct,3/4,,,,,8\n",
    ),
    Row(
        16,
        Shown::Entry(EntryContent::Mortgage),
        "Bank, \"North\"",
        "16,9,6,\"Bank, \"\"North\"\"\",mortgage,,2500000,EUR,1,,8\n",
    ),
    Row(
        15,
        Shown::Entry(EntryContent::Restriction("No well, no hedge")),
        "Land Office",
        "15,9,6,Land Office,restriction,,,,,\"No well, no hedge\",8\n",
    ),
    Row(
        1_000_000_000,
        Shown::Entry(EntryContent::Responsibility("Keep the hedge")),
        "Sam",
        "1000000000,9,6,Sam,responsibility,,,,,Keep the hedge,8\n",
    ),
    Row(
        8,
        Shown::Source(SourceKind::Administrative, "Deed 1"),
        "",
        "8,administrative,Deed 1\n",
    ),
    Row(
        22,
        Shown::Source(SourceKind::Spatial, "Plan 1"),
        "",
        "22,spatial,Plan 1\n",
    ),
    Row(
        22,
        Shown::Mutation(MutationState::Lodged, "D1"),
        "",
        "22,4,D1,8,1016,discharge,lodged\n",
    ),
    Row(
        24,
        Shown::Mutation(MutationState::Refused, "D,1"),
        "",
        "24,4,\"D,1\",8,1016,discharge,refused\n",
    ),
];

fn party(alloc: Global, number: u64, kind: PartyKind, name: &str) -> Result<Object, Stop> {
    Ok(Object::Party(Party {
        number,
        kind,
        name: text(alloc, name)?,
        members: Sequence::new(alloc),
        roles: Sequence::new(alloc),
    }))
}

fn parcel(alloc: Global, number: u64, label: &str, outline: &str) -> Result<Object, Stop> {
    let outline = ring(alloc, outline)?;
    Ok(Object::Parcel(Parcel {
        number,
        unit: 9,
        label: text(alloc, label)?,
        outline,
        source: 8,
    }))
}

fn entry(alloc: Global, number: u64, says: EntryContent) -> Result<Object, Stop> {
    Ok(Object::Rrr(Rrr {
        number,
        unit: 9,
        party: 6,
        class: class(alloc, says)?,
        source: 8,
    }))
}

fn mutation(
    alloc: Global,
    number: u64,
    state: MutationState,
    reference: &str,
) -> Result<Object, Stop> {
    Ok(Object::Mutation(Mutation {
        number,
        lodger: 4,
        reference: text(alloc, reference)?,
        source: 8,
        lodged: 1016,
        state,
        content: Content::Discharge(Discharge {
            unit: 9,
            mortgage: 16,
        }),
    }))
}

fn object(alloc: Global, number: u64, shown: Shown) -> Result<Object, Stop> {
    match shown {
        Shown::Party(kind, name) => party(alloc, number, kind, name),
        Shown::Unit(checked, name) => Ok(Object::Unit(Unit {
            number,
            name: text(alloc, name)?,
            checked,
        })),
        Shown::Parcel(label, outline) => parcel(alloc, number, label, outline),
        Shown::Entry(says) => entry(alloc, number, says),
        Shown::Source(kind, title) => Ok(Object::Source(Source {
            number,
            kind,
            title: text(alloc, title)?,
        })),
        Shown::Mutation(state, reference) => mutation(alloc, number, state, reference),
    }
}

fn is_row(alloc: Global, row: &Row) -> Result<bool, Stop> {
    let object = object(alloc, row.0, row.1)?;
    Ok(csv_row(alloc, &object, row.2)?.as_slice() == row.3.as_bytes())
}

/// Checks that headers contain the names of the columns.
pub fn headers_name_the_columns(alloc: Global) -> Result<(), Stop> {
    for (place, row) in HEADERS.iter().enumerate() {
        let header = csv_header(alloc, row.0)?;
        expect(header.as_slice() == row.1.as_bytes(), "header", place)?;
    }
    Ok(())
}

/// Checks that rows have the fields of their objects.
pub fn rows_have_the_fields_of_their_objects(alloc: Global) -> Result<(), Stop> {
    for (place, row) in ROWS.iter().enumerate() {
        expect(is_row(alloc, row)?, "row", place)?;
    }
    Ok(())
}
