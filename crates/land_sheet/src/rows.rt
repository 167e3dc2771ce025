//! Writes the rows of extracts with `csv` and its default settings.
ghost use Rattle.std.specs.Prelude.{◌≡◌, ◌∷◌, [], IfOk, OnOk, Some, decimal, map, string_bytes};
ghost use Rattle.std.specs.Fmt.{signed_decimal};
ghost use Rattle.csv.specs.Writing.{default_writer, row_text, text_written};
ghost use Rattle.land_fraction.specs.Text.{fraction_text};
ghost use Rattle.land_shape.specs.Outline.{doubled_area};
ghost use Rattle.land_shape.specs.Printed.{polygon_text};
ghost use Rattle.land_sheet.specs.Appending.{AppendsFields};
ghost use Rattle.land_sheet.specs.Areas.{square_metres};
ghost use Rattle.land_sheet.specs.Extracts.Writing.{rows_of};
ghost use Rattle.land_sheet.specs.Rows.{IsBetweenRows, WritesRows, columns_of, object_fields, header_text};
ghost use Rattle.land_sheet.specs.Rows.{object_row};
ghost use Rattle.land_sheet.specs.Rows.{class_fields, entry_start, outline_fields, parcel_fields};
ghost use Rattle.land_sheet.specs.Rows.{parcel_start};
ghost use Rattle.land_sheet.specs.Rows.{mutation_fields, party_fields, rrr_fields, source_fields};
ghost use Rattle.land_sheet.specs.Rows.{unit_fields};

use crate::areas::square_metres;
use crate::words::checked_word;
use csv::{Writer, WriterBuilder};
use land_core::kind::Kind;
use land_core::mutation::Mutation;
use land_core::object::Object;
use land_core::parcel::Parcel;
use land_core::party::Party;
use land_core::rrr::{Class, Rrr};
use land_core::source::Source;
use land_core::unit::Unit;
use land_core::words::{act_word, class_word, party_word, source_word, state_word};
use land_fraction::Fraction;
use land_keep::named::NamedObject;
use land_shape::Ring;
use std::alloc::{AllocError, Global};
use std::io::Write;

/// The maximum number of columns of a kind.
const MAX_COLUMNS: usize = 11;

/// Returns the first row of an extract, the names of a kind's columns, with its line feed. The only error is
/// out of memory.
pub fn csv_header(alloc: Global, kind: Kind) -> Result<Vec<u8>, AllocError>
    ensures { IfOk result (λ row. row.items ≡ header_text kind) }
{
    row_bytes(alloc, columns_of(kind))
}

/// Returns the names of a kind's columns.
fn columns_of(kind: Kind) -> &'static [&'static [u8]]
    ensures { map (λ column. column.now) result.now ≡ columns_of kind }
{
    match kind {
        Kind::Party => &[b"number", b"name", b"kind"],
        Kind::Unit => &[b"number", b"name", b"checked"],
        Kind::Parcel => &[
            b"number",
            b"unit",
            b"label",
            b"square_metres",
            b"outline",
            b"source",
        ],
        Kind::Rrr => &[
            b"number",
            b"unit",
            b"party",
            b"name",
            b"class",
            b"share",
            b"amount",
            b"currency",
            b"rank",
            b"words",
            b"source",
        ],
        Kind::Source => &[b"number", b"kind", b"title"],
        Kind::Mutation => &[
            b"number",
            b"lodger",
            b"reference",
            b"source",
            b"lodged",
            b"act",
            b"state",
        ],
    }
}

/// Returns the row of an object with its line feed. `name` is the name of an entry's party; rows of other
/// objects do not contain it. The only error is out of memory.
pub fn csv_row(alloc: Global, object: &Object, name: &str) -> Result<Vec<u8>, AllocError>
    ensures { IfOk result (λ row. row.items ≡ object_row object.now name.now) }
{
    let mut writer = row_writer(alloc);
    write_object(&mut writer, alloc, object, name)?;
    written_by(writer)
}

/// Returns the rows of objects of one kind in order, each with its line feed. The only error is out of
/// memory.
pub(crate) fn csv_rows(alloc: Global, rows: &[NamedObject]) -> Result<Vec<u8>, AllocError>
    ensures { IfOk result (λ text. text.items ≡ rows_of rows.now) }
{
    let mut writer = row_writer(alloc);
    write_objects(&mut writer, alloc, rows)?;
    written_by(writer)
}

/// Returns a new writer of rows.
fn row_writer(alloc: Global) -> Writer<Vec<u8>>
    ensures between { IsBetweenRows result }
    ensures nothing { text_written (λ v. Some v.items) result ≡ Some [] }
{
    WriterBuilder::new().from_writer(Vec::new(alloc))
}

/// Returns the bytes that a writer of rows has written.
fn written_by(writer: Writer<Vec<u8>>) -> Result<Vec<u8>, AllocError>
    ensures { IfOk result (λ text. text_written (λ v. Some v.items) writer ≡ Some text.items) }
{
    match writer.into_inner() {
        Ok(text) => Ok(text),
        Err(_) => Err(AllocError),
    }
}

/// Writes the rows of objects of one kind in order.
fn write_objects<W: Write + Drop>(
    writer: &mut Writer<W>,
    alloc: Global,
    rows: &[NamedObject],
) -> Result<(), AllocError>
    requires between { IsBetweenRows writer.old }
    ensures text { WritesRows W.contents result writer.old writer.new (rows_of rows.now) }
{
    'rows: for row in rows {
        write_object(writer, alloc, &row.object, row.name.as_str())?;
    }
    Ok(())
}

/// Writes the row of an object.
fn write_object<W: Write + Drop>(
    writer: &mut Writer<W>,
    alloc: Global,
    object: &Object,
    name: &str,
) -> Result<(), AllocError>
    requires between { IsBetweenRows writer.old }
    ensures text { WritesRows W.contents result writer.old writer.new (object_row object.now name.now) }
    ensures between { OnOk result (IsBetweenRows writer.new) }
{
    let mut fields = Vec::with_capacity(alloc, MAX_COLUMNS)?;
    push_object(&mut fields, alloc, object, name)?;
    write_texts(writer, alloc, fields.as_slice())
}

/// Writes a row of texts.
fn write_texts<W: Write + Drop>(
    writer: &mut Writer<W>,
    alloc: Global,
    fields: &[String],
) -> Result<(), AllocError>
    requires between { IsBetweenRows writer.old }
    ensures text { WritesRows W.contents result writer.old writer.new
        (row_text default_writer (map string_bytes fields.now)) }
    ensures between { OnOk result (IsBetweenRows writer.new) }
{
    let mut lent: Vec<&[u8]> = Vec::with_capacity(alloc, MAX_COLUMNS)?;
    for field in fields {
        lent.push(field.as_bytes())?;
    }
    match writer.write_fields(lent.as_slice()) {
        Ok(()) => Ok(()),
        Err(_) => Err(AllocError),
    }
}

/// Returns a row of fields.
fn row_bytes(alloc: Global, fields: &[&[u8]]) -> Result<Vec<u8>, AllocError>
    ensures { IfOk result (λ row. row.items ≡ row_text default_writer (map (λ field. field.now) fields.now)) }
{
    let mut writer = row_writer(alloc);
    if writer.write_fields(fields).is_err() {
        return Err(AllocError);
    }
    written_by(writer)
}

/// Writes a text as a field.
fn push_text(fields: &mut Vec<String>, alloc: Global, text: &str) -> Result<(), AllocError>
    ensures { AppendsFields result fields.old fields.new (text.now ∷ []) }
{
    fields.push(String::from_str(alloc, text)?)?;
    Ok(())
}

/// Writes a decimal number as a field.
fn push_number(fields: &mut Vec<String>, alloc: Global, number: u64) -> Result<(), AllocError>
    ensures { AppendsFields result fields.old fields.new (decimal number ∷ []) }
{
    fields.push(format!(in alloc; "{number}")?)?;
    Ok(())
}

/// Writes a moment as a field, in decimal.
fn push_moment(fields: &mut Vec<String>, alloc: Global, moment: i64) -> Result<(), AllocError>
    ensures { AppendsFields result fields.old fields.new (signed_decimal moment ∷ []) }
{
    fields.push(format!(in alloc; "{moment}")?)?;
    Ok(())
}

/// Writes a share as a field.
fn push_share(fields: &mut Vec<String>, alloc: Global, share: Fraction) -> Result<(), AllocError>
    ensures { AppendsFields result fields.old fields.new (fraction_text share ∷ []) }
{
    fields.push(format!(in alloc; "{share}")?)?;
    Ok(())
}

/// Writes the square metres of an outline as a field.
fn push_area(fields: &mut Vec<String>, alloc: Global, outline: &Ring) -> Result<(), AllocError>
    ensures { AppendsFields result fields.old fields.new (square_metres (doubled_area outline.now) ∷ []) }
{
    fields.push(square_metres(alloc, u128::from(outline.doubled_area()))?)?;
    Ok(())
}

/// Writes an outline as a field, as well-known text.
fn push_outline(fields: &mut Vec<String>, outline: &Ring) -> Result<(), AllocError>
    ensures { AppendsFields result fields.old fields.new (polygon_text outline.now ∷ []) }
{
    fields.push(outline.write_wkt()?)?;
    Ok(())
}

/// Writes the fields of an object.
fn push_object(
    fields: &mut Vec<String>,
    alloc: Global,
    object: &Object,
    name: &str,
) -> Result<(), AllocError>
    ensures { AppendsFields result fields.old fields.new (object_fields object.now name.now) }
{
    match object {
        Object::Party(party) => push_party(fields, alloc, party),
        Object::Unit(unit) => push_unit(fields, alloc, unit),
        Object::Parcel(parcel) => push_parcel(fields, alloc, parcel),
        Object::Rrr(entry) => push_rrr(fields, alloc, entry, name),
        Object::Source(source) => push_source(fields, alloc, source),
        Object::Mutation(mutation) => push_mutation(fields, alloc, mutation),
    }
}

#[tactic(auto, unfolding(crate::specs::Rows::party_fields))]
fn push_party(fields: &mut Vec<String>, alloc: Global, party: &Party) -> Result<(), AllocError>
    ensures { AppendsFields result fields.old fields.new (party_fields party.now) }
{
    push_number(fields, alloc, party.number)?;
    push_text(fields, alloc, party.name.as_str())?;
    push_text(fields, alloc, party_word(party.kind))
}

#[tactic(auto, unfolding(crate::specs::Rows::unit_fields))]
fn push_unit(fields: &mut Vec<String>, alloc: Global, unit: &Unit) -> Result<(), AllocError>
    ensures { AppendsFields result fields.old fields.new (unit_fields unit.now) }
{
    push_number(fields, alloc, unit.number)?;
    push_text(fields, alloc, unit.name.as_str())?;
    push_text(fields, alloc, checked_word(unit.checked))
}

#[tactic(auto, unfolding(crate::specs::Rows::parcel_fields))]
fn push_parcel(fields: &mut Vec<String>, alloc: Global, parcel: &Parcel) -> Result<(), AllocError>
    ensures { AppendsFields result fields.old fields.new (parcel_fields parcel.now) }
{
    push_parcel_start(fields, alloc, parcel)?;
    push_extent(fields, alloc, &parcel.outline)?;
    push_number(fields, alloc, parcel.source)
}

/// Writes the number, the unit and the label of a parcel.
#[tactic(auto, unfolding(crate::specs::Rows::parcel_start))]
fn push_parcel_start(
    fields: &mut Vec<String>,
    alloc: Global,
    parcel: &Parcel,
) -> Result<(), AllocError>
    ensures { AppendsFields result fields.old fields.new (parcel_start parcel.now) }
{
    push_number(fields, alloc, parcel.number)?;
    push_number(fields, alloc, parcel.unit)?;
    push_text(fields, alloc, parcel.label.as_str())
}

/// Writes the square metres and the text of an outline.
#[tactic(auto, unfolding(crate::specs::Rows::outline_fields))]
fn push_extent(fields: &mut Vec<String>, alloc: Global, outline: &Ring) -> Result<(), AllocError>
    ensures { AppendsFields result fields.old fields.new (outline_fields outline.now) }
{
    push_area(fields, alloc, outline)?;
    push_outline(fields, outline)
}

#[tactic(auto, unfolding(crate::specs::Rows::rrr_fields))]
fn push_rrr(
    fields: &mut Vec<String>,
    alloc: Global,
    entry: &Rrr,
    name: &str,
) -> Result<(), AllocError>
    ensures { AppendsFields result fields.old fields.new (rrr_fields entry.now name.now) }
{
    push_entry_start(fields, alloc, entry, name)?;
    push_class(fields, alloc, &entry.class)?;
    push_number(fields, alloc, entry.source)
}

/// Writes the fields of an entry before those of its class.
#[tactic(auto, unfolding(crate::specs::Rows::entry_start))]
fn push_entry_start(
    fields: &mut Vec<String>,
    alloc: Global,
    entry: &Rrr,
    name: &str,
) -> Result<(), AllocError>
    ensures { AppendsFields result fields.old fields.new (entry_start entry.now name.now) }
{
    push_number(fields, alloc, entry.number)?;
    push_number(fields, alloc, entry.unit)?;
    push_number(fields, alloc, entry.party)?;
    push_text(fields, alloc, name)?;
    push_text(fields, alloc, class_word(&entry.class))
}

/// Writes the share, the amount, the currency, the rank and the words, each empty if the class lacks it.
fn push_class(fields: &mut Vec<String>, alloc: Global, class: &Class) -> Result<(), AllocError>
    ensures { AppendsFields result fields.old fields.new (class_fields class.now) }
{
    match class {
        Class::Right { share, .. } => push_right(fields, alloc, *share),
        Class::Restriction { words } | Class::Responsibility { words } => {
            push_burden(fields, alloc, words.as_str())
        }
        Class::Mortgage {
            amount,
            currency,
            rank,
        } => push_mortgage(fields, alloc, *amount, currency.as_str(), *rank),
    }
}

fn push_right(fields: &mut Vec<String>, alloc: Global, share: Fraction) -> Result<(), AllocError>
    ensures { AppendsFields result fields.old fields.new (fraction_text share ∷ [] ∷ [] ∷ [] ∷ [] ∷ []) }
{
    push_share(fields, alloc, share)?;
    push_text(fields, alloc, "")?;
    push_text(fields, alloc, "")?;
    push_text(fields, alloc, "")?;
    push_text(fields, alloc, "")
}

fn push_burden(fields: &mut Vec<String>, alloc: Global, words: &str) -> Result<(), AllocError>
    ensures { AppendsFields result fields.old fields.new ([] ∷ [] ∷ [] ∷ [] ∷ words.now ∷ []) }
{
    push_text(fields, alloc, "")?;
    push_text(fields, alloc, "")?;
    push_text(fields, alloc, "")?;
    push_text(fields, alloc, "")?;
    push_text(fields, alloc, words)
}

fn push_mortgage(
    fields: &mut Vec<String>,
    alloc: Global,
    amount: u64,
    currency: &str,
    rank: u64,
) -> Result<(), AllocError>
    ensures { AppendsFields result fields.old fields.new
        ([] ∷ decimal amount ∷ currency.now ∷ decimal rank ∷ [] ∷ []) }
{
    push_text(fields, alloc, "")?;
    push_number(fields, alloc, amount)?;
    push_text(fields, alloc, currency)?;
    push_number(fields, alloc, rank)?;
    push_text(fields, alloc, "")
}

#[tactic(auto, unfolding(crate::specs::Rows::source_fields))]
fn push_source(fields: &mut Vec<String>, alloc: Global, source: &Source) -> Result<(), AllocError>
    ensures { AppendsFields result fields.old fields.new (source_fields source.now) }
{
    push_number(fields, alloc, source.number)?;
    push_text(fields, alloc, source_word(source.kind))?;
    push_text(fields, alloc, source.title.as_str())
}

#[tactic(auto, unfolding(crate::specs::Rows::mutation_fields))]
fn push_mutation(
    fields: &mut Vec<String>,
    alloc: Global,
    mutation: &Mutation,
) -> Result<(), AllocError>
    ensures { AppendsFields result fields.old fields.new (mutation_fields mutation.now) }
{
    push_number(fields, alloc, mutation.number)?;
    push_number(fields, alloc, mutation.lodger)?;
    push_text(fields, alloc, mutation.reference.as_str())?;
    push_number(fields, alloc, mutation.source)?;
    push_moment(fields, alloc, mutation.lodged)?;
    push_text(fields, alloc, act_word(&mutation.content))?;
    push_text(fields, alloc, state_word(mutation.state))
}
