//! The cells in which mutations are written.
ghost use Rattle.std.specs.Prelude.{◌≡◌, true};
ghost use Rattle.std.specs.List.{list_all};
ghost use Rattle.land_tables_rows.specs.Mutation.Cells.{IsExactMutation, fits_mutation, is_content_kept};
ghost use Rattle.land_tables_rows.specs.Mutation.Cells.{is_moment, is_new_name_kept, is_part_kept};
ghost use Rattle.land_tables_rows.specs.Mutation.Cells.{mutation_row_of};
ghost use Rattle.land_tables_schema.specs.Rows.Mutation.{FitsMutation, mutation_of};
ghost use Rattle.land_wire_json.specs.Texts.Mutations.{content_text as text_of_content};

use crate::cells::texts::{is_in_utf8, is_reference};
use land_core::content::Content;
use land_core::limits::{LAST_MOMENT, is_number};
use land_core::mutation::MutationRecord;
use land_core::subdivision::Part;
use land_core::text::Text;
use land_core::words::{act_word, state_word};
use land_tables_schema::rows::tables::mutation::MutationCells;
use land_wire_json::bodies::stored::content_is_exact;

/// Returns the cells of a mutation, with its content as JSON (written by
/// `land_wire_json::texts::mutation::content_text`).
pub fn mutation_cells<'a>(
    number: u64,
    mutation: &'a MutationRecord,
    content: &'a str,
) -> MutationCells<'a>
    requires is_written { content.now ≡ text_of_content mutation.now.content }
    ensures row { mutation_of result ≡ mutation_row_of (number, mutation.now) }
    ensures columns { fits_mutation (number, mutation.now) ≡ true → FitsMutation result }
{
    MutationCells {
        number,
        lodger: mutation.lodger,
        reference: mutation.reference.as_str(),
        source: mutation.source,
        lodged: mutation.lodged,
        act: act_word(&mutation.content),
        content,
        state: state_word(mutation.state),
    }
}

/// Checks if a mutation is within the limits of its fields, so that it decodes from its cells. By their
/// types, the share in its content is a fraction, and its outlines are valid rings.
pub fn fits_mutation(number: u64, mutation: &MutationRecord) -> bool
    ensures fits { result ≡ fits_mutation (number, mutation.now) }
    ensures exact { IsExactMutation mutation.now }
{
    content_is_exact(&mutation.content);
    content_is_kept(&mutation.content);
    is_number(number)
        && is_number(mutation.lodger)
        && is_reference(&mutation.reference)
        && is_number(mutation.source)
        && is_moment(mutation.lodged)
        && mutation.content.is_well_formed()
}

/// Checks if an integer is a moment: Unix time in milliseconds, from 1970 to the end of 2099.
fn is_moment(at: i64) -> bool
    ensures { result ≡ is_moment at }
{
    0 <= at && at <= LAST_MOMENT
}

/// Proves that the strings of a mutation's content are in UTF-8. Does nothing at run time.
fn content_is_kept(content: &Content)
    ensures { is_content_kept content.now ≡ true }
{
    match content {
        Content::Transfer(_) => {}
        Content::Subdivision(it) => {
            is_in_utf8(&it.first.label);
            parts_are_kept(it.rest.as_slice());
        }
        Content::Merger(it) => is_in_utf8(&it.label),
        Content::Mortgage(it) => is_in_utf8(&it.currency),
        Content::Discharge(_) => {}
    }
}

fn parts_are_kept(parts: &[Part])
    ensures { list_all is_part_kept parts.now ≡ true }
{
    for part in parts {
        part_is_kept(part);
    }
}

fn part_is_kept(part: &Part)
    ensures { is_part_kept part.now ≡ true }
{
    is_in_utf8(&part.label);
    new_name_is_kept(&part.unit);
}

fn new_name_is_kept(name: &Option<Text>)
    ensures { is_new_name_kept name.now ≡ true }
{
    match name {
        None => {}
        Some(name) => is_in_utf8(name),
    }
}
