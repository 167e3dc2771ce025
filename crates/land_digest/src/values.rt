//! Writes the values of a row to a hasher.
ghost use Rattle.std.specs.Prelude.{◌≡◌, flat_map, OnOk};
ghost use Rattle.land_digest.specs.Entries.{Gains, values_of};
ghost use Rattle.land_digest.specs.Fields.{field_text};
ghost use Rattle.land_digest.specs.Rows.{class_values, lodging_values, mutation_values, parcel_values};
ghost use Rattle.land_digest.specs.Rows.{party_values, request_values, rrr_values, share_values};
ghost use Rattle.land_digest.specs.Rows.{source_values, unit_values};
ghost use Rattle.land_wire_json.specs.Texts.Mutations.{content_text};

use crate::entry::Values;
use crate::fields::{put_integer, put_number, put_text};
use land_core::mutation::MutationRecord;
use land_core::parcel::ParcelRecord;
use land_core::party::PartyRecord;
use land_core::rrr::{Class, RrrRecord};
use land_core::source::SourceRecord;
use land_core::unit::UnitRecord;
use land_core::words::{act_word, class_word, party_word, source_word, state_word};
use land_fraction::Fraction;
use land_wire_json::texts::mutation::content_text;
use sha2::{Digest, Sha256};
use std::alloc::{AllocError, Global};

fn put_party(hasher: &mut Sha256, party: &PartyRecord)
    ensures { Gains hasher.old hasher.new (flat_map field_text (party_values party.now)) }
{
    put_text(hasher, party.name.as_str());
    put_text(hasher, party_word(party.kind));
}

fn put_share(hasher: &mut Sha256, share: &Fraction)
    ensures { Gains hasher.old hasher.new (flat_map field_text (share_values share.now)) }
{
    put_number(hasher, share.numerator());
    put_number(hasher, share.denominator());
}

fn put_unit(hasher: &mut Sha256, unit: &UnitRecord)
    ensures { Gains hasher.old hasher.new (flat_map field_text (unit_values unit.now)) }
{
    put_text(hasher, unit.name.as_str());
    put_number(hasher, if unit.checked { 1 } else { 0 });
}

fn put_parcel(hasher: &mut Sha256, parcel: &ParcelRecord) -> Result<(), AllocError>
    ensures { OnOk result (Gains hasher.old hasher.new (flat_map field_text (parcel_values parcel.now))) }
{
    let outline = parcel.outline.write_wkt()?;
    put_number(hasher, parcel.unit);
    put_text(hasher, parcel.label.as_str());
    put_text(hasher, outline.as_str());
    put_number(hasher, parcel.source);
    Ok(())
}

fn put_class(hasher: &mut Sha256, class: &Class)
    ensures { Gains hasher.old hasher.new (flat_map field_text (class_values class.now)) }
{
    match class {
        Class::Right { share, .. } => {
            put_share(hasher, share);
            hasher.update(b"~~~~");
        }
        Class::Restriction { words } | Class::Responsibility { words } => {
            hasher.update(b"~~~~~");
            put_text(hasher, words.as_str());
        }
        Class::Mortgage {
            amount,
            currency,
            rank,
        } => {
            hasher.update(b"~~");
            put_number(hasher, *amount);
            put_text(hasher, currency.as_str());
            put_number(hasher, *rank);
            hasher.update(b"~");
        }
    }
}

fn put_rrr(hasher: &mut Sha256, rrr: &RrrRecord)
    ensures { Gains hasher.old hasher.new (flat_map field_text (rrr_values rrr.now)) }
{
    put_number(hasher, rrr.unit);
    put_number(hasher, rrr.party);
    put_text(hasher, class_word(&rrr.class));
    put_class(hasher, &rrr.class);
    put_number(hasher, rrr.source);
}

fn put_source(hasher: &mut Sha256, source: &SourceRecord)
    ensures { Gains hasher.old hasher.new (flat_map field_text (source_values source.now)) }
{
    put_text(hasher, source_word(source.kind));
    put_text(hasher, source.title.as_str());
}

fn put_lodging(hasher: &mut Sha256, mutation: &MutationRecord)
    ensures { Gains hasher.old hasher.new (flat_map field_text (lodging_values mutation.now)) }
{
    put_number(hasher, mutation.lodger);
    put_text(hasher, mutation.reference.as_str());
    put_number(hasher, mutation.source);
    put_integer(hasher, mutation.lodged);
}

fn put_request(hasher: &mut Sha256, mutation: &MutationRecord, content: &str)
    requires { content.now ≡ content_text mutation.now.content }
    ensures { Gains hasher.old hasher.new (flat_map field_text (request_values mutation.now)) }
{
    put_text(hasher, act_word(&mutation.content));
    put_text(hasher, content);
    put_text(hasher, state_word(mutation.state));
}

fn put_mutation(
    alloc: Global,
    hasher: &mut Sha256,
    mutation: &MutationRecord,
) -> Result<(), AllocError>
    ensures { OnOk result (Gains hasher.old hasher.new (flat_map field_text (mutation_values mutation.now))) }
{
    let content = content_text(alloc, &mutation.content)?;
    put_lodging(hasher, mutation);
    put_request(hasher, mutation, content.as_str());
    Ok(())
}

/// Writes the values of an entry. Returns an error only if it is out of memory.
pub(crate) fn put_values(
    alloc: Global,
    hasher: &mut Sha256,
    values: &Values<'_>,
) -> Result<(), AllocError>
    ensures { OnOk result (Gains hasher.old hasher.new (flat_map field_text (values_of values.now))) }
{
    match values {
        Values::Nothing => Ok(()),
        Values::Moment(next) => Ok(put_number(hasher, *next)),
        Values::Party(party) => Ok(put_party(hasher, party)),
        Values::Share(share) => Ok(put_share(hasher, share)),
        Values::Unit(unit) => Ok(put_unit(hasher, unit)),
        Values::Parcel(parcel) => put_parcel(hasher, parcel),
        Values::Rrr(rrr) => Ok(put_rrr(hasher, rrr)),
        Values::Source(source) => Ok(put_source(hasher, source)),
        Values::Mutation(mutation) => put_mutation(alloc, hasher, mutation),
    }
}
