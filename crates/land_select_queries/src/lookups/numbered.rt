//! Records that are looked up by number.
ghost use Rattle.std.specs.FinMap.{FinMap};
ghost use Rattle.std.specs.Ordering.{nat_cmp};
ghost use Rattle.land_core.specs.declared.register.Register.{Register};
ghost use Rattle.land_core.specs.declared.kind.Kind.{Kind as WhichKind};
ghost use Rattle.land_core.specs.declared.kind.Kind.TheVariants as kinds;
ghost use Rattle.land_select_queries.specs.Lookups.Numbered.{IsFoundBy, IsFoundWithin};
ghost use Rattle.land_select_queries.specs.declared.lookups.record_lookup.RecordLookup.{RecordLookup as Which};
ghost use Rattle.land_select_queries.specs.declared.lookups.record_lookup.RecordLookup.TheVariants as record_lookup;

use crate::lookups::record_lookup::RecordLookup;
use land_core::kind::Kind;
use land_core::mutation::MutationRecord;
use land_core::parcel::ParcelRecord;
use land_core::party::PartyRecord;
use land_core::rrr::RrrRecord;
use land_core::source::SourceRecord;
use land_core::unit::UnitRecord;
use land_tables_history::version::Version;
use land_tables_rows::reading::from_row::FromRow;

/// A record type: the register has one per number, and a table has its versions.
pub trait Numbered: Drop
where
    Version<(u64, Self)>: FromRow,
{
    /// The part of the register that has these records.
    ghost part: { Register → FinMap nat_cmp Self };

    /// The lookup of one record by its number.
    const BY_NUMBER: RecordLookup;

    /// The lookup of one record by its number.
    ghost BY_NUMBER: { Which };

    /// The lookup returns the current record.
    ghost found: { IsFoundBy ⟦<Version<(u64, Self)> as FromRow>⟧.said BY_NUMBER part };

    /// The kind of the objects.
    const KIND: Kind;

    /// The kind of the objects.
    ghost KIND: { WhichKind };

    /// The statement of the kind returns the records in a range of numbers.
    ghost within: { IsFoundWithin ⟦<Version<(u64, Self)> as FromRow>⟧.said KIND part };
}

impl Numbered for PartyRecord {
    ghost part = { λ r. r.parties };

    const BY_NUMBER: RecordLookup = RecordLookup::Party;

    ghost BY_NUMBER = { record_lookup.Party };

    ghost found = { λ db moments h held. record {
      versions = h.parties;
      stand = λ t r stands. stands.parties;
      found =
          λ number t rows are. are h.parties held.the_parties.said;
    } };

    const KIND: Kind = Kind::Party;

    ghost KIND = { kinds.Party };

    ghost within = { λ db moments h held. record {
      versions = h.parties;
      stand = λ t r stands. stands.parties;
      found =
          λ first last t rows are. are h.parties held.the_parties.said;
    } };
}

impl Numbered for UnitRecord {
    ghost part = { λ r. r.units };

    const BY_NUMBER: RecordLookup = RecordLookup::Unit;

    ghost BY_NUMBER = { record_lookup.Unit };

    ghost found = { λ db moments h held. record {
      versions = h.units;
      stand = λ t r stands. stands.units;
      found =
          λ number t rows are. are h.units held.the_units.said;
    } };

    const KIND: Kind = Kind::Unit;

    ghost KIND = { kinds.Unit };

    ghost within = { λ db moments h held. record {
      versions = h.units;
      stand = λ t r stands. stands.units;
      found =
          λ first last t rows are. are h.units held.the_units.said;
    } };
}

impl Numbered for ParcelRecord {
    ghost part = { λ r. r.parcels };

    const BY_NUMBER: RecordLookup = RecordLookup::Parcel;

    ghost BY_NUMBER = { record_lookup.Parcel };

    ghost found = { λ db moments h held. record {
      versions = h.parcels;
      stand = λ t r stands. stands.parcels;
      found =
          λ number t rows are. are h.parcels held.the_parcels.said;
    } };

    const KIND: Kind = Kind::Parcel;

    ghost KIND = { kinds.Parcel };

    ghost within = { λ db moments h held. record {
      versions = h.parcels;
      stand = λ t r stands. stands.parcels;
      found =
          λ first last t rows are. are h.parcels held.the_parcels.said;
    } };
}

impl Numbered for RrrRecord {
    ghost part = { λ r. r.rrrs };

    const BY_NUMBER: RecordLookup = RecordLookup::Entry;

    ghost BY_NUMBER = { record_lookup.Entry };

    ghost found = { λ db moments h held. record {
      versions = h.rrrs;
      stand = λ t r stands. stands.rrrs;
      found =
          λ number t rows are. are h.rrrs held.the_rrrs.said;
    } };

    const KIND: Kind = Kind::Rrr;

    ghost KIND = { kinds.Rrr };

    ghost within = { λ db moments h held. record {
      versions = h.rrrs;
      stand = λ t r stands. stands.rrrs;
      found =
          λ first last t rows are. are h.rrrs held.the_rrrs.said;
    } };
}

impl Numbered for SourceRecord {
    ghost part = { λ r. r.sources };

    const BY_NUMBER: RecordLookup = RecordLookup::Source;

    ghost BY_NUMBER = { record_lookup.Source };

    ghost found = { λ db moments h held. record {
      versions = h.sources;
      stand = λ t r stands. stands.sources;
      found =
          λ number t rows are. are h.sources held.the_sources.said;
    } };

    const KIND: Kind = Kind::Source;

    ghost KIND = { kinds.Source };

    ghost within = { λ db moments h held. record {
      versions = h.sources;
      stand = λ t r stands. stands.sources;
      found =
          λ first last t rows are. are h.sources held.the_sources.said;
    } };
}

impl Numbered for MutationRecord {
    ghost part = { λ r. r.mutations };

    const BY_NUMBER: RecordLookup = RecordLookup::Mutation;

    ghost BY_NUMBER = { record_lookup.Mutation };

    ghost found = { λ db moments h held. record {
      versions = h.mutations;
      stand = λ t r stands. stands.mutations;
      found =
          λ number t rows are. are h.mutations held.the_mutations.said;
    } };

    const KIND: Kind = Kind::Mutation;

    ghost KIND = { kinds.Mutation };

    ghost within = { λ db moments h held. record {
      versions = h.mutations;
      stand = λ t r stands. stands.mutations;
      found =
          λ first last t rows are. are h.mutations held.the_mutations.said;
    } };
}
