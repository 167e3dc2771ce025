//! Reads a list of objects: a range of numbers with one SQL statement, and the parties of entries with a
//! second one.
ghost use Rattle.std.specs.FinMap as map;
ghost use Rattle.std.specs.List.{AllByRecursion};
ghost use Rattle.std.specs.Prelude.{◌≡◌, ℕ, true, map as map_list, IfOk};
ghost use Rattle.land_core.specs.Entries.{entries_where, with_entries};
ghost use Rattle.land_core.specs.Register.{empty_register};
ghost use Rattle.land_core.specs.declared.kind.Kind.TheVariants as kinds;
ghost use Rattle.land_core.specs.declared.register.Register.{Register as Whole};
ghost use Rattle.land_keep.specs.Named.{objects_at};
ghost use Rattle.land_select.specs.Listing.{IsTightRange, ListsAlike, ListsRange};
ghost use Rattle.land_select_queries.specs.Lookups.Parts.{ReadsPart};
ghost use Rattle.land_select_queries.specs.Lookups.Ranges.{is_within};
ghost use Rattle.land_select_queries.specs.TableReads.{ReadsTables};
ghost use Rattle.land_tables_history.specs.declared.version.Version.{Version as Spanned};
ghost use Rattle.land_tables_schema.specs.Connections.{HasRegisterTables, LeavesAutocommit};

use crate::query::Query;
use land_core::duplicate::Duplicate;
use land_core::kind::Kind;
use land_core::mutation::MutationRecord;
use land_core::parcel::ParcelRecord;
use land_core::party::PartyRecord;
use land_core::records::Records;
use land_core::register::Register;
use land_core::rrr::RrrRecord;
use land_core::sequence::Sequence;
use land_core::source::SourceRecord;
use land_core::unit::UnitRecord;
use land_keep::named::{NamedObject, objects_of};
use land_select_queries::lookups::numbered::Numbered;
use land_select_queries::lookups::of_entries::parties_within;
use land_select_queries::lookups::within::records;
use land_tables_history::version::Version;
use land_tables_rows::listing::fault::ReadFault;
use land_tables_rows::reading::from_row::FromRow;
use sqlite::{Alter, Connection};
use std::alloc::{AllocError, Global};

/// A record type whose table has all that a list shows.
pub(crate) trait Listed: Numbered + Duplicate
where
    Version<(u64, Self)>: FromRow,
{
    /// Builds a register with these records only.
    fn alone(alloc: Global, found: Records<Self>) -> Register
        ensures { (r : Whole) (first last : ℕ) → found ≡ entries_where (λ n v. is_within first last n)
            (Self.part r)
            → ListsAlike Self.KIND first last result r };
}

impl Listed for PartyRecord {
    fn alone(alloc: Global, found: Records<PartyRecord>) -> Register
        ensures { (r : Whole) (first last : ℕ) → found ≡ entries_where
            (λ n v. is_within first last n) r.parties
            → ListsAlike kinds.Party first last result r }
    {
        Register {
            parties: found,
            ..Register::empty(alloc)
        }
    }
}

impl Listed for UnitRecord {
    fn alone(alloc: Global, found: Records<UnitRecord>) -> Register
        ensures { (r : Whole) (first last : ℕ) → found ≡ entries_where (λ n v. is_within first last n) r.units
            → ListsAlike kinds.Unit first last result r }
    {
        Register {
            units: found,
            ..Register::empty(alloc)
        }
    }
}

impl Listed for ParcelRecord {
    fn alone(alloc: Global, found: Records<ParcelRecord>) -> Register
        ensures { (r : Whole) (first last : ℕ) → found ≡ entries_where
            (λ n v. is_within first last n) r.parcels
            → ListsAlike kinds.Parcel first last result r }
    {
        Register {
            parcels: found,
            ..Register::empty(alloc)
        }
    }
}

impl Listed for SourceRecord {
    fn alone(alloc: Global, found: Records<SourceRecord>) -> Register
        ensures { (r : Whole) (first last : ℕ) → found ≡ entries_where
            (λ n v. is_within first last n) r.sources
            → ListsAlike kinds.Source first last result r }
    {
        Register {
            sources: found,
            ..Register::empty(alloc)
        }
    }
}

impl Listed for MutationRecord {
    fn alone(alloc: Global, found: Records<MutationRecord>) -> Register
        ensures { (r : Whole) (first last : ℕ) → found ≡ entries_where
            (λ n v. is_within first last n) r.mutations
            → ListsAlike kinds.Mutation first last result r }
    {
        Register {
            mutations: found,
            ..Register::empty(alloc)
        }
    }
}

/// Reads a register that lists the objects of a kind in a range at a time.
fn read_range<V: Listed, S: Alter>(
    alloc: Global,
    conn: &mut Connection<S>,
    first: u64,
    last: u64,
    at: i64,
) -> Result<Register, ReadFault>
where
    Version<(u64, V)>: FromRow,
    requires has_tables { HasRegisterTables S.Store conn.old }
    ensures reads_only { ReadsTables S.Store result (ListsRange V.KIND first last at) conn.old conn.new }
    ensures autocommit { LeavesAutocommit conn.old conn.new }
{
    let found = records::<V, S>(alloc, conn, first, last, at)?;
    Ok(V::alone(alloc, found))
}

/// Returns the records of versions of parties, in which a party may be repeated.
fn records_of(
    alloc: Global,
    parties: &[Version<(u64, PartyRecord)>],
) -> Result<Records<PartyRecord>, AllocError>
    ensures { IfOk result (λ it. it ≡ with_entries map.empty
        (map_list (λ (v : Spanned (ℕ × PartyRecord)). v.what) parties.now)) }
{
    let mut records = Records::new(alloc);
    for party in parties {
        records.insert(party.what.0, party.what.1.copy(alloc)?)?;
    }
    Ok(records)
}

/// Builds a register with these entries and these parties only.
fn register_of_entries(
    alloc: Global,
    entries: Records<RrrRecord>,
    parties: &[Version<(u64, PartyRecord)>],
) -> Result<Register, AllocError>
    ensures { IfOk result (λ it. it ≡ record empty_register {
      rrrs = entries;
      parties =
          with_entries map.empty (map_list (λ (v : Spanned (ℕ × PartyRecord)). v.what) parties.now);
    }) }
{
    let parties = records_of(alloc, parties)?;
    let mut register = Register::empty(alloc);
    register.rrrs = entries;
    register.parties = parties;
    Ok(register)
}

/// Reads a register that lists the entries in a range at a time.
fn entries<S: Alter>(
    alloc: Global,
    conn: &mut Connection<S>,
    first: u64,
    last: u64,
    at: i64,
) -> Result<Register, ReadFault>
    requires has_tables { HasRegisterTables S.Store conn.old }
    ensures reads_only { ReadsTables S.Store result (ListsRange kinds.Rrr first last at) conn.old conn.new }
    ensures autocommit { LeavesAutocommit conn.old conn.new }
{
    let found = records::<RrrRecord, S>(alloc, conn, first, last, at)?;
    let parties = parties_within(alloc, conn, first, last, at)?;
    Ok(register_of_entries(alloc, found, parties.as_slice())?)
}

/// Reads a register that lists the objects of any kind in a range at a time.
fn register_of<S: Alter>(
    alloc: Global,
    conn: &mut Connection<S>,
    kind: Kind,
    first: u64,
    last: u64,
    at: i64,
) -> Result<Register, ReadFault>
    requires has_tables { HasRegisterTables S.Store conn.old }
    ensures reads_only { ReadsTables S.Store result (ListsRange kind first last at) conn.old conn.new }
    ensures autocommit { LeavesAutocommit conn.old conn.new }
{
    match kind {
        Kind::Party => read_range::<PartyRecord, S>(alloc, conn, first, last, at),
        Kind::Unit => read_range::<UnitRecord, S>(alloc, conn, first, last, at),
        Kind::Parcel => read_range::<ParcelRecord, S>(alloc, conn, first, last, at),
        Kind::Rrr => entries(alloc, conn, first, last, at),
        Kind::Source => read_range::<SourceRecord, S>(alloc, conn, first, last, at),
        Kind::Mutation => read_range::<MutationRecord, S>(alloc, conn, first, last, at),
    }
}

/// Returns the range from the least to the greatest of some numbers. Without any it is empty.
fn range_of(numbers: &[u64]) -> (u64, u64)
    ensures within { AllByRecursion (λ n. is_within result.0 result.1 n ≡ true) numbers.now }
    ensures tight { IsTightRange numbers.now result.0 result.1 }
{
    let mut first = u64::MAX;
    let mut last = 0u64;
    for number in numbers {
        first = first.min(*number);
        last = last.max(*number);
    }
    (first, last)
}

/// Reads the objects of a kind for a list of numbers at a time, in the order of the list.
fn objects<S: Alter>(
    alloc: Global,
    conn: &mut Connection<S>,
    kind: Kind,
    numbers: &[u64],
    at: i64,
) -> Result<Sequence<NamedObject>, ReadFault>
    requires has_tables { HasRegisterTables S.Store conn.old }
    ensures reads_only { ReadsTables S.Store result (ReadsPart (λ r. objects_at r kind numbers.now) at)
        conn.old
        conn.new }
    ensures autocommit { LeavesAutocommit conn.old conn.new }
{
    let range = range_of(numbers);
    let (first, last) = range;
    let register = register_of(alloc, conn, kind, first, last, at)?;
    Ok(objects_of(alloc, &register, kind, numbers)?)
}

/// The query for the objects of a list of numbers at a time.
#[derive(Clone, Copy)]
pub(crate) struct ObjectsQuery<'a> {
    /// The kind of the objects.
    pub(crate) kind: Kind,
    /// The numbers of the objects.
    pub(crate) numbers: &'a [u64],
    /// The time, in Unix milliseconds.
    pub(crate) moment: i64,
}

impl Query<Sequence<NamedObject>> for ObjectsQuery<'_> {
    ghost use Rattle.land_keep.specs.Named.{objects_at};
    ghost use Rattle.land_select_queries.specs.Lookups.Parts.{ReadsPart};

    ghost results = { λ it db found.
        ReadsPart (λ r. objects_at r it.kind it.numbers.now) it.moment db found };

    fn run<S: Alter>(
        &self,
        alloc: Global,
        conn: &mut Connection<S>,
    ) -> Result<Sequence<NamedObject>, ReadFault> {
        objects(alloc, conn, self.kind, self.numbers, self.moment)
    }
}
