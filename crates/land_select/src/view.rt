//! Reads the view of a unit, as a caller sees it.
ghost use Rattle.std.specs.FinMap as map;
ghost use Rattle.std.specs.List.{list_any};
ghost use Rattle.std.specs.Prelude.{◌≡◌, nat_eq, map as map_list, [], IfOk, Some};
ghost use Rattle.land_core.specs.Entries.{entries_where};
ghost use Rattle.land_core.specs.declared.caller.Caller.{Caller as Who};
ghost use Rattle.land_core.specs.declared.kind.Kind.TheVariants as kinds;
ghost use Rattle.land_keep.specs.Sheets.{visible_entries, parcels_at, numbered_parcel, view_at};
ghost use Rattle.land_select.specs.Cache.{IsValueOf, IsObjectValueOf};
ghost use Rattle.land_select.specs.Views.{AgreesWithRegister, AgreesIfGiven, visible_rrrs, name_among};
ghost use Rattle.land_select.specs.Views.{named_among};
ghost use Rattle.land_select.specs.Views.{view_at_moment, view_from, with_name};
ghost use Rattle.land_select_queries.specs.Lookups.Parts.{ReadsPart};
ghost use Rattle.land_select_queries.specs.TableReads.{ReadsTables};
ghost use Rattle.land_tables_schema.specs.Connections.{HasRegisterTables, IsUsable, LeavesAutocommit};

use crate::cache::CachedValue;
use crate::query::Query;
use crate::verdict::conveyancer::pending_entries;
use crate::verdict::interest::entries_by_interest;
use land_core::caller::Caller;
use land_core::duplicate::Duplicate;
use land_core::kind::Kind;
use land_core::laws::soundness_by_number;
use land_core::object::Object;
use land_core::parcel::{Parcel, ParcelRecord};
use land_core::party::PartyRecord;
use land_core::records::Records;
use land_core::rrr::{Rrr, RrrRecord};
use land_core::sequence::Sequence;
use land_core::text::Text;
use land_core::unit::{Unit, UnitRecord};
use land_keep::view::{NamedRrr, View};
use land_rules::denials::interests::sees_by_interest;
use land_rules::denials::laws::{
    full_sight_shows_all, interests_decide_sight, pending_units_are_visible,
};
use land_rules::denials::sight::{sees_all, sees_by_pending};
use land_rules::laws::seen_lists_are_exact;
use land_select_queries::joins::sight::sight;
use land_select_queries::lookups::of_entries::parties;
use land_select_queries::lookups::{by_number, of_unit};
use land_shape::Ring;
use land_tables_history::version::Version;
use land_tables_rows::listing::fault::ReadFault;
use sqlite::{Alter, Connection};
use std::alloc::{AllocError, Global};

/// Returns parcels with their numbers, in increasing order.
fn shown_parcels(
    alloc: Global,
    found: &Records<ParcelRecord>,
) -> Result<Sequence<Parcel>, AllocError>
    ensures { IfOk result (λ it. it ≡ map_list (λ e. numbered_parcel e.0 e.1) (map.entries found.now)) }
{
    let mut parcels = Sequence::new(alloc);
    for (number, parcel) in found.iter() {
        parcels.push(Parcel {
            number: *number,
            unit: parcel.unit,
            label: parcel.label.copy(alloc)?,
            outline: Ring::copy(&parcel.outline)?,
            source: parcel.source,
        })?;
    }
    Ok(parcels)
}

/// Reads the parcels of a unit at a time, in increasing order of numbers.
fn read_parcels<S: Alter>(
    alloc: Global,
    conn: &mut Connection<S>,
    unit: u64,
    at: i64,
) -> Result<Sequence<Parcel>, ReadFault>
    requires has_tables { HasRegisterTables S.Store conn.old }
    ensures reads_only { ReadsTables S.Store result
        (ReadsPart (λ r. parcels_at r unit) at) conn.old conn.new }
    ensures autocommit { LeavesAutocommit conn.old conn.new }
{
    let found = of_unit::parcels(alloc, conn, unit, at)?;
    Ok(shown_parcels(alloc, &found)?)
}

/// Returns the name of a party in a list; empty if it is not there.
fn name_among(
    alloc: Global,
    parties: &[Version<(u64, PartyRecord)>],
    number: u64,
) -> Result<Text, AllocError>
    ensures { IfOk result (λ it. it ≡ name_among parties.now number) }
{
    for version in parties {
        if version.what.0 == number {
            return version.what.1.name.copy(alloc);
        }
    }
    Ok(Text::new(String::new(alloc)))
}

/// Returns an entry with its number and the name of its party.
fn with_name(
    alloc: Global,
    number: u64,
    entry: &RrrRecord,
    name: Text,
) -> Result<NamedRrr, AllocError>
    ensures { IfOk result (λ it. it ≡ with_name number entry.now name) }
{
    Ok(NamedRrr {
        rrr: Rrr {
            number,
            unit: entry.unit,
            party: entry.party,
            class: entry.class.copy(alloc)?,
            source: entry.source,
        },
        name,
    })
}

/// Checks if a number is in a list.
pub(crate) fn is_listed(listed: &[u64], number: u64) -> bool
    ensures { result ≡ list_any (nat_eq number) listed.now }
{
    listed.iter().any(|it| number == *it)
}

/// Returns the entries whose numbers are in a list.
fn listed_entries(
    alloc: Global,
    found: &Records<RrrRecord>,
    listed: &[u64],
) -> Result<Records<RrrRecord>, AllocError>
    ensures { IfOk result (λ it. it ≡ entries_where (λ n e. list_any (nat_eq n) listed.now) found.now) }
{
    let mut kept = Records::new(alloc);
    for (number, entry) in found.iter() {
        if is_listed(listed, *number) {
            kept.insert(*number, entry.copy(alloc)?)?;
        }
    }
    Ok(kept)
}

/// Returns entries in increasing order of numbers, each with the name of its party from a list.
fn named_entries(
    alloc: Global,
    entries: &Records<RrrRecord>,
    parties: &[Version<(u64, PartyRecord)>],
) -> Result<Sequence<NamedRrr>, AllocError>
    ensures { IfOk result (λ it. it ≡ named_among parties.now (map.entries entries.now)) }
{
    let mut all = Sequence::new(alloc);
    for (number, entry) in entries.iter() {
        let name = name_among(alloc, parties, entry.party)?;
        all.push(with_name(alloc, *number, entry, name)?)?;
    }
    Ok(all)
}

/// Reads the entries of a unit that a caller sees at a time, by number.
fn read_visible_entries<S: Alter>(
    alloc: Global,
    conn: &mut Connection<S>,
    caller: Caller,
    unit: u64,
    at: i64,
) -> Result<Records<RrrRecord>, ReadFault>
    requires open { IsUsable S.Store conn.old }
    requires has_tables { HasRegisterTables S.Store conn.old }
    ensures reads_only { ReadsTables S.Store result (AgreesWithRegister (λ r. visible_rrrs r caller unit) at)
        conn.old
        conn.new }
    ensures autocommit { LeavesAutocommit conn.old conn.new }
{
    seen_lists_are_exact();
    soundness_by_number();
    full_sight_shows_all();
    interests_decide_sight();
    pending_units_are_visible();
    let entries = of_unit::entries(alloc, conn, unit, at)?;
    if sees_all(caller.role, Kind::Rrr) {
        return Ok(entries);
    }
    if sees_by_interest(caller.role, Kind::Rrr) {
        return entries_by_interest(alloc, conn, caller, &entries, at);
    }
    if sees_by_pending(caller.role, Kind::Rrr) {
        return pending_entries(alloc, conn, caller.party, unit, entries, at);
    }
    let listed = sight(alloc, conn, caller, Kind::Rrr, at)?;
    Ok(listed_entries(alloc, &entries, listed.as_slice())?)
}

/// Reads the names of the parties of entries that a caller sees, and returns the entries in increasing order.
fn attach_names<S: Alter>(
    alloc: Global,
    conn: &mut Connection<S>,
    unit: u64,
    entries: &Records<RrrRecord>,
    at: i64,
) -> Result<Sequence<NamedRrr>, ReadFault>
    requires has_tables { HasRegisterTables S.Store conn.old }
    ensures reads_only { (caller : Who) → ReadsTables S.Store result
        (AgreesIfGiven (λ r. entries.now ≡ visible_rrrs r caller unit)
        (λ r. visible_entries r caller unit) at)
        conn.old conn.new }
    ensures autocommit { LeavesAutocommit conn.old conn.new }
{
    let found = parties(alloc, conn, unit, at)?;
    Ok(named_entries(alloc, entries, found.as_slice())?)
}

/// Returns the entries of a unit that a caller sees at a time, with the names of their parties, in increasing
/// order: the cached ones, else those read from the tables.
fn read_named_entries<S: Alter>(
    alloc: Global,
    conn: &mut Connection<S>,
    caller: Caller,
    unit: u64,
    at: i64,
    found: &CachedValue,
) -> Result<Sequence<NamedRrr>, ReadFault>
    requires open { IsUsable S.Store conn.old }
    requires has_tables { HasRegisterTables S.Store conn.old }
    ensures reads_only { ReadsTables S.Store result
        (AgreesIfGiven (λ r. IsValueOf r caller kinds.Unit unit found.now)
        (λ r. visible_entries r caller unit) at)
        conn.old conn.new }
    ensures autocommit { LeavesAutocommit conn.old conn.new }
{
    match found {
        CachedValue::VisibleEntries(entries) => attach_names(alloc, conn, unit, entries, at),
        CachedValue::Object(_) | CachedValue::Mutations(_) | CachedValue::Nothing => {
            let entries = read_visible_entries(alloc, conn, caller, unit, at)?;
            attach_names(alloc, conn, unit, &entries, at)
        }
    }
}

/// Reads the view of an existing unit.
fn view_with<S: Alter>(
    alloc: Global,
    conn: &mut Connection<S>,
    seen: UnitViewQuery<'_>,
    unit_record: UnitRecord,
) -> Result<Option<View>, ReadFault>
    requires open { IsUsable S.Store conn.old }
    requires has_tables { HasRegisterTables S.Store conn.old }
    ensures reads_only { ReadsTables S.Store result
        (AgreesIfGiven (λ r. IsValueOf r seen.entry.caller kinds.Unit seen.entry.unit seen.entry.found.now)
        (λ r. Some (view_from r seen.entry.caller seen.entry.unit seen.entry.moment unit_record))
        seen.entry.moment) conn.old conn.new }
    ensures autocommit { LeavesAutocommit conn.old conn.new }
{
    soundness_by_number();
    let UnitViewQuery {
        caller,
        unit,
        moment,
        found,
    } = seen;
    let parcels = read_parcels(alloc, conn, unit, moment)?;
    let rrrs = read_named_entries(alloc, conn, caller, unit, moment, found)?;
    let UnitRecord { name, checked } = unit_record;
    Ok(Some(View {
        unit: Unit {
            number: unit,
            name,
            checked,
        },
        parcels,
        rrrs,
        at: moment,
    }))
}

/// Returns the record of a unit at a time: that of the cached unit, else the one read from the tables.
fn read_unit_record<S: Alter>(
    alloc: Global,
    conn: &mut Connection<S>,
    unit: u64,
    at: i64,
    found: &CachedValue,
) -> Result<Option<UnitRecord>, ReadFault>
    requires open { IsUsable S.Store conn.old }
    requires has_tables { HasRegisterTables S.Store conn.old }
    ensures reads_only { ReadsTables S.Store result
        (AgreesIfGiven (λ r. IsObjectValueOf r kinds.Unit unit found.now) (λ r. map.get r.units unit) at)
        conn.old conn.new }
    ensures autocommit { LeavesAutocommit conn.old conn.new }
{
    soundness_by_number();
    match found {
        CachedValue::Object(Object::Unit(it)) => Ok(Some(UnitRecord {
            name: it.name.copy(alloc)?,
            checked: it.checked,
        })),
        CachedValue::Object(_)
        | CachedValue::VisibleEntries(_)
        | CachedValue::Mutations(_)
        | CachedValue::Nothing => { by_number::record(alloc, conn, unit, at) }
    }
}

/// Reads the view of a unit; `None` if the unit does not exist.
fn view<S: Alter>(
    alloc: Global,
    conn: &mut Connection<S>,
    seen: UnitViewQuery<'_>,
) -> Result<Option<View>, ReadFault>
    requires open { IsUsable S.Store conn.old }
    requires has_tables { HasRegisterTables S.Store conn.old }
    ensures reads_only { ReadsTables S.Store result
        (AgreesIfGiven (λ r. IsValueOf r seen.entry.caller kinds.Unit seen.entry.unit seen.entry.found.now)
        (λ r. view_at r seen.entry.caller seen.entry.unit seen.entry.moment) seen.entry.moment) conn.old
        conn.new }
    ensures autocommit { LeavesAutocommit conn.old conn.new }
{
    let known = read_unit_record(alloc, conn, seen.unit, seen.moment, seen.found)?;
    match known {
        Some(unit_record) => view_with(alloc, conn, seen, unit_record),
        None => Ok(None),
    }
}

/// The query for the view of a unit.
#[derive(Clone, Copy, Debug)]
pub(crate) struct UnitViewQuery<'a> {
    /// The caller.
    pub(crate) caller: Caller,
    /// The number of the unit.
    pub(crate) unit: u64,
    /// The time, in Unix milliseconds.
    pub(crate) moment: i64,
    /// The value that the verdict read.
    pub(crate) found: &'a CachedValue,
}

impl Query<Option<View>> for UnitViewQuery<'_> {
    ghost use Rattle.land_core.specs.declared.kind.Kind.TheVariants as kinds;
    ghost use Rattle.land_keep.specs.Sheets.{view_at};
    ghost use Rattle.land_select.specs.Cache.{IsValueOf};
    ghost use Rattle.land_select.specs.Views.{AgreesIfGiven};

    ghost results = { λ it db shown.
        AgreesIfGiven (λ r. IsValueOf r it.caller kinds.Unit it.unit it.found.now)
        (λ r. view_at r it.caller it.unit it.moment) it.moment db shown };

    fn run<S: Alter>(
        &self,
        alloc: Global,
        conn: &mut Connection<S>,
    ) -> Result<Option<View>, ReadFault> {
        view(alloc, conn, *self)
    }
}

/// Returns a view with another time.
pub(crate) fn with_moment(found: Option<View>, at: i64) -> Option<View>
    ensures { result ≡ view_at_moment at found }
{
    match found {
        Some(view) => {
            let View {
                unit,
                parcels,
                rrrs,
                at: _,
            } = view;
            Some(View {
                unit,
                parcels,
                rrrs,
                at,
            })
        }
        None => None,
    }
}
