//! Reads the slice of a register for an act, or the part of it that the outcome depends on, by lookups.
ghost use Rattle.std.specs.Prelude.{◌≡◌, ◌++◌, ◌&&◌, ℕ, nat_eq, map as map_list, IfOk};
ghost use Rattle.land_acts.specs.Slices.{includes_party, mutations_in_slice, names_mandate, names_rrr};
ghost use Rattle.land_acts.specs.Slices.{slice_with};
ghost use Rattle.land_core.specs.Entries.{entries_where, some};
ghost use Rattle.land_core.specs.Grants.{grants_in};
ghost use Rattle.land_core.specs.Role.{is_role};
ghost use Rattle.land_core.specs.declared.act.Act.{Act as Deed};
ghost use Rattle.land_core.specs.declared.caller.Caller.{Caller as Asker};
ghost use Rattle.land_core.specs.declared.role.Role.TheVariants.{StateAdministrator};
ghost use Rattle.land_rules.specs.Denials.Standing.{mutation_of_act};
ghost use Rattle.land_select.specs.Cache.{IsMutationValue};
ghost use Rattle.land_select.specs.Slices.Gathered.{HoldsOfRegister, IsKnown, KnowsParties, KnowsUnits};
ghost use Rattle.land_select.specs.Slices.Gathered.{numbers_if, parts_to_read, read_slice_of};
ghost use Rattle.land_select.specs.Slices.Named.{lists, parties_of, units_of};
ghost use Rattle.land_select_queries.specs.Lookups.Parts.{ReadsPart};
ghost use Rattle.land_select_queries.specs.TableReads.{ReadsTables};
ghost use Rattle.land_tables_schema.specs.Connections.{HasRegisterTables, IsUsable, LeavesAutocommit};

use crate::cache::CachedValue;
use crate::slices::gathers::{gather_all, gather_included};
use crate::slices::mutations::mutations_of;
use crate::slices::named::{parties_of, sources_of, units_of};
use crate::slices::pairs::mandates_of;
use crate::slices::parties_and_roles::{PartiesAndRoles, put_all, put_one};
use crate::slices::units_and_entries::UnitsAndEntries;
use land_acts::slice::Slice;
use land_acts::slice_parts::{SliceParts, needed_parts};
use land_core::act::Act;
use land_core::caller::Caller;
use land_core::mandates::Mandates;
use land_core::mutation::MutationRecord;
use land_core::records::Records;
use land_core::register::Register;
use land_core::roles::Roles;
use land_core::rrr::RrrRecord;
use land_core::sequence::NumberList;
use land_core::source::SourceRecord;
use land_select_queries::lookups::{by_number, office};
use land_tables_rows::listing::fault::ReadFault;
use sqlite::{Alter, Connection};
use std::alloc::{AllocError, Global};

/// Returns the parties that an act refers to, if they are included.
fn referenced_parties(
    alloc: Global,
    act: &Act,
    mutations: &Records<MutationRecord>,
    is_included: bool,
) -> Result<NumberList, AllocError>
    ensures { IfOk result (λ it. it ≡ numbers_if is_included (parties_of act.now mutations.now)) }
{
    if is_included {
        parties_of(alloc, act, mutations)
    } else {
        Ok(NumberList::new(alloc))
    }
}

/// Adds the holders of some roles to a list of parties.
fn with_holders(parties: NumberList, roles: &Roles) -> Result<NumberList, AllocError>
    ensures { IfOk result
        (λ it. it ≡ parties ++ map_list (λ grant. grant.party) (grants_in roles.now)) }
{
    let mut parties = parties;
    for grant in roles.iter() {
        parties.push(grant.party)?;
    }
    Ok(parties)
}

/// Returns the units that an act refers to, if they are included.
fn referenced_units(
    alloc: Global,
    act: &Act,
    mutations: &Records<MutationRecord>,
    is_included: bool,
) -> Result<NumberList, AllocError>
    ensures { IfOk result (λ it. it ≡ numbers_if is_included (units_of act.now mutations.now)) }
{
    if is_included {
        units_of(alloc, act, mutations)
    } else {
        Ok(NumberList::new(alloc))
    }
}

/// Reads the roles of all state administrators, if they are included.
fn read_administrators<S: Alter>(
    alloc: Global,
    conn: &mut Connection<S>,
    is_included: bool,
    at: i64,
) -> Result<Roles, ReadFault>
    requires open { IsUsable S.Store conn.old }
    requires has_tables { HasRegisterTables S.Store conn.old }
    ensures reads_only { ReadsTables S.Store result
        (ReadsPart (λ r. entries_where
        (λ grant u. is_included && is_role grant.role StateAdministrator) r.roles) at)
        conn.old conn.new }
    ensures autocommit { LeavesAutocommit conn.old conn.new }
{
    if is_included {
        office::administrators(alloc, conn, at)
    } else {
        Ok(Roles::new(alloc))
    }
}

/// Reads parties, and their roles and members if these are included.
fn read_listed_parties<S: Alter>(
    alloc: Global,
    conn: &mut Connection<S>,
    parts: SliceParts,
    parties: &[u64],
    at: i64,
) -> Result<PartiesAndRoles, ReadFault>
    requires open { IsUsable S.Store conn.old }
    requires has_tables { HasRegisterTables S.Store conn.old }
    ensures reads_only { ReadsTables S.Store result
        (λ db it. HoldsOfRegister (λ r. (act : Deed)
        → ((n : ℕ) → lists parties.now n ≡ includes_party parts r act n)
        → KnowsParties parts r act it) at db) conn.old conn.new }
    ensures autocommit { LeavesAutocommit conn.old conn.new }
{
    let found = gather_all(alloc, conn, Records::new(alloc), parties, at)?;
    let roles = gather_included(alloc, conn, Roles::new(alloc), parties, parts.roles, at)?;
    let members = gather_included(alloc, conn, Records::new(alloc), parties, parts.members, at)?;
    Ok(PartiesAndRoles {
        parties: found,
        roles,
        members,
    })
}

/// Reads the parties that some parts of a slice include, and their roles and members.
fn read_parties<S: Alter>(
    alloc: Global,
    conn: &mut Connection<S>,
    act: &Act,
    parts: SliceParts,
    mutations: &Records<MutationRecord>,
    at: i64,
) -> Result<PartiesAndRoles, ReadFault>
    requires open { IsUsable S.Store conn.old }
    requires has_tables { HasRegisterTables S.Store conn.old }
    ensures reads_only { ReadsTables S.Store result
        (λ db it. HoldsOfRegister (λ r. (caller : Asker) → mutations.now ≡ mutations_in_slice r caller act.now
        → KnowsParties parts r act.now it) at db) conn.old conn.new }
    ensures autocommit { LeavesAutocommit conn.old conn.new }
{
    let office = read_administrators(alloc, conn, parts.administrators, at)?;
    let referenced = referenced_parties(alloc, act, mutations, parts.parties)?;
    let parties = with_holders(referenced, &office)?;
    read_listed_parties(alloc, conn, parts, parties.as_slice(), at)
}

/// Reads the units that some parts of a slice include, and their parcels and entries.
fn read_units<S: Alter>(
    alloc: Global,
    conn: &mut Connection<S>,
    act: &Act,
    parts: SliceParts,
    mutations: &Records<MutationRecord>,
    at: i64,
) -> Result<UnitsAndEntries, ReadFault>
    requires open { IsUsable S.Store conn.old }
    requires has_tables { HasRegisterTables S.Store conn.old }
    ensures reads_only { ReadsTables S.Store result
        (λ db it. HoldsOfRegister (λ r. (caller : Asker) → mutations.now ≡ mutations_in_slice r caller act.now
        → KnowsUnits parts r act.now it) at db) conn.old conn.new }
    ensures autocommit { LeavesAutocommit conn.old conn.new }
{
    let listed = referenced_units(alloc, act, mutations, parts.units)?;
    let numbers = listed.as_slice();
    let units = gather_all(alloc, conn, Records::new(alloc), numbers, at)?;
    let parcels = gather_included(alloc, conn, Records::new(alloc), numbers, parts.parcels, at)?;
    let rrrs = gather_all(alloc, conn, Records::new(alloc), numbers, at)?;
    Ok(UnitsAndEntries {
        units,
        parcels,
        rrrs,
    })
}

/// Reads the sources of the mutations that an act refers to, if they are included.
fn read_sources<S: Alter>(
    alloc: Global,
    conn: &mut Connection<S>,
    mutations: &Records<MutationRecord>,
    is_included: bool,
    at: i64,
) -> Result<Records<SourceRecord>, ReadFault>
    requires open { IsUsable S.Store conn.old }
    requires has_tables { HasRegisterTables S.Store conn.old }
    ensures reads_only { ReadsTables S.Store result
        (ReadsPart (λ r. entries_where
        (λ n s. is_included && some (λ k m. nat_eq m.source n) mutations.now) r.sources) at)
        conn.old conn.new }
    ensures autocommit { LeavesAutocommit conn.old conn.new }
{
    let sources = sources_of(alloc, mutations)?;
    gather_included(
        alloc,
        conn,
        Records::new(alloc),
        sources.as_slice(),
        is_included,
        at,
    )
}

/// Reads the entry of a number, if it exists.
fn entry_at<S: Alter>(
    alloc: Global,
    conn: &mut Connection<S>,
    number: u64,
    at: i64,
) -> Result<Records<RrrRecord>, ReadFault>
    requires has_tables { HasRegisterTables S.Store conn.old }
    ensures reads_only { ReadsTables S.Store result
        (ReadsPart (λ r. entries_where (λ n e. nat_eq n number) r.rrrs) at) conn.old
        conn.new }
    ensures autocommit { LeavesAutocommit conn.old conn.new }
{
    let found = by_number::record(alloc, conn, number, at)?;
    Ok(put_one(Records::new(alloc), number, found)?)
}

/// Reads the entry that an act lifts, if any.
fn read_lifted_entry<S: Alter>(
    alloc: Global,
    conn: &mut Connection<S>,
    act: &Act,
    at: i64,
) -> Result<Records<RrrRecord>, ReadFault>
    requires open { IsUsable S.Store conn.old }
    requires has_tables { HasRegisterTables S.Store conn.old }
    ensures reads_only { ReadsTables S.Store result
        (ReadsPart (λ r. entries_where (λ n e. names_rrr r act.now n) r.rrrs) at)
        conn.old conn.new }
    ensures autocommit { LeavesAutocommit conn.old conn.new }
{
    match act {
        Act::Lift(it) => entry_at(alloc, conn, it.rrr, at),
        _ => Ok(Records::new(alloc)),
    }
}

/// The records of a slice that are read before its sources and the lifted entry.
#[derive(Debug, Drop)]
struct Known {
    mutations: Records<MutationRecord>,
    parties_and_roles: PartiesAndRoles,
    units_and_entries: UnitsAndEntries,
    mandates: Mandates,
    next: u64,
}

/// Completes some parts of a slice.
fn slice_with<S: Alter>(
    alloc: Global,
    conn: &mut Connection<S>,
    act: &Act,
    parts: SliceParts,
    known: Known,
    at: i64,
) -> Result<Slice, ReadFault>
    requires open { IsUsable S.Store conn.old }
    requires has_tables { HasRegisterTables S.Store conn.old }
    ensures reads_only { ReadsTables S.Store result
        (λ db it. HoldsOfRegister (λ r. (caller : Asker) → IsKnown parts r caller act.now known
        → it ≡ slice_with parts r caller act.now) at db) conn.old conn.new }
    ensures autocommit { LeavesAutocommit conn.old conn.new }
{
    let Known {
        mutations,
        parties_and_roles,
        units_and_entries,
        mandates,
        next,
    } = known;
    let sources = read_sources(alloc, conn, &mutations, parts.sources, at)?;
    let lifted = read_lifted_entry(alloc, conn, act, at)?;
    Ok(Register {
        parties: parties_and_roles.parties,
        roles: parties_and_roles.roles,
        members: parties_and_roles.members,
        units: units_and_entries.units,
        parcels: units_and_entries.parcels,
        rrrs: put_all(alloc, units_and_entries.rrrs, &lifted)?,
        sources,
        mutations,
        mandates,
        next,
    })
}

/// Reads some parts of the slice of an act whose mutations and mandate are known.
fn slice_about<S: Alter>(
    alloc: Global,
    conn: &mut Connection<S>,
    act: &Act,
    parts: SliceParts,
    mutations: Records<MutationRecord>,
    mandates: Mandates,
    next: u64,
    at: i64,
) -> Result<Slice, ReadFault>
    requires open { IsUsable S.Store conn.old }
    requires has_tables { HasRegisterTables S.Store conn.old }
    ensures reads_only { ReadsTables S.Store result
        (λ db it. HoldsOfRegister (λ r. r.next ≡ next → (caller : Asker)
        → mutations ≡ mutations_in_slice r caller act.now
        → mandates ≡ entries_where (λ m u. names_mandate caller act.now m) r.mandates
        → it ≡ slice_with parts r caller act.now)
        at db) conn.old conn.new }
    ensures autocommit { LeavesAutocommit conn.old conn.new }
{
    let parties_and_roles = read_parties(alloc, conn, act, parts, &mutations, at)?;
    let units_and_entries = read_units(alloc, conn, act, parts, &mutations, at)?;
    let known = Known {
        mutations,
        parties_and_roles,
        units_and_entries,
        mandates,
        next,
    };
    slice_with(alloc, conn, act, parts, known, at)
}

/// Returns the parts of a slice to read: those that the outcome of the act depends on, or all.
fn parts_to_read(needed_only: bool, mutations: &Records<MutationRecord>, act: &Act) -> SliceParts
    ensures { result ≡ parts_to_read needed_only mutations.now act.now }
{
    if needed_only {
        needed_parts(mutations, act)
    } else {
        SliceParts::all()
    }
}

/// Reads the slice for an act at a time, in Unix milliseconds, with the given next number, or only the part
/// of it that the outcome of the act depends on. Only records of the numbers that the act refers to, and
/// those of its caller, are read; the mutation that it decides only if it is not cached. Returns error 520
/// only if the tables hold no history, and 501 if out of memory.
pub(crate) fn slice_at<S: Alter>(
    alloc: Global,
    conn: &mut Connection<S>,
    caller: Caller,
    act: &Act,
    needed_only: bool,
    known: &CachedValue,
    next: u64,
    at: i64,
) -> Result<Slice, ReadFault>
    requires open { IsUsable S.Store conn.old }
    requires has_tables { HasRegisterTables S.Store conn.old }
    ensures reads_only { ReadsTables S.Store result
        (λ db it. HoldsOfRegister (λ r. IsMutationValue r caller (mutation_of_act act.now) known.now
        → r.next ≡ next → it ≡ read_slice_of needed_only r caller act.now) at db) conn.old conn.new }
    ensures autocommit { LeavesAutocommit conn.old conn.new }
{
    let mutations = mutations_of(alloc, conn, caller, act, known, at)?;
    let mandates = mandates_of(alloc, conn, caller, act, at)?;
    let parts = parts_to_read(needed_only, &mutations, act);
    slice_about(alloc, conn, act, parts, mutations, mandates, next, at)
}
