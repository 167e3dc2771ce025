//! Reads all versions in the tables.
ghost use Rattle.land_tables_rows.specs.Effects.{ReadsTables};
ghost use Rattle.land_tables_rows.specs.Listing.Groups.{DecodesUnits, DecodesSources, DecodesParties};
ghost use Rattle.land_tables_rows.specs.Listing.Reading.{FailsOnlyIfNone, DecodesHistoryV1, DecodesHistory};
ghost use Rattle.land_tables_schema.specs.Connections.{HasRegisterTables, HasV1Tables, LeavesAutocommit};

use crate::listing::fault::ReadFault;
use crate::listing::reading::read_table;
use land_core::mutation::MutationRecord;
use land_core::parcel::ParcelRecord;
use land_core::party::PartyRecord;
use land_core::roles::Grant;
use land_core::rrr::RrrRecord;
use land_core::sequence::Sequence;
use land_core::source::SourceRecord;
use land_core::unit::UnitRecord;
use land_tables_history::group_member::GroupMember;
use land_tables_history::history::History;
use land_tables_history::naming::Naming;
use land_tables_history::version::Version;
use sqlite::{Alter, Connection};
use std::alloc::Global;

/// Versions of parties, roles and members.
#[derive(Debug, Drop)]
struct PartyVersions {
    parties: Sequence<Version<(u64, PartyRecord)>>,
    roles: Sequence<Version<Grant>>,
    members: Sequence<Version<GroupMember>>,
}

/// Versions of units, parcels and entries.
#[derive(Debug, Drop)]
struct UnitVersions {
    units: Sequence<Version<(u64, UnitRecord)>>,
    parcels: Sequence<Version<(u64, ParcelRecord)>>,
    rrrs: Sequence<Version<(u64, RrrRecord)>>,
}

/// Versions of sources, of mutations, and of their links to units.
#[derive(Debug, Drop)]
struct SourceVersions {
    sources: Sequence<Version<(u64, SourceRecord)>>,
    mutations: Sequence<Version<(u64, MutationRecord)>>,
    namings: Sequence<Version<Naming>>,
}

fn read_parties_and_roles<S: Alter>(
    alloc: Global,
    conn: &mut Connection<S>,
) -> Result<PartyVersions, ReadFault>
    requires { HasV1Tables S.Store conn.old }
    ensures reads_only { ReadsTables S.Store result DecodesParties conn.old conn.new }
    ensures unreadable { FailsOnlyIfNone S.Store result DecodesParties conn.old conn.new }
    ensures autocommit { LeavesAutocommit conn.old conn.new }
{
    let parties = read_table(alloc, conn)?;
    let roles = read_table(alloc, conn)?;
    let members = read_table(alloc, conn)?;
    Ok(PartyVersions {
        parties,
        roles,
        members,
    })
}

fn read_units_and_entries<S: Alter>(
    alloc: Global,
    conn: &mut Connection<S>,
) -> Result<UnitVersions, ReadFault>
    requires { HasV1Tables S.Store conn.old }
    ensures reads_only { ReadsTables S.Store result DecodesUnits conn.old conn.new }
    ensures unreadable { FailsOnlyIfNone S.Store result DecodesUnits conn.old conn.new }
    ensures autocommit { LeavesAutocommit conn.old conn.new }
{
    let units = read_table(alloc, conn)?;
    let parcels = read_table(alloc, conn)?;
    let rrrs = read_table(alloc, conn)?;
    Ok(UnitVersions {
        units,
        parcels,
        rrrs,
    })
}

fn read_sources_and_mutations<S: Alter>(
    alloc: Global,
    conn: &mut Connection<S>,
) -> Result<SourceVersions, ReadFault>
    requires { HasV1Tables S.Store conn.old }
    ensures reads_only { ReadsTables S.Store result DecodesSources conn.old conn.new }
    ensures unreadable { FailsOnlyIfNone S.Store result DecodesSources conn.old conn.new }
    ensures autocommit { LeavesAutocommit conn.old conn.new }
{
    let sources = read_table(alloc, conn)?;
    let mutations = read_table(alloc, conn)?;
    let namings = read_table(alloc, conn)?;
    Ok(SourceVersions {
        sources,
        mutations,
        namings,
    })
}

/// Reads all versions in the tables of schema version 1, of each kind in unspecified order, without mandates.
/// Errors: `Unreadable` (520) if a value is not a valid value of its field; `NoMemory` (501); `Store` (502).
pub fn read_history_v1<S: Alter>(
    alloc: Global,
    conn: &mut Connection<S>,
) -> Result<History, ReadFault>
    requires { HasV1Tables S.Store conn.old }
    ensures reads_only { ReadsTables S.Store result DecodesHistoryV1 conn.old conn.new }
    ensures unreadable { FailsOnlyIfNone S.Store result DecodesHistoryV1 conn.old conn.new }
    ensures autocommit { LeavesAutocommit conn.old conn.new }
{
    let persons = read_parties_and_roles(alloc, conn)?;
    let holdings = read_units_and_entries(alloc, conn)?;
    let sources_and_mutations = read_sources_and_mutations(alloc, conn)?;
    Ok(History {
        parties: persons.parties,
        roles: persons.roles,
        members: persons.members,
        units: holdings.units,
        parcels: holdings.parcels,
        rrrs: holdings.rrrs,
        sources: sources_and_mutations.sources,
        mutations: sources_and_mutations.mutations,
        namings: sources_and_mutations.namings,
        mandates: Sequence::new(alloc),
    })
}

/// Reads all versions, of each kind in unspecified order. Errors: `Unreadable` (520) if a value is not a
/// valid value of its field; `NoMemory` (501); `Store` (502).
pub fn history<S: Alter>(alloc: Global, conn: &mut Connection<S>) -> Result<History, ReadFault>
    requires { HasRegisterTables S.Store conn.old }
    ensures reads_only { ReadsTables S.Store result DecodesHistory conn.old conn.new }
    ensures unreadable { FailsOnlyIfNone S.Store result DecodesHistory conn.old conn.new }
    ensures autocommit { LeavesAutocommit conn.old conn.new }
{
    let mut history = read_history_v1(alloc, conn)?;
    let mandates = read_table(alloc, conn)?;
    history.mandates = mandates;
    Ok(history)
}
