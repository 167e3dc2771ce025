//! Checks that the rows of each table of versions have unique rowids.
ghost use Rattle.land_tables_rows.specs.Effects.{ReadsTables};
ghost use Rattle.land_tables_rows.specs.Rowids.{HaveUniqueRowidsV1, UnitsHaveUniqueRowids, HasUniqueRowids};
ghost use Rattle.land_tables_rows.specs.Rowids.{SourcesHaveUniqueRowids};
ghost use Rattle.land_tables_rows.specs.Rowids.{PartiesHaveUniqueRowids};
ghost use Rattle.land_tables_schema.specs.Connections.{HasRegisterTables, HasV1Tables, LeavesAutocommit};
ghost use Rattle.land_tables_schema.specs.Tables as table;
ghost use Rattle.sqlite.specs.Held.{state};
ghost use Rattle.sqlite.specs.State.{HasCleanDisk};

use crate::rowids::apart::are_numbered;
use crate::rowids::keyed::Keyed;
use land_core::mandates::Mandate;
use land_core::mutation::MutationRecord;
use land_core::parcel::ParcelRecord;
use land_core::party::PartyRecord;
use land_core::roles::Grant;
use land_core::rrr::RrrRecord;
use land_core::source::SourceRecord;
use land_core::unit::UnitRecord;
use land_tables_history::group_member::GroupMember;
use land_tables_history::naming::Naming;
use land_tables_history::version::Version;
use sqlite::{Alter, Connection, Error};
use std::alloc::Global;

/// Checks that the rows of a table have unique rowids.
fn check_table<S: Alter, X: Keyed>(alloc: Global, conn: &mut Connection<S>) -> Result<(), Error>
    requires { HasCleanDisk (state S.Store conn.old) → X.has (state S.Store conn.old).now.schema }
    ensures reads_only { ReadsTables S.Store result (λ db _. HasUniqueRowids X.listing.table db) conn.old
        conn.new }
    ensures autocommit { LeavesAutocommit conn.old conn.new }
{
    let rows = X::rowids(conn)?;
    are_numbered(alloc, rows.as_slice())
}

/// Checks the tables of parties, roles and members.
fn persons<S: Alter>(alloc: Global, conn: &mut Connection<S>) -> Result<(), Error>
    requires { HasV1Tables S.Store conn.old }
    ensures reads_only { ReadsTables S.Store result (λ db _. PartiesHaveUniqueRowids db) conn.old conn.new }
    ensures autocommit { LeavesAutocommit conn.old conn.new }
{
    check_table::<S, Version<(u64, PartyRecord)>>(alloc, conn)?;
    check_table::<S, Version<Grant>>(alloc, conn)?;
    check_table::<S, Version<GroupMember>>(alloc, conn)
}

/// Checks the tables of units, parcels and entries.
fn holdings<S: Alter>(alloc: Global, conn: &mut Connection<S>) -> Result<(), Error>
    requires { HasV1Tables S.Store conn.old }
    ensures reads_only { ReadsTables S.Store result (λ db _. UnitsHaveUniqueRowids db) conn.old conn.new }
    ensures autocommit { LeavesAutocommit conn.old conn.new }
{
    check_table::<S, Version<(u64, UnitRecord)>>(alloc, conn)?;
    check_table::<S, Version<(u64, ParcelRecord)>>(alloc, conn)?;
    check_table::<S, Version<(u64, RrrRecord)>>(alloc, conn)
}

/// Checks the tables of sources, mutations and their units.
fn sources_and_mutations<S: Alter>(alloc: Global, conn: &mut Connection<S>) -> Result<(), Error>
    requires { HasV1Tables S.Store conn.old }
    ensures reads_only { ReadsTables S.Store result (λ db _. SourcesHaveUniqueRowids db) conn.old conn.new }
    ensures autocommit { LeavesAutocommit conn.old conn.new }
{
    check_table::<S, Version<(u64, SourceRecord)>>(alloc, conn)?;
    check_table::<S, Version<(u64, MutationRecord)>>(alloc, conn)?;
    check_table::<S, Version<Naming>>(alloc, conn)
}

/// Checks that the rows of all tables of schema version 1 that hold versions have unique rowids. Errors:
/// `Store` (502) if they do not, since the file is then corrupted, or if a read fails; `NoMemory` (501). A
/// store that is still open is unchanged.
pub fn check_unique_rowids_v1<S: Alter>(
    alloc: Global,
    conn: &mut Connection<S>,
) -> Result<(), Error>
    requires { HasV1Tables S.Store conn.old }
    ensures reads_only { ReadsTables S.Store result (λ db _. HaveUniqueRowidsV1 db) conn.old conn.new }
    ensures autocommit { LeavesAutocommit conn.old conn.new }
{
    persons(alloc, conn)?;
    holdings(alloc, conn)?;
    sources_and_mutations(alloc, conn)
}

/// Checks the table of mandates likewise.
pub fn check_mandates_unique_rowids<S: Alter>(
    alloc: Global,
    conn: &mut Connection<S>,
) -> Result<(), Error>
    requires { HasRegisterTables S.Store conn.old }
    ensures reads_only { ReadsTables S.Store result (λ db _. HasUniqueRowids table.mandate db) conn.old
        conn.new }
    ensures autocommit { LeavesAutocommit conn.old conn.new }
{
    check_table::<S, Version<Mandate>>(alloc, conn)
}
