//! Reads the tables of a store of a given schema version.
ghost use Rattle.std.specs.Prelude.{IfErr};
ghost use Rattle.land_tables.specs.Adopting.{IsReadFrom, IsContentsFor, IsNotOfVersion, IsRefusedBy};
ghost use Rattle.land_tables.specs.Calls.{ReadsStore};
ghost use Rattle.land_tables.specs.Registers.{version_1, version_2};
ghost use Rattle.land_tables_schema.specs.Connections.{LeavesAutocommit};
ghost use Rattle.sqlite.specs.Held.{state};
ghost use Rattle.sqlite.specs.State.{HasCleanDisk};

use crate::fault::AdoptFault;
use crate::table_contents::{TableContents, add_mandates, read_mandates, read_tables_v1};
use crate::validation::check_edition;
use land_tables_schema::schema::is_schema_v2;
use land_tables_schema::schema_v1::{is_schema_v1, may_be_register_schema};
use sqlite::{Alter, Connection};
use std::alloc::Global;

/// Reads the tables of schema version 1, in a store whose edition is of the given version. Errors: `NotOurs`
/// (520) if a table is missing, a value is not a valid value of its field, or there is not exactly one
/// edition; `Version` (523) if the edition is of another version.
fn read_version_of_tables<S: Alter>(
    alloc: Global,
    conn: &mut Connection<S>,
    version: u64,
) -> Result<TableContents, AdoptFault>
    ensures reads_only { ReadsStore S.Store result (IsReadFrom version) conn.old conn.new }
    ensures missing { HasCleanDisk (state S.Store conn.new)
        → IfErr result (λ fault. IsNotOfVersion version fault (state S.Store conn.old).now) }
    ensures autocommit { LeavesAutocommit conn.old conn.new }
{
    if !may_be_register_schema(conn.schema()) {
        return Err(AdoptFault::NotOurs);
    }
    let found = read_tables_v1(alloc, conn)?;
    check_edition(found.editions.as_slice(), version)?;
    Ok(found)
}

/// Reads a store of schema version 2, which has mandates. Errors: those of reading the tables of version 1,
/// and `NotOurs` (520) if the table of mandates is missing or does not decode.
pub(crate) fn read_store_v2<S: Alter>(
    alloc: Global,
    conn: &mut Connection<S>,
) -> Result<TableContents, AdoptFault>
    ensures reads_only { ReadsStore S.Store result (IsContentsFor version_2) conn.old conn.new }
    ensures refused { IsRefusedBy S.Store result version_2 conn.old conn.new }
    ensures autocommit { LeavesAutocommit conn.old conn.new }
{
    let first = read_version_of_tables(alloc, conn, 2)?;
    if !is_schema_v2(conn.schema()) {
        return Err(AdoptFault::NotOurs);
    }
    let mandates = read_mandates(alloc, conn)?;
    Ok(add_mandates(first, mandates))
}

/// Reads a store of schema version 1, which has no other tables. Errors: those of reading its tables, and
/// `NotOurs` (520) if there is another table.
pub(crate) fn read_store_v1<S: Alter>(
    alloc: Global,
    conn: &mut Connection<S>,
) -> Result<TableContents, AdoptFault>
    ensures reads_only { ReadsStore S.Store result (IsContentsFor version_1) conn.old conn.new }
    ensures refused { IsRefusedBy S.Store result version_1 conn.old conn.new }
    ensures autocommit { LeavesAutocommit conn.old conn.new }
{
    let found = read_version_of_tables(alloc, conn, 1)?;
    if !is_schema_v1(conn.schema()) {
        return Err(AdoptFault::NotOurs);
    }
    Ok(found)
}
