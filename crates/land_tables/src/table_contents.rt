//! Reads and decodes the tables of a store.
ghost use Rattle.std.specs.Prelude.{◌≡◌, ◌≢◌, IfErr};
ghost use Rattle.land_tables.specs.TableContents.{ReadsMandates, ReadsTablesV1, DecodesRowsV1};
ghost use Rattle.land_tables_rows.specs.Effects.{ReadsTables};
ghost use Rattle.land_tables_rows.specs.Listing.Reading as listing;
ghost use Rattle.land_tables_rows.specs.Listing.Reading.{FailsOnlyIfNone, Says};
ghost use Rattle.land_tables_rows.specs.Rowids.{HaveUniqueRowidsV1, HasUniqueRowids};
ghost use Rattle.land_tables_rows.specs.declared.listing.fault.ReadFault.TheVariants.{Unreadable};
ghost use Rattle.land_tables_schema.specs.Connections.{HasRegisterTables, HasV1Tables, LeavesAutocommit};
ghost use Rattle.land_tables_schema.specs.Tables as table;

use land_core::mandates::Mandate;
use land_core::sequence::Sequence;
use land_tables_history::history::History;
use land_tables_history::moment::Moment;
use land_tables_history::version::Version;
use land_tables_rows::edition::reading::Edition;
use land_tables_rows::listing::fault::ReadFault;
use land_tables_rows::listing::{history, reading};
use land_tables_rows::rowids::rowids;
use sqlite::{Alter, Connection};
use std::alloc::Global;

/// The decoded rows of all tables.
#[derive(Debug, Drop)]
pub struct TableContents {
    /// The schema version of the tables.
    pub editions: Sequence<Edition>,
    /// The moments at which the register changed.
    pub moments: Sequence<Moment>,
    /// All versions of its records.
    pub history: History,
}

/// Reads all rows of the tables of schema version 1, which has no mandates.
fn read_rows_v1<S: Alter>(
    alloc: Global,
    conn: &mut Connection<S>,
) -> Result<TableContents, ReadFault>
    requires { HasV1Tables S.Store conn.old }
    ensures reads_only { ReadsTables S.Store result DecodesRowsV1 conn.old conn.new }
    ensures unreadable { FailsOnlyIfNone S.Store result DecodesRowsV1 conn.old conn.new }
    ensures autocommit { LeavesAutocommit conn.old conn.new }
{
    let editions = reading::editions(alloc, conn)?;
    let moments = reading::moments(alloc, conn)?;
    let history = history::read_history_v1(alloc, conn)?;
    Ok(TableContents {
        editions,
        moments,
        history,
    })
}

/// Checks that the rows of versions have unique rowids, as they do unless the file is corrupted.
fn check_rowids_v1<S: Alter>(alloc: Global, conn: &mut Connection<S>) -> Result<(), ReadFault>
    requires { HasV1Tables S.Store conn.old }
    ensures reads_only { ReadsTables S.Store result (λ db _. HaveUniqueRowidsV1 db) conn.old conn.new }
    ensures read { IfErr result (λ fault. fault ≢ Unreadable) }
    ensures autocommit { LeavesAutocommit conn.old conn.new }
{
    rowids::check_unique_rowids_v1(alloc, conn)?;
    Ok(())
}

/// Reads the tables of schema version 1. Errors: `Unreadable` if a value is not a valid value of its field;
/// `NoMemory`; `Store`.
pub(crate) fn read_tables_v1<S: Alter>(
    alloc: Global,
    conn: &mut Connection<S>,
) -> Result<TableContents, ReadFault>
    requires { HasV1Tables S.Store conn.old }
    ensures reads_only { ReadsTables S.Store result ReadsTablesV1 conn.old conn.new }
    ensures unreadable { FailsOnlyIfNone S.Store result DecodesRowsV1 conn.old conn.new }
    ensures autocommit { LeavesAutocommit conn.old conn.new }
{
    check_rowids_v1(alloc, conn)?;
    read_rows_v1(alloc, conn)
}

/// Checks that the rows of mandates have unique rowids.
fn check_mandate_rowids<S: Alter>(alloc: Global, conn: &mut Connection<S>) -> Result<(), ReadFault>
    requires { HasRegisterTables S.Store conn.old }
    ensures reads_only { ReadsTables S.Store result (λ db _. HasUniqueRowids table.mandate db) conn.old
        conn.new }
    ensures read { IfErr result (λ fault. fault ≢ Unreadable) }
    ensures autocommit { LeavesAutocommit conn.old conn.new }
{
    rowids::check_mandates_unique_rowids(alloc, conn)?;
    Ok(())
}

/// Reads the table of mandates. Errors: `Unreadable` if a value is not a valid value of its field;
/// `NoMemory`; `Store`.
pub(crate) fn read_mandates<S: Alter>(
    alloc: Global,
    conn: &mut Connection<S>,
) -> Result<Sequence<Version<Mandate>>, ReadFault>
    requires { HasRegisterTables S.Store conn.old }
    ensures reads_only { ReadsTables S.Store result ReadsMandates conn.old conn.new }
    ensures unreadable { FailsOnlyIfNone S.Store result (Says listing.mandates) conn.old conn.new }
    ensures autocommit { LeavesAutocommit conn.old conn.new }
{
    check_mandate_rowids(alloc, conn)?;
    reading::read_table(alloc, conn)
}

/// Adds mandates to the contents of the tables of schema version 1.
pub(crate) fn add_mandates(
    found: TableContents,
    listed: Sequence<Version<Mandate>>,
) -> TableContents
    ensures { result ≡ record found { history = record found.history { mandates = listed } } }
{
    let mut found = found;
    found.history.mandates = listed;
    found
}
