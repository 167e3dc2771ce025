//! Migrates a register from schema version 1 to version 2.
ghost use Rattle.std.specs.Prelude.{◌≡◌, false, IsTrue, OnErr, OnOk};
ghost use Rattle.land_tables_schema.specs.Connections.{HasRegisterTables, InTransaction, SameReference};
ghost use Rattle.land_tables_schema.specs.Schemas.{IsSchemaV1, IsMigratable};
ghost use Rattle.land_tables_schema.specs.Rows.SchemaMigration.{DropsLookupIndexes, CreatesLookupIndexes};
ghost use Rattle.land_tables_schema.specs.Rows.SchemaMigration.{CreatesMandateTable, MayMigrate};
ghost use Rattle.land_tables_schema.specs.Rows.SchemaMigration.{Migrates};
ghost use Rattle.land_tables_schema.specs.Tables as table;
ghost use Rattle.sqlite.specs.Held.{state};
ghost use Rattle.sqlite.specs.State.{HasCleanDisk, Survives};
ghost use Rattle.sqlite_catalog.specs.Change.{next_tree};

use crate::making::define_all;
use crate::rows::tables::edition::raise;
use crate::tables::{drop_statements, index_statements, mandate};
use sqlite::{Alter, Connection, Error, Transaction};

/// Drops those plain indexes of schema version 1 that exist, because tables come before them.
fn drop_lookup_indexes<S: Alter>(tx: &mut Transaction<'_, S>) -> Result<(), Error>
    requires { HasCleanDisk (state S.Store tx.old.conn.now)
        → IsMigratable (state S.Store tx.old.conn.now).now.schema }
    ensures same_reference { SameReference tx.old tx.new }
    ensures step { InTransaction S.Store result DropsLookupIndexes tx.old tx.new }
{
    define_all(tx, drop_statements())
}

/// Creates the table `mandate`, which gets the next tree, without a row.
fn create_mandate_table<S: Alter>(tx: &mut Transaction<'_, S>) -> Result<usize, Error>
    requires first { HasCleanDisk (state S.Store tx.old.conn.now)
        → IsSchemaV1 (state S.Store tx.old.conn.now).now.schema }
    requires next { HasCleanDisk (state S.Store tx.old.conn.now)
        → next_tree (state S.Store tx.old.conn.now).now.schema ≡ table.mandate.tree }
    ensures same_reference { SameReference tx.old tx.new }
    ensures step { InTransaction S.Store result CreatesMandateTable tx.old tx.new }
{
    tx.execute(mandate::CREATE, &[])
}

/// Creates the plain indexes of the register, each in the next tree.
fn create_lookup_indexes<S: Alter>(tx: &mut Transaction<'_, S>) -> Result<(), Error>
    requires { HasRegisterTables S.Store tx.old.conn.now }
    ensures same_reference { SameReference tx.old tx.new }
    ensures step { InTransaction S.Store result CreatesLookupIndexes tx.old tx.new }
{
    define_all(tx, index_statements())
}

/// Runs all steps of the migration: table, indexes, schema version. Stops at the first error.
fn migrate_all<S: Alter>(tx: &mut Transaction<'_, S>) -> Result<(), Error>
    requires { HasCleanDisk (state S.Store tx.old.conn.now)
        → IsMigratable (state S.Store tx.old.conn.now).now.schema }
    ensures same_reference { SameReference tx.old tx.new }
    ensures step { InTransaction S.Store result Migrates tx.old tx.new }
{
    drop_lookup_indexes(tx)?;
    create_mandate_table(tx)?;
    create_lookup_indexes(tx)?;
    raise(tx)?;
    Ok(())
}

/// Migrates a register from schema version 1 to version 2, without mandates, in one transaction. The commit
/// is its last store operation. If an error leaves the store open, the store is unchanged. A crash leaves it
/// either unchanged or fully migrated.
pub fn migrate_register<S: Alter>(conn: &mut Connection<S>) -> Result<(), Error>
    requires alone { conn.old.in_transaction ≡ false }
    requires raisable { HasCleanDisk (state S.Store conn.old)
        → IsMigratable (state S.Store conn.old).now.schema }
    ensures done { HasCleanDisk (state S.Store conn.new)
        → OnOk result (Migrates (state S.Store conn.old).now (state S.Store conn.new).now) }
    ensures committed { HasCleanDisk (state S.Store conn.new)
        → OnOk result ((state S.Store conn.new).committed ≡ (state S.Store conn.new).now) }
    ensures open { HasCleanDisk (state S.Store conn.new)
        → OnOk result (IsTrue (state S.Store conn.new).is_open) }
    ensures neither { HasCleanDisk (state S.Store conn.new) → IsTrue (state S.Store conn.new).is_open
        → OnErr result (((state S.Store conn.new).now ≡ (state S.Store conn.old).committed)
        × ((state S.Store conn.new).committed ≡ (state S.Store conn.old).committed)) }
    ensures crash { Survives (state S.Store conn.old) (state S.Store conn.new)
        (MayMigrate (state S.Store conn.old).now) }
    ensures ended { conn.new.in_transaction ≡ false }
{
    let mut tx = conn.transaction();
    migrate_all(&mut tx)?;
    tx.commit()
}
