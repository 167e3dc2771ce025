//! Runs the statements that create the tables and change the schema.
ghost use Rattle.std.specs.Prelude.{◌≡◌, map};
ghost use Rattle.land_tables_schema.specs.Connections.{InTransaction, SameReference};
ghost use Rattle.land_tables_schema.specs.Definitions.{AreReady, IsReady};
ghost use Rattle.land_tables_schema.specs.Schemas.{no_schema};
ghost use Rattle.land_tables_schema.specs.Making.{Defines, DefinesAll, IsMade};
ghost use Rattle.sqlite.specs.Held.{state};
ghost use Rattle.sqlite.specs.State.{HasCleanDisk};

use crate::laws::statements_create_schema;
use crate::tables::texts;
use sqlite::{Alter, Error, Transaction};

/// Runs one CREATE or one DROP INDEX statement. Returns an error if it fails.
fn define<S: Alter>(tx: &mut Transaction<'_, S>, text: &str) -> Result<usize, Error>
    requires { HasCleanDisk (state S.Store tx.old.conn.now)
        → IsReady (state S.Store tx.old.conn.now).now.schema text.now }
    ensures same_reference { SameReference tx.old tx.new }
    ensures step { InTransaction S.Store result (Defines text.now) tx.old tx.new }
{
    tx.execute(text, &[])
}

/// Runs these statements in order, up to the first error.
pub(crate) fn define_all<S: Alter>(tx: &mut Transaction<'_, S>, texts: &[&str]) -> Result<(), Error>
    requires { HasCleanDisk (state S.Store tx.old.conn.now)
        → AreReady (state S.Store tx.old.conn.now).now.schema (map (λ t. t.now) texts.now) }
    ensures same_reference { SameReference tx.old tx.new }
    ensures step { InTransaction S.Store result (DefinesAll (map (λ t. t.now) texts.now)) tx.old tx.new }
{
    for text in texts {
        define(tx, text)?;
    }
    Ok(())
}

/// Creates the register's tables and plain indexes, without rows, in an empty store. Commits nothing; after
/// an error the caller drops the transaction, which rolls it back.
pub fn create_schema<S: Alter>(tx: &mut Transaction<'_, S>) -> Result<(), Error>
    requires { HasCleanDisk (state S.Store tx.old.conn.now) → (state S.Store tx.old.conn.now).now.schema
        ≡ no_schema }
    ensures same_reference { SameReference tx.old tx.new }
    ensures step { InTransaction S.Store result (λ _ new. IsMade new) tx.old tx.new }
{
    statements_create_schema();
    define_all(tx, texts())
}
