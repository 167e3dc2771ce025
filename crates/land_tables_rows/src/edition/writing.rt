//! The edition of the tables.
ghost use Rattle.land_tables_rows.specs.Edition.Writing.{InsertsEdition, v2_edition};
ghost use Rattle.land_tables_rows.specs.Effects.{Performs};
ghost use Rattle.land_tables_schema.specs.Connections.{HasRegisterTables, SameReference};

use land_tables_schema::rows::tables as rows;
use sqlite::{Alter, Error, Transaction};

/// Inserts edition 2.
pub fn insert<S: Alter>(tx: &mut Transaction<'_, S>) -> Result<usize, Error>
    requires { HasRegisterTables S.Store tx.old.conn.now }
    ensures same_reference { SameReference tx.old tx.new }
    ensures step { Performs S.Store result (InsertsEdition v2_edition) tx.old tx.new }
{
    rows::edition::insert(tx)
}
