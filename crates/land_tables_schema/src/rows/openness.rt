//! Checks that a store is open.
ghost use Rattle.std.specs.Prelude.{false, IsTrue};
ghost use Rattle.land_tables_schema.specs.Connections.{LeavesAutocommit};
ghost use Rattle.land_tables_schema.specs.Rows.ReadQueries.{IsLeft};
ghost use Rattle.sqlite.specs.Held.{state};
ghost use Rattle.sqlite.specs.State.{HasCleanDisk, IsUnchanged, Survives};

use sqlite::{Alter, Connection, Error};

/// Returns whether the store rejects a malformed statement. Only an open store does so, and it stays
/// unchanged. This allocates nothing, so it works after an out-of-memory error too.
pub fn is_open<S: Alter>(conn: &mut Connection<S>) -> bool
    ensures same { HasCleanDisk (state S.Store conn.new) → IsTrue result
        → IsUnchanged (state S.Store conn.old) (state S.Store conn.new) }
    ensures left { HasCleanDisk (state S.Store conn.new) → IsTrue (state S.Store conn.new).is_open
        → IsLeft (state S.Store conn.old) (state S.Store conn.new) }
    ensures survives { Survives (state S.Store conn.old) (state S.Store conn.new) (λ _. ⊥) }
    ensures autocommit { LeavesAutocommit conn.old conn.new }
{
    match conn.prepare("!") {
        Ok(_) => true,
        Err(Error::SqlInputError(_)) => true,
        Err(_) => false,
    }
}
