//! Failed reads of a store.
ghost use Rattle.std.specs.Prelude.{◌≡◌, ◌≢◌};
ghost use Rattle.land_keep.specs.declared.store_fault.StoreFault.TheVariants as store;
ghost use Rattle.land_tables.specs.Calls.{CommitsNothing, IsLeftIfOpen};
ghost use Rattle.land_tables_schema.specs.Connections.{LeavesAutocommit};
ghost use Rattle.sqlite.specs.Held.{state};
ghost use Rattle.sqlite.specs.State.{HasCleanDisk, IsUnchanged};

use land_keep::store_fault::StoreFault;
use land_tables_rows::listing::fault::ReadFault;
use land_tables_schema::rows::openness::is_open;
use sqlite::{Alter, Connection};

/// Returns the fault of a failed read: `NoMemory` (501) only if it ran out of memory, and then only if the
/// store is still open; else `Store` (502).
pub fn fault_after<S: Alter>(conn: &mut Connection<S>, fault: ReadFault) -> StoreFault
    ensures open { result ≢ store.Closed }
    ensures memory { result ≡ store.NoMemory → fault ≡ ReadFault.NoMemory }
    ensures same { HasCleanDisk (state S.Store conn.new) → result ≢ store.Store
        → IsUnchanged (state S.Store conn.old) (state S.Store conn.new) }
    ensures left { IsLeftIfOpen S.Store conn.old conn.new }
    ensures survives { CommitsNothing S.Store conn.old conn.new }
    ensures autocommit { LeavesAutocommit conn.old conn.new }
{
    if is_open(conn) && fault == ReadFault::NoMemory {
        StoreFault::NoMemory
    } else {
        StoreFault::Store
    }
}
