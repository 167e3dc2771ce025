//! Runs read-only queries on the tables of a register.
ghost use Rattle.std.specs.Prelude.{◌≡◌, ◌≢◌, Err, IfOk};
ghost use Rattle.land_keep.specs.Keeping.{Closes, IsHonestAndOpen};
ghost use Rattle.land_keep.specs.declared.store_fault.StoreFault.TheVariants as store;
ghost use Rattle.land_select.specs.Results.{IsResult};
ghost use Rattle.land_select_queries.specs.TableReads.{ReadsTables};
ghost use Rattle.land_tables.specs.Calls.{IsSafeRead};
ghost use Rattle.land_tables.specs.TablesState.{HoldsRegister, IsHonest, held_timeline};
ghost use Rattle.land_tables_schema.specs.Connections.{HasRegisterTables, IsUsable, LeavesAutocommit};
ghost use Rattle.sqlite.specs.Held.{state};
ghost use Rattle.sqlite.specs.State.{HasCleanDisk, Survives};
ghost use Rattle.sqlite_trees.specs.Tree.{Trees};

use land_keep::store_fault::StoreFault;
use land_tables::failed_reads::fault_after;
use land_tables::tables::Tables;
use land_tables_rows::listing::fault::ReadFault;
use sqlite::{Alter, Connection};
use std::alloc::Global;

/// A read-only query.
pub(crate) trait Query<T> {
    /// The correct results, for the rows of the tables.
    ghost results: { Self → Trees → T → Type 0 };

    /// Runs the query. Returns error 501 if out of memory, 502 if a store operation failed, and 520 if a
    /// value is unreadable.
    fn run<S: Alter>(&self, alloc: Global, conn: &mut Connection<S>) -> Result<T, ReadFault>
        requires open { IsUsable S.Store conn.old }
        requires has_tables { HasRegisterTables S.Store conn.old }
        ensures reads_only { ReadsTables S.Store result (results self.now) conn.old conn.new }
        ensures autocommit { LeavesAutocommit conn.old conn.new };
}

/// Runs a query on a connection. Without error 502 the store stays open and unchanged.
fn execute_in<S: Alter, T, Q: Query<T>>(
    alloc: Global,
    conn: &mut Connection<S>,
    query: &Q,
) -> Result<T, StoreFault>
    requires { HasCleanDisk (state S.Store conn.old) → HoldsRegister (state S.Store conn.old) }
    ensures open { result ≢ Err store.Closed }
    ensures safe { IsSafeRead result (λ it. Q.results query.now (state S.Store conn.old).now.trees it)
        (state S.Store conn.old) (state S.Store conn.new) }
    ensures autocommit { LeavesAutocommit conn.old conn.new }
{
    match query.run(alloc, conn) {
        Ok(answer) => Ok(answer),
        Err(fault) => Err(fault_after(conn, fault)),
    }
}

/// Runs a query on the tables and leaves them unchanged. Returns error 501 if out of memory, 502 if a store
/// operation failed, and 503 from then on.
pub(crate) fn execute<S: Alter, T, Q: Query<T>>(
    alloc: Global,
    tables: &mut Tables<S>,
    query: &Q,
) -> Result<T, StoreFault>
    ensures value { IsHonest S.Store tables.new
        → IfOk result (λ it. IsResult (Q.results query.now) (state S.Store tables.old.conn) it) }
    ensures same { IsHonestAndOpen (IsHonest S.Store tables.new) tables.new.is_closed
        → held_timeline S.Store tables.new ≡ held_timeline S.Store tables.old }
    ensures was { IsHonest S.Store tables.new → IsHonest S.Store tables.old }
    ensures last { tables.new.last ≡ tables.old.last }
    ensures next { tables.new.next ≡ tables.old.next }
    ensures closes { Closes tables.old.is_closed tables.new.is_closed result }
    ensures crash { Survives (state S.Store tables.old.conn) (state S.Store tables.new.conn) (λ _. ⊥) }
{
    if tables.is_closed {
        return Err(StoreFault::Closed);
    }
    match execute_in(alloc, &mut tables.conn, query) {
        Ok(answer) => Ok(answer),
        Err(fault) => {
            tables.is_closed = fault == StoreFault::Store;
            Err(fault)
        }
    }
}
