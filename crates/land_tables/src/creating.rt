//! Creates a new register.
ghost use Rattle.std.specs.Prelude.{◌≡◌, ◌≢◌, false, IsTrue, Err, IfErr, OnErr, OnOk};
ghost use Rattle.land_keep.specs.Timeline.{new_timeline};
ghost use Rattle.land_keep.specs.declared.store_fault.StoreFault.TheVariants as store;
ghost use Rattle.land_tables.specs.TablesState.{IsRolledBack, IsNewRegister};
ghost use Rattle.land_tables.specs.Standing.{HoldsTimeline};
ghost use Rattle.land_tables_schema.specs.Schemas.{no_schema};
ghost use Rattle.sqlite.specs.Held.{state};
ghost use Rattle.sqlite.specs.State.{HasCleanDisk, Survives};

use crate::failed_reads::fault_after;
use crate::timelines::laws::{
    histories_represent_one_timeline, order_does_not_matter, valid_histories_represent_timelines,
};
use land_keep::store_fault::StoreFault;
use land_tables_rows::listing::fault::ReadFault;
use land_tables_rows::writing::laws::new_rows_hold_new_register;
use land_tables_schema::rows::creation::make_register;
use sqlite::{Alter, Connection};

/// Creates the tables with a new register, in one transaction. Errors: `NoMemory` (501), `Store` (502). A
/// store that is open after an error is unchanged.
pub(crate) fn create_tables<S: Alter>(conn: &mut Connection<S>) -> Result<(), StoreFault>
    requires alone { conn.old.in_transaction ≡ false }
    requires empty { HasCleanDisk (state S.Store conn.old) → (state S.Store conn.old).now.schema ≡ no_schema }
    ensures made { HasCleanDisk (state S.Store conn.new)
        → OnOk result (IsNewRegister (state S.Store conn.new)) }
    ensures neither { HasCleanDisk (state S.Store conn.new) → IsTrue (state S.Store conn.new).is_open
        → OnErr result ((state S.Store conn.new).now ≡ (state S.Store conn.old).committed) }
    ensures untouched { HasCleanDisk (state S.Store conn.new)
        → IfErr result
        (λ fault. fault ≢ store.Store → IsRolledBack (state S.Store conn.old) (state S.Store conn.new)) }
    ensures open { result ≢ Err store.Closed }
    ensures crash { Survives (state S.Store conn.old) (state S.Store conn.new)
        (λ db. HoldsTimeline db new_timeline) }
    ensures ended { conn.new.in_transaction ≡ false }
{
    histories_represent_one_timeline();
    order_does_not_matter();
    valid_histories_represent_timelines();
    new_rows_hold_new_register();
    match make_register(conn) {
        Ok(()) => Ok(()),
        Err(error) => Err(fault_after(conn, ReadFault::from(error))),
    }
}
