//! Visibility of an object by the caller's interest in a unit.
ghost use Rattle.land_rules.specs.Denials.Interests.{is_shown_by_interest};
ghost use Rattle.land_select.specs.Cache.{IsFactWith};
ghost use Rattle.land_select_queries.specs.TableReads.{ReadsTables};
ghost use Rattle.land_tables_schema.specs.Connections.{HasRegisterTables, IsUsable, LeavesAutocommit};

use crate::cache::CachedValue;
use crate::verdict::interest::{is_unit_shown, read_shown_entry};
use crate::verdict::mutation::read_shown_mutation;
use land_core::caller::Caller;
use land_core::kind::Kind;
use land_core::laws::soundness_by_number;
use land_tables_rows::listing::fault::ReadFault;
use sqlite::{Alter, Connection};
use std::alloc::Global;

/// Checks if a caller sees an object at a time by its interest in a unit: the requested one, that of the
/// entry, or one that the mutation refers to. Also returns the entry or the mutation, if it exists.
pub(crate) fn is_visible_by_interest<S: Alter>(
    alloc: Global,
    conn: &mut Connection<S>,
    caller: Caller,
    kind: Kind,
    number: u64,
    at: i64,
) -> Result<(bool, CachedValue), ReadFault>
    requires open { IsUsable S.Store conn.old }
    requires has_tables { HasRegisterTables S.Store conn.old }
    ensures reads_only { ReadsTables S.Store result
        (IsFactWith (λ r. is_shown_by_interest r caller kind number) caller kind number at) conn.old
        conn.new }
    ensures autocommit { LeavesAutocommit conn.old conn.new }
{
    soundness_by_number();
    match kind {
        Kind::Unit => {
            let shown = is_unit_shown(alloc, conn, caller, number, at)?;
            Ok((shown, CachedValue::Nothing))
        }
        Kind::Rrr => read_shown_entry(alloc, conn, caller, number, at),
        Kind::Mutation => read_shown_mutation(alloc, conn, caller, number, at),
        Kind::Party | Kind::Parcel | Kind::Source => Ok((false, CachedValue::Nothing)),
    }
}
