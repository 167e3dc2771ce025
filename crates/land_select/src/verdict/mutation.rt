//! Visibility of a mutation by the caller's interest in a unit to which it refers.
ghost use Rattle.std.specs.List.{list_any};
ghost use Rattle.std.specs.Prelude.{◌||◌};
ghost use Rattle.land_core.specs.declared.kind.Kind.TheVariants as kinds;
ghost use Rattle.land_rules.specs.Denials.Interests.{interest_at, is_shown_by_interest, names_visible_unit};
ghost use Rattle.land_rules.specs.Denials.Interests.{shows_unit};
ghost use Rattle.land_select.specs.Cache.{IsFactWith};
ghost use Rattle.land_select_queries.specs.Lookups.Parts.{ReadsPart};
ghost use Rattle.land_select_queries.specs.TableReads.{ReadsTables};
ghost use Rattle.land_tables_schema.specs.Connections.{HasRegisterTables, IsUsable, LeavesAutocommit};

use crate::cache::{CachedValue, cached_object};
use crate::verdict::interest::is_unit_shown;
use land_core::caller::Caller;
use land_core::content::Content;
use land_core::laws::soundness_by_number;
use land_core::merger::Merger;
use land_core::mutation::MutationRecord;
use land_select_queries::lookups::by_number;
use land_select_queries::lookups::object_record::ObjectRecord;
use land_tables_rows::listing::fault::ReadFault;
use sqlite::{Alter, Connection};
use std::alloc::Global;

/// Checks if the caller's interest shows at least one of some units, at a time.
fn is_any_unit_shown<S: Alter>(
    alloc: Global,
    conn: &mut Connection<S>,
    caller: Caller,
    units: &[u64],
    at: i64,
) -> Result<bool, ReadFault>
    requires open { IsUsable S.Store conn.old }
    requires has_tables { HasRegisterTables S.Store conn.old }
    ensures reads_only { ReadsTables S.Store result
        (ReadsPart (λ r. list_any (λ unit. shows_unit (interest_at r caller unit)) units.now) at) conn.old
        conn.new }
    ensures autocommit { LeavesAutocommit conn.old conn.new }
{
    for unit in units {
        if is_unit_shown(alloc, conn, caller, *unit, at)? {
            return Ok(true);
        }
    }
    Ok(false)
}

/// Checks if the caller's interest shows the unit of a merger, or one of its other units, at a time.
fn is_merger_shown<S: Alter>(
    alloc: Global,
    conn: &mut Connection<S>,
    caller: Caller,
    merger: &Merger,
    at: i64,
) -> Result<bool, ReadFault>
    requires open { IsUsable S.Store conn.old }
    requires has_tables { HasRegisterTables S.Store conn.old }
    ensures reads_only { ReadsTables S.Store result
        (ReadsPart (λ r. shows_unit (interest_at r caller merger.now.unit)
        || list_any (λ unit. shows_unit (interest_at r caller unit)) merger.now.others) at) conn.old
        conn.new }
    ensures autocommit { LeavesAutocommit conn.old conn.new }
{
    if is_unit_shown(alloc, conn, caller, merger.unit, at)? {
        return Ok(true);
    }
    is_any_unit_shown(alloc, conn, caller, merger.others.as_slice(), at)
}

/// Checks if a mutation refers to a unit that the caller's interest in it shows, at a time.
fn names_visible_unit<S: Alter>(
    alloc: Global,
    conn: &mut Connection<S>,
    caller: Caller,
    mutation: &MutationRecord,
    at: i64,
) -> Result<bool, ReadFault>
    requires open { IsUsable S.Store conn.old }
    requires has_tables { HasRegisterTables S.Store conn.old }
    ensures reads_only { ReadsTables S.Store result
        (ReadsPart (λ r. names_visible_unit r caller mutation.now) at) conn.old
        conn.new }
    ensures autocommit { LeavesAutocommit conn.old conn.new }
{
    match &mutation.content {
        Content::Transfer(it) => is_unit_shown(alloc, conn, caller, it.unit, at),
        Content::Subdivision(it) => is_unit_shown(alloc, conn, caller, it.unit, at),
        Content::Merger(it) => is_merger_shown(alloc, conn, caller, it, at),
        Content::Mortgage(it) => is_unit_shown(alloc, conn, caller, it.unit, at),
        Content::Discharge(it) => is_unit_shown(alloc, conn, caller, it.unit, at),
    }
}

/// Checks if a mutation exists at a time and refers to a unit that the caller's interest in it shows. Also
/// returns the mutation.
pub(crate) fn read_shown_mutation<S: Alter>(
    alloc: Global,
    conn: &mut Connection<S>,
    caller: Caller,
    number: u64,
    at: i64,
) -> Result<(bool, CachedValue), ReadFault>
    requires open { IsUsable S.Store conn.old }
    requires has_tables { HasRegisterTables S.Store conn.old }
    ensures reads_only { ReadsTables S.Store result
        (IsFactWith (λ r. is_shown_by_interest r caller kinds.Mutation number) caller kinds.Mutation number
        at) conn.old conn.new }
    ensures autocommit { LeavesAutocommit conn.old conn.new }
{
    soundness_by_number();
    let found = by_number::record(alloc, conn, number, at)?;
    match found {
        Some(mutation) => {
            let shown = names_visible_unit(alloc, conn, caller, &mutation, at)?;
            Ok((
                shown,
                cached_object(MutationRecord::build_object(number, Some(mutation))),
            ))
        }
        None => Ok((false, CachedValue::Nothing)),
    }
}
