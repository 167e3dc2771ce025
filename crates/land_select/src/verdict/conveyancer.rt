//! Visibility by a pending mutation of a conveyancer that refers to the unit.
ghost use Rattle.std.specs.FinMap as map;
ghost use Rattle.std.specs.Prelude.{if◌then◌else◌};
ghost use Rattle.land_core.specs.declared.kind.Kind.TheVariants as kinds;
ghost use Rattle.land_rules.specs.Denials.Sight.{is_visible_by_pending};
ghost use Rattle.land_rules.specs.Relations.{has_pending_mutation_on};
ghost use Rattle.land_select.specs.Cache.{IsFactWith};
ghost use Rattle.land_select.specs.Views.{pending_entries};
ghost use Rattle.land_select_queries.specs.Lookups.Parts.{ReadsPart};
ghost use Rattle.land_select_queries.specs.TableReads.{ReadsTables};
ghost use Rattle.land_tables_schema.specs.Connections.{HasRegisterTables, IsUsable, LeavesAutocommit};

use crate::cache::{CachedValue, cached_object};
use land_core::caller::Caller;
use land_core::kind::Kind;
use land_core::laws::soundness_by_number;
use land_core::records::Records;
use land_core::rrr::RrrRecord;
use land_select_queries::lookups::by_number;
use land_select_queries::lookups::existence::unit_exists;
use land_select_queries::lookups::lodgers::has_pending_mutation_on;
use land_select_queries::lookups::object_record::ObjectRecord;
use land_tables_rows::listing::fault::ReadFault;
use sqlite::{Alter, Connection};
use std::alloc::Global;

/// Returns if a unit exists at a time and a pending mutation of the caller refers to it; and if one refers to
/// it, regardless of its existence.
pub(crate) fn read_pending_unit<S: Alter>(
    alloc: Global,
    conn: &mut Connection<S>,
    caller: Caller,
    unit: u64,
    at: i64,
) -> Result<(bool, bool), ReadFault>
    requires has_tables { HasRegisterTables S.Store conn.old }
    ensures reads_only { ReadsTables S.Store result
        (ReadsPart (λ r. (
          is_visible_by_pending r caller kinds.Unit unit,
          has_pending_mutation_on r
              caller.party unit,
        )) at) conn.old
        conn.new }
    ensures autocommit { LeavesAutocommit conn.old conn.new }
{
    if !has_pending_mutation_on(alloc, conn, caller.party, unit, at)? {
        return Ok((false, false));
    }
    let there = unit_exists(alloc, conn, unit, at)?;
    Ok((there, true))
}

/// Checks if a unit exists at a time and a pending mutation of the caller refers to it.
fn is_unit_pending<S: Alter>(
    alloc: Global,
    conn: &mut Connection<S>,
    caller: Caller,
    unit: u64,
    at: i64,
) -> Result<bool, ReadFault>
    requires has_tables { HasRegisterTables S.Store conn.old }
    ensures reads_only { ReadsTables S.Store result
        (ReadsPart (λ r. is_visible_by_pending r caller kinds.Unit unit) at) conn.old
        conn.new }
    ensures autocommit { LeavesAutocommit conn.old conn.new }
{
    let told = read_pending_unit(alloc, conn, caller, unit, at)?;
    let (is_pending, _) = told;
    Ok(is_pending)
}

/// Checks if an entry exists at a time and a pending mutation of the caller refers to its unit. Also returns
/// the entry.
fn read_pending_entry<S: Alter>(
    alloc: Global,
    conn: &mut Connection<S>,
    caller: Caller,
    number: u64,
    at: i64,
) -> Result<(bool, CachedValue), ReadFault>
    requires has_tables { HasRegisterTables S.Store conn.old }
    ensures reads_only { ReadsTables S.Store result
        (IsFactWith (λ r. is_visible_by_pending r caller kinds.Rrr number) caller kinds.Rrr number at)
        conn.old
        conn.new }
    ensures autocommit { LeavesAutocommit conn.old conn.new }
{
    soundness_by_number();
    let found = by_number::record::<RrrRecord, S>(alloc, conn, number, at)?;
    match found {
        Some(entry) => {
            let is_pending = has_pending_mutation_on(alloc, conn, caller.party, entry.unit, at)?;
            Ok((
                is_pending,
                cached_object(RrrRecord::build_object(number, Some(entry))),
            ))
        }
        None => Ok((false, CachedValue::Nothing)),
    }
}

/// Checks if an object exists at a time and is a unit to which a pending mutation of the caller refers, or an
/// entry of such a unit. Also returns the entry, if it exists.
pub(crate) fn is_pending<S: Alter>(
    alloc: Global,
    conn: &mut Connection<S>,
    caller: Caller,
    kind: Kind,
    number: u64,
    at: i64,
) -> Result<(bool, CachedValue), ReadFault>
    requires open { IsUsable S.Store conn.old }
    requires has_tables { HasRegisterTables S.Store conn.old }
    ensures reads_only { ReadsTables S.Store result
        (IsFactWith (λ r. is_visible_by_pending r caller kind number) caller kind number at)
        conn.old conn.new }
    ensures autocommit { LeavesAutocommit conn.old conn.new }
{
    soundness_by_number();
    match kind {
        Kind::Unit => {
            let is_pending = is_unit_pending(alloc, conn, caller, number, at)?;
            Ok((is_pending, CachedValue::Nothing))
        }
        Kind::Rrr => read_pending_entry(alloc, conn, caller, number, at),
        Kind::Party | Kind::Parcel | Kind::Source | Kind::Mutation => Ok((
            false,
            CachedValue::Nothing,
        )),
    }
}

/// Returns the entries of a unit if a pending mutation of the party refers to the unit at a time, else none.
pub(crate) fn pending_entries<S: Alter>(
    alloc: Global,
    conn: &mut Connection<S>,
    party: u64,
    unit: u64,
    entries: Records<RrrRecord>,
    at: i64,
) -> Result<Records<RrrRecord>, ReadFault>
    requires has_tables { HasRegisterTables S.Store conn.old }
    ensures reads_only { ReadsTables S.Store result (ReadsPart (λ r. pending_entries r party unit entries) at)
        conn.old
        conn.new }
    ensures autocommit { LeavesAutocommit conn.old conn.new }
{
    if has_pending_mutation_on(alloc, conn, party, unit, at)? {
        return Ok(entries);
    }
    Ok(Records::new(alloc))
}
