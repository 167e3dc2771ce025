//! Authorizes the title sheet of a unit.
ghost use Rattle.std.specs.Prelude.{◌≡◌, false, true};
ghost use Rattle.land_core.specs.declared.kind.Kind.TheVariants as kinds;
ghost use Rattle.land_rules.specs.Denials.Interests.{sees_by_interest};
ghost use Rattle.land_rules.specs.Denials.Sight.{is_unit_of_conveyancer};
ghost use Rattle.land_rules.specs.Rules.{first_denial, view_rules};
ghost use Rattle.land_select.specs.Cache.{IsFactWith};
ghost use Rattle.land_select_queries.specs.TableReads.{ReadsTables};
ghost use Rattle.land_tables_schema.specs.Connections.{HasRegisterTables, IsUsable, LeavesAutocommit};

use crate::cache::CachedValue;
use crate::verdict::conveyancer::read_pending_unit;
use crate::verdict::interest::read_shown_unit;
use crate::verdict::view::read_view_verdict;
use land_core::caller::Caller;
use land_core::kind::Kind;
use land_core::laws::soundness_by_number;
use land_rules::denials::interests::sees_by_interest;
use land_rules::denials::laws::{
    interests_decide_sight, pending_units_are_visible, sight_decides_verdicts,
};
use land_rules::denials::sight::{is_unit_of_conveyancer, view_verdict};
use land_rules::verdict::Verdict;
use land_select_queries::lookups::of_unit;
use land_tables_rows::listing::fault::ReadFault;
use sqlite::{Alter, Connection};
use std::alloc::Global;

/// Returns the verdict on a conveyancer's sheet of a unit; and the entries of the unit, if it is visible.
fn read_sheet_of_conveyancer<S: Alter>(
    alloc: Global,
    conn: &mut Connection<S>,
    caller: Caller,
    unit: u64,
    at: i64,
) -> Result<(Verdict, CachedValue), ReadFault>
    requires role { is_unit_of_conveyancer caller.role kinds.Unit ≡ true }
    requires has_tables { HasRegisterTables S.Store conn.old }
    ensures reads_only { ReadsTables S.Store result
        (IsFactWith (λ r. first_denial (view_rules r caller kinds.Unit unit)) caller kinds.Unit unit at)
        conn.old conn.new }
    ensures autocommit { LeavesAutocommit conn.old conn.new }
{
    soundness_by_number();
    sight_decides_verdicts();
    pending_units_are_visible();
    let told = read_pending_unit(alloc, conn, caller, unit, at)?;
    let (is_seen, is_named) = told;
    let verdict = view_verdict(is_seen, is_named, caller, Kind::Unit, unit);
    if !is_seen {
        return Ok((verdict, CachedValue::Nothing));
    }
    let entries = of_unit::entries(alloc, conn, unit, at)?;
    Ok((verdict, CachedValue::VisibleEntries(entries)))
}

/// Returns the verdict on the sheet of a unit for a citizen or a bank; and the visible entries of the unit,
/// if it is visible.
fn sheet_by_interest<S: Alter>(
    alloc: Global,
    conn: &mut Connection<S>,
    caller: Caller,
    unit: u64,
    at: i64,
) -> Result<(Verdict, CachedValue), ReadFault>
    requires role { sees_by_interest caller.role kinds.Unit ≡ true }
    requires other { is_unit_of_conveyancer caller.role kinds.Unit ≡ false }
    requires open { IsUsable S.Store conn.old }
    requires has_tables { HasRegisterTables S.Store conn.old }
    ensures reads_only { ReadsTables S.Store result
        (IsFactWith (λ r. first_denial (view_rules r caller kinds.Unit unit)) caller kinds.Unit unit at)
        conn.old conn.new }
    ensures autocommit { LeavesAutocommit conn.old conn.new }
{
    sight_decides_verdicts();
    interests_decide_sight();
    let told = read_shown_unit(alloc, conn, caller, unit, at)?;
    let (is_seen, found) = told;
    let verdict = view_verdict(is_seen, false, caller, Kind::Unit, unit);
    Ok((verdict, found))
}

/// Returns the verdict on the sheet of a unit at a time; and its visible entries or the unit, for the cache.
pub(crate) fn read_sheet_verdict<S: Alter>(
    alloc: Global,
    conn: &mut Connection<S>,
    caller: Caller,
    unit: u64,
    at: i64,
) -> Result<(Verdict, CachedValue), ReadFault>
    requires open { IsUsable S.Store conn.old }
    requires has_tables { HasRegisterTables S.Store conn.old }
    ensures reads_only { ReadsTables S.Store result
        (IsFactWith (λ r. first_denial (view_rules r caller kinds.Unit unit)) caller kinds.Unit unit at)
        conn.old conn.new }
    ensures autocommit { LeavesAutocommit conn.old conn.new }
{
    if is_unit_of_conveyancer(caller.role, Kind::Unit) {
        return read_sheet_of_conveyancer(alloc, conn, caller, unit, at);
    }
    if sees_by_interest(caller.role, Kind::Unit) {
        return sheet_by_interest(alloc, conn, caller, unit, at);
    }
    read_view_verdict(alloc, conn, caller, Kind::Unit, unit, at)
}
