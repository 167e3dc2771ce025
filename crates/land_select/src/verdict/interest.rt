//! The interest of a citizen or a bank in a unit, and the objects that it shows.
ghost use Rattle.std.specs.FinMap as map;
ghost use Rattle.std.specs.Prelude.{◌≡◌, ◌++◌, ◌&&◌, ◌||◌, nat_eq, true, IfOk, Some, ℕ};
ghost use Rattle.land_core.specs.Entries.{entries_where};
ghost use Rattle.land_core.specs.Role.{is_role};
ghost use Rattle.land_core.specs.declared.kind.Kind.TheVariants as kinds;
ghost use Rattle.land_core.specs.declared.role.Role.TheVariants as roles;
ghost use Rattle.land_rules.specs.Circles.{circle_of, is_name_of};
ghost use Rattle.land_rules.specs.Denials.Interests.{interest_at, interest_of, is_shown_by_interest};
ghost use Rattle.land_rules.specs.Denials.Interests.{is_mortgage_for, is_ownership_under};
ghost use Rattle.land_rules.specs.Denials.Interests.{sees_by_interest, shows_entry, shows_unit};
ghost use Rattle.land_select.specs.Cache.{IsFactWith};
ghost use Rattle.land_select.specs.Views.{AreCallerGroupsAt, AreNamesAt, entries_by_interest};
ghost use Rattle.land_select_queries.specs.Lookups.Parts.{ReadsPart};
ghost use Rattle.land_select_queries.specs.TableReads.{ReadsTables};
ghost use Rattle.land_tables_schema.specs.Connections.{HasRegisterTables, IsUsable, LeavesAutocommit};

use crate::cache::{CachedValue, cached_object};
use land_core::caller::Caller;
use land_core::duplicate::Duplicate;
use land_core::laws::soundness_by_number;
use land_core::records::Records;
use land_core::role::Role;
use land_core::rrr::{RightType, RrrRecord};
use land_core::sequence::{NumberList, Sequence};
use land_rules::denials::interests::{Interest, interest_of};
use land_rules::denials::laws::{interests_decide_sight, names_decide_interests};
use land_select_queries::joins::running::run_union_for;
use land_select_queries::lookups::object_record::ObjectRecord;
use land_select_queries::lookups::of_agent::circle;
use land_select_queries::lookups::{by_number, of_unit};
use land_select_queries::sights::selection::Selection;
use land_tables_rows::listing::fault::ReadFault;
use sqlite::{Alter, Connection};
use std::alloc::{AllocError, Global};

/// Checks if a role is that of a citizen.
pub(crate) fn is_citizen(role: Role) -> bool
    ensures { result ≡ is_role role roles.Citizen }
{
    role == Role::Citizen
}

/// Reads the groups with a member in a list, at a time.
fn read_groups<S: Alter>(
    alloc: Global,
    conn: &mut Connection<S>,
    callers: &[u64],
    at: i64,
) -> Result<NumberList, ReadFault>
    requires open { IsUsable S.Store conn.old }
    requires has_tables { HasRegisterTables S.Store conn.old }
    ensures reads_only { ReadsTables S.Store result (AreCallerGroupsAt callers.now at) conn.old conn.new }
    ensures autocommit { LeavesAutocommit conn.old conn.new }
{
    run_union_for(alloc, conn, &[Selection::ItsGroups], callers, at)
}

/// Returns the names of groups and of a circle.
fn together(groups: NumberList, circle: &[u64]) -> Result<NumberList, AllocError>
    ensures { IfOk result (λ it. it ≡ groups ++ circle.now) }
{
    let mut names = groups.into_vec();
    names.extend_from_slice(circle)?;
    Ok(Sequence::from_vec(names))
}

/// Reads the names in which a citizen holds rights at a time, in any order: its circle, and the groups with a
/// member in the circle. Other roles have none.
pub(crate) fn read_names<S: Alter>(
    alloc: Global,
    conn: &mut Connection<S>,
    caller: Caller,
    at: i64,
) -> Result<NumberList, ReadFault>
    requires open { IsUsable S.Store conn.old }
    requires has_tables { HasRegisterTables S.Store conn.old }
    ensures reads_only { ReadsTables S.Store result (AreNamesAt caller at) conn.old conn.new }
    ensures autocommit { LeavesAutocommit conn.old conn.new }
{
    if !is_citizen(caller.role) {
        return Ok(Sequence::new(alloc));
    }
    let callers = circle(alloc, conn, caller.party, at)?;
    let groups = read_groups(alloc, conn, callers.as_slice(), at)?;
    Ok(together(groups, callers.as_slice())?)
}

/// Reads the interest of a caller at a time in the unit with these entries.
fn read_interest_from<S: Alter>(
    alloc: Global,
    conn: &mut Connection<S>,
    caller: Caller,
    entries: &Records<RrrRecord>,
    at: i64,
) -> Result<Interest, ReadFault>
    requires open { IsUsable S.Store conn.old }
    requires has_tables { HasRegisterTables S.Store conn.old }
    ensures reads_only { ReadsTables S.Store result
        (ReadsPart (λ r. interest_of (is_name_of r (circle_of r caller.party)) caller entries.now) at)
        conn.old
        conn.new }
    ensures autocommit { LeavesAutocommit conn.old conn.new }
{
    names_decide_interests();
    let own = interest_of(caller, &[caller.party], entries);
    if !is_citizen(caller.role) {
        return Ok(own);
    }
    if let Interest::Owner = own {
        return Ok(own);
    }
    let names = read_names(alloc, conn, caller, at)?;
    Ok(interest_of(caller, names.as_slice(), entries))
}

/// Reads the interest of a caller in a unit at a time.
fn read_interest<S: Alter>(
    alloc: Global,
    conn: &mut Connection<S>,
    caller: Caller,
    unit: u64,
    at: i64,
) -> Result<Interest, ReadFault>
    requires open { IsUsable S.Store conn.old }
    requires has_tables { HasRegisterTables S.Store conn.old }
    ensures reads_only { ReadsTables S.Store result (ReadsPart (λ r. interest_at r caller unit) at) conn.old
        conn.new }
    ensures autocommit { LeavesAutocommit conn.old conn.new }
{
    let entries = of_unit::entries(alloc, conn, unit, at)?;
    read_interest_from(alloc, conn, caller, &entries, at)
}

/// Checks if a caller's interest in a unit shows the unit, at a time.
pub(crate) fn is_unit_shown<S: Alter>(
    alloc: Global,
    conn: &mut Connection<S>,
    caller: Caller,
    unit: u64,
    at: i64,
) -> Result<bool, ReadFault>
    requires open { IsUsable S.Store conn.old }
    requires has_tables { HasRegisterTables S.Store conn.old }
    ensures reads_only { ReadsTables S.Store result
        (ReadsPart (λ r. shows_unit (interest_at r caller unit)) at)
        conn.old conn.new }
    ensures autocommit { LeavesAutocommit conn.old conn.new }
{
    let interest = read_interest(alloc, conn, caller, unit, at)?;
    Ok(interest.shows_unit())
}

/// Checks if a caller's interest in the unit of an entry shows the entry, at a time.
fn is_entry_shown<S: Alter>(
    alloc: Global,
    conn: &mut Connection<S>,
    caller: Caller,
    entry: &RrrRecord,
    at: i64,
) -> Result<bool, ReadFault>
    requires open { IsUsable S.Store conn.old }
    requires has_tables { HasRegisterTables S.Store conn.old }
    ensures reads_only { ReadsTables S.Store result
        (ReadsPart (λ r. shows_entry (interest_at r caller entry.now.unit) caller.party entry.now) at)
        conn.old
        conn.new }
    ensures autocommit { LeavesAutocommit conn.old conn.new }
{
    let interest = read_interest(alloc, conn, caller, entry.unit, at)?;
    Ok(interest.shows_entry(caller.party, entry))
}

/// Checks if an entry is an ownership of the citizen, or a mortgage of the bank, that calls.
fn is_own_entry(caller: Caller, entry: &RrrRecord) -> bool
    ensures { result ≡ (is_role caller.role roles.Citizen
        && is_ownership_under (λ named. nat_eq named caller.party) entry.now
        || is_role caller.role roles.Bank && is_mortgage_for caller.party entry.now) }
{
    if is_citizen(caller.role) {
        entry.class.is_right_of(RightType::Ownership) && entry.party == caller.party
    } else {
        caller.role == Role::Bank && entry.class.rank().is_some() && entry.party == caller.party
    }
}

/// Checks if a caller's interest in the unit of an entry shows the entry, if the entry stands at that time.
/// The own entry of a caller is then always shown.
fn is_found_entry_shown<S: Alter>(
    alloc: Global,
    conn: &mut Connection<S>,
    caller: Caller,
    entry: &RrrRecord,
    at: i64,
) -> Result<bool, ReadFault>
    requires open { IsUsable S.Store conn.old }
    requires has_tables { HasRegisterTables S.Store conn.old }
    ensures reads_only { ReadsTables S.Store result
        (λ db it. (number : ℕ) → ReadsPart (λ r. map.get r.rrrs number) at db (Some entry.now)
        → ReadsPart (λ r. shows_entry (interest_at r caller entry.now.unit) caller.party entry.now) at db it)
        conn.old
        conn.new }
    ensures autocommit { LeavesAutocommit conn.old conn.new }
{
    if is_own_entry(caller, entry) {
        return Ok(true);
    }
    is_entry_shown(alloc, conn, caller, entry, at)
}

/// Checks if an entry exists at a time and the caller's interest in its unit shows it. Also returns the
/// entry.
pub(crate) fn read_shown_entry<S: Alter>(
    alloc: Global,
    conn: &mut Connection<S>,
    caller: Caller,
    number: u64,
    at: i64,
) -> Result<(bool, CachedValue), ReadFault>
    requires open { IsUsable S.Store conn.old }
    requires has_tables { HasRegisterTables S.Store conn.old }
    ensures reads_only { ReadsTables S.Store result
        (IsFactWith (λ r. is_shown_by_interest r caller kinds.Rrr number) caller kinds.Rrr number at) conn.old
        conn.new }
    ensures autocommit { LeavesAutocommit conn.old conn.new }
{
    soundness_by_number();
    let found = by_number::record(alloc, conn, number, at)?;
    match found {
        Some(entry) => {
            let shown = is_found_entry_shown(alloc, conn, caller, &entry, at)?;
            Ok((
                shown,
                cached_object(RrrRecord::build_object(number, Some(entry))),
            ))
        }
        None => Ok((false, CachedValue::Nothing)),
    }
}

/// Returns the entries of a unit that a party's interest in the unit shows.
fn filter_by_interest(
    alloc: Global,
    interest: Interest,
    party: u64,
    entries: &Records<RrrRecord>,
) -> Result<Records<RrrRecord>, AllocError>
    ensures { IfOk result (λ it. it ≡ entries_where (λ n e. shows_entry interest party e) entries.now) }
{
    let mut kept = Records::new(alloc);
    for (number, entry) in entries.iter() {
        if interest.shows_entry(party, entry) {
            kept.insert(*number, entry.copy(alloc)?)?;
        }
    }
    Ok(kept)
}

/// Returns the entries of a unit that a caller's interest in the unit shows, at a time.
pub(crate) fn entries_by_interest<S: Alter>(
    alloc: Global,
    conn: &mut Connection<S>,
    caller: Caller,
    entries: &Records<RrrRecord>,
    at: i64,
) -> Result<Records<RrrRecord>, ReadFault>
    requires open { IsUsable S.Store conn.old }
    requires has_tables { HasRegisterTables S.Store conn.old }
    ensures reads_only { ReadsTables S.Store result
        (ReadsPart (λ r. entries_by_interest r caller entries.now) at) conn.old
        conn.new }
    ensures autocommit { LeavesAutocommit conn.old conn.new }
{
    let interest = read_interest_from(alloc, conn, caller, entries, at)?;
    Ok(filter_by_interest(alloc, interest, caller.party, entries)?)
}

/// Checks if a caller's interest in a unit shows the unit, at a time. Also returns the visible entries, if it
/// does.
pub(crate) fn read_shown_unit<S: Alter>(
    alloc: Global,
    conn: &mut Connection<S>,
    caller: Caller,
    unit: u64,
    at: i64,
) -> Result<(bool, CachedValue), ReadFault>
    requires role { sees_by_interest caller.role kinds.Rrr ≡ true }
    requires open { IsUsable S.Store conn.old }
    requires has_tables { HasRegisterTables S.Store conn.old }
    ensures reads_only { ReadsTables S.Store result
        (IsFactWith (λ r. is_shown_by_interest r caller kinds.Unit unit) caller kinds.Unit unit at) conn.old
        conn.new }
    ensures autocommit { LeavesAutocommit conn.old conn.new }
{
    soundness_by_number();
    interests_decide_sight();
    let all = of_unit::entries(alloc, conn, unit, at)?;
    let interest = read_interest_from(alloc, conn, caller, &all, at)?;
    if !interest.shows_unit() {
        return Ok((false, CachedValue::Nothing));
    }
    let shown = filter_by_interest(alloc, interest, caller.party, &all)?;
    Ok((true, CachedValue::VisibleEntries(shown)))
}
