//! Visibility of a party, for a caller that does not see all parties.
ghost use Rattle.std.specs.List.{list_any};
ghost use Rattle.std.specs.Prelude.{◌≡◌, false, nat_eq, Some};
ghost use Rattle.land_core.specs.declared.kind.Kind.TheVariants as kinds;
ghost use Rattle.land_rules.specs.Denials.Sight.{sees_all};
ghost use Rattle.land_rules.specs.Rules.{sees};
ghost use Rattle.land_select.specs.Cache.{IsFactWith};
ghost use Rattle.land_select.specs.Parties.{AreOtherNames, AreOwnNamesAt, relation_of};
ghost use Rattle.land_select.specs.Views.{AgreesWithRegister, AgreesIfGiven};
ghost use Rattle.land_select_queries.specs.TableReads.{ReadsTables};
ghost use Rattle.land_tables_schema.specs.Connections.{HasRegisterTables, IsUsable, LeavesAutocommit};

use crate::cache::CachedValue;
use crate::verdict::interest::{is_citizen, read_names};
use crate::verdict::view::read_object;
use crate::view::is_listed;
use land_core::caller::Caller;
use land_core::kind::Kind;
use land_core::role::Role;
use land_core::sequence::{NumberList, Sequence};
use land_rules::laws::{circles_see_together, seen_lists_are_exact};
use land_select_queries::joins::sight::sight;
use land_select_queries::lookups::relation::Relation;
use land_select_queries::lookups::viewers_of_party::viewers_of_party;
use land_select_queries::sights::laws::selections_are_the_rules;
use land_tables_rows::listing::fault::ReadFault;
use sqlite::{Alter, Connection};
use std::alloc::Global;

/// Returns the relation by which a role sees the parties of entries, if any.
fn relation_of(role: Role) -> Option<Relation>
    ensures { result ≡ relation_of role }
{
    match role {
        Role::Citizen => Some(Relation::Holding),
        Role::Bank => Some(Relation::Crediting),
        Role::Conveyancer => Some(Relation::Awaiting),
        Role::CertifiedSurveyor | Role::Notary | Role::StateAdministrator => None,
    }
}

/// Checks if two lists have a common number.
fn intersects(parties: &[u64], others: &[u64]) -> bool
    ensures { result ≡ list_any (λ party. list_any (nat_eq party) others.now) parties.now }
{
    parties.iter().any(|party| is_listed(others, *party))
}

/// Reads the names of a caller at a time, in any order: those in which a citizen holds rights; for other
/// roles, the caller itself.
fn read_own_names<S: Alter>(
    alloc: Global,
    conn: &mut Connection<S>,
    caller: Caller,
    at: i64,
) -> Result<NumberList, ReadFault>
    requires open { IsUsable S.Store conn.old }
    requires has_tables { HasRegisterTables S.Store conn.old }
    ensures reads_only { ReadsTables S.Store result (AreOwnNamesAt caller at) conn.old conn.new }
    ensures autocommit { LeavesAutocommit conn.old conn.new }
{
    if is_citizen(caller.role) {
        return read_names(alloc, conn, caller, at);
    }
    Ok(Sequence::of_one(alloc, caller.party)?)
}

/// Checks if a party is in the list of all parties that a caller sees.
fn is_in_sight_list<S: Alter>(
    alloc: Global,
    conn: &mut Connection<S>,
    caller: Caller,
    number: u64,
    at: i64,
) -> Result<bool, ReadFault>
    requires open { IsUsable S.Store conn.old }
    requires has_tables { HasRegisterTables S.Store conn.old }
    ensures reads_only { ReadsTables S.Store result
        (AgreesWithRegister (λ r. sees r caller kinds.Party number) at) conn.old
        conn.new }
    ensures autocommit { LeavesAutocommit conn.old conn.new }
{
    seen_lists_are_exact();
    let listed = sight(alloc, conn, caller, Kind::Party, at)?;
    Ok(is_listed(listed.as_slice(), number))
}

/// Checks if a caller sees, by a relation, a party that is not one of its names. If the party has few
/// viewers, one of them has to be a name of the caller; else the list of all parties that the caller sees
/// decides. So the cost is that of a few rows, or of the caller's own list.
fn is_visible_by_relation<S: Alter>(
    alloc: Global,
    conn: &mut Connection<S>,
    caller: Caller,
    relation: Relation,
    names: &[u64],
    number: u64,
    at: i64,
) -> Result<bool, ReadFault>
    requires role { sees_all caller.role kinds.Party ≡ false }
    requires by { relation_of caller.role ≡ Some relation }
    requires open { IsUsable S.Store conn.old }
    requires has_tables { HasRegisterTables S.Store conn.old }
    ensures reads_only { ReadsTables S.Store result
        (AgreesIfGiven (AreOtherNames caller names.now number) (λ r. sees r caller kinds.Party number) at)
        conn.old conn.new }
    ensures autocommit { LeavesAutocommit conn.old conn.new }
{
    seen_lists_are_exact();
    circles_see_together();
    selections_are_the_rules();
    let told = viewers_of_party(alloc, conn, relation, number, at)?;
    match told {
        Some(few) => Ok(intersects(few.as_slice(), names)),
        None => is_in_sight_list(alloc, conn, caller, number, at),
    }
}

/// Checks if a caller sees a party that is not one of its names.
fn is_other_party_visible<S: Alter>(
    alloc: Global,
    conn: &mut Connection<S>,
    caller: Caller,
    names: &[u64],
    number: u64,
    at: i64,
) -> Result<bool, ReadFault>
    requires role { sees_all caller.role kinds.Party ≡ false }
    requires open { IsUsable S.Store conn.old }
    requires has_tables { HasRegisterTables S.Store conn.old }
    ensures reads_only { ReadsTables S.Store result
        (AgreesIfGiven (AreOtherNames caller names.now number) (λ r. sees r caller kinds.Party number) at)
        conn.old conn.new }
    ensures autocommit { LeavesAutocommit conn.old conn.new }
{
    seen_lists_are_exact();
    circles_see_together();
    selections_are_the_rules();
    match relation_of(caller.role) {
        Some(relation) => is_visible_by_relation(alloc, conn, caller, relation, names, number, at),
        None => Ok(false),
    }
}

/// Checks if a caller sees a party at a time: one of its own names if it exists, another party if the caller
/// is one of its viewers. Also returns the party, if it was read.
pub(crate) fn is_party_visible<S: Alter>(
    alloc: Global,
    conn: &mut Connection<S>,
    caller: Caller,
    number: u64,
    at: i64,
) -> Result<(bool, CachedValue), ReadFault>
    requires role { sees_all caller.role kinds.Party ≡ false }
    requires open { IsUsable S.Store conn.old }
    requires has_tables { HasRegisterTables S.Store conn.old }
    ensures reads_only { ReadsTables S.Store result
        (IsFactWith (λ r. sees r caller kinds.Party number) caller kinds.Party number at) conn.old conn.new }
    ensures autocommit { LeavesAutocommit conn.old conn.new }
{
    seen_lists_are_exact();
    circles_see_together();
    selections_are_the_rules();
    let names = read_own_names(alloc, conn, caller, at)?;
    if is_listed(names.as_slice(), number) {
        return read_object(alloc, conn, caller, Kind::Party, number, at);
    }
    let seen = is_other_party_visible(alloc, conn, caller, names.as_slice(), number, at)?;
    Ok((seen, CachedValue::Nothing))
}
