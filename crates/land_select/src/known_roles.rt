//! Remembers which roles callers hold, and which citizens hold no mandate, so that the next request does not
//! look them up again.
ghost use Rattle.std.specs.Int.{int_min};
ghost use Rattle.std.specs.Prelude.{◌≡◌, if◌then◌else◌, int_le, true};
ghost use Rattle.land_core.specs.Changes.{after};
ghost use Rattle.land_core.specs.Grants.{grant_to};
ghost use Rattle.land_core.specs.Numbers.{last_moment};
ghost use Rattle.land_core.specs.Register.{holds};
ghost use Rattle.land_core.specs.declared.register.Register.{Register};
ghost use Rattle.land_select.specs.KnownRoles.{AreKnownIn, HoldsRoleIf, IsKnownIn, shows_role};
ghost use Rattle.land_select_queries.specs.Joins.Sight.{HoldsNoMandate, HoldsNoMandateIf};

use land_core::caller::Caller;
use land_core::change::Change;
use land_core::limits::LAST_MOMENT;
use land_core::roles::{Grant, Roles};
use land_rules::verdict::Verdict;
use std::alloc::Global;

/// The greatest number of facts that are remembered.
const MAX_FACTS: u32 = 1024;

/// Facts on callers that hold in the latest register, at most `MAX_FACTS`.
#[derive(Debug, Drop)]
pub(crate) struct KnownRoles {
    /// Roles that their parties hold.
    pub(crate) roles: Roles,
    /// Roles whose parties hold no mandate.
    pub(crate) without_mandates: Roles,
    /// How many were remembered, counting repeats.
    pub(crate) count: u32,
}

/// Returns the role that a caller claims.
pub(crate) fn claimed_role(caller: Caller) -> Grant
    ensures { result ≡ grant_to caller.party caller.role }
{
    Grant {
        party: caller.party,
        role: caller.role,
    }
}

/// Checks if a caller is known to hold the role that it claims.
pub(crate) fn is_known(known: &Option<KnownRoles>, caller: Caller) -> bool
    ensures { (r : Register) → AreKnownIn r known.now → HoldsRoleIf result r caller }
{
    match known {
        Some(it) => it.roles.contains(claimed_role(caller)),
        None => false,
    }
}

/// Checks if no change is later than a time: `last` is the stamp of the latest change.
pub(crate) fn is_latest(last: i64, at: i64) -> bool
    ensures { result ≡ int_le last at }
{
    last <= at
}

/// Returns the moment at which to read the register of a time: the last one if no change is later than the
/// time, since fewer comparisons find what is current then.
pub(crate) fn reading_moment(at: i64, is_latest: bool) -> i64
    ensures { result ≡ (if is_latest then last_moment else int_min at last_moment) }
{
    if is_latest {
        LAST_MOMENT
    } else {
        at.min(LAST_MOMENT)
    }
}

/// Checks if a caller is known to hold no mandate. Nothing is known of earlier times than the latest.
pub(crate) fn holds_no_mandate(known: &Option<KnownRoles>, caller: Caller, is_latest: bool) -> bool
    ensures known { (r : Register) → AreKnownIn r known.now → HoldsNoMandateIf result r caller.party }
    ensures latest { result ≡ true → is_latest ≡ true }
{
    if !is_latest {
        return false;
    }
    match known {
        Some(it) => it.without_mandates.contains(claimed_role(caller)),
        None => false,
    }
}

/// Checks if only a caller that holds the role that it claims gets this verdict: all but the denials by rule
/// 1 (not a party) and rule 2 (not in this role).
fn shows_role(verdict: Verdict) -> bool
    ensures { result ≡ shows_role verdict }
{
    match verdict {
        Verdict::Allowed => true,
        Verdict::Denied(rule) => rule > 2,
    }
}

/// Returns the remembered facts; none of them if there is no room for one more.
fn with_room(alloc: Global, known: Option<KnownRoles>) -> KnownRoles
    ensures { (r : Register) → AreKnownIn r known → IsKnownIn r result }
{
    match known {
        Some(it) if it.count < MAX_FACTS => it,
        _ => KnownRoles {
            roles: Roles::new(alloc),
            without_mandates: Roles::new(alloc),
            count: 0,
        },
    }
}

/// Remembers a role. Remembers nothing if out of memory.
fn insert_role(known: KnownRoles, grant: Grant) -> Option<KnownRoles>
    ensures { (r : Register) → IsKnownIn r known → holds r grant.party grant.role ≡ true
        → AreKnownIn r result }
{
    let KnownRoles {
        mut roles,
        without_mandates,
        count,
    } = known;
    match roles.insert(grant) {
        Ok(()) => Some(KnownRoles {
            roles,
            without_mandates,
            count: count.saturating_add(1),
        }),
        Err(_) => None,
    }
}

/// Remembers a role whose party holds no mandate. Remembers nothing if out of memory.
fn insert_without_mandates(known: KnownRoles, grant: Grant) -> Option<KnownRoles>
    ensures { (r : Register) → IsKnownIn r known → HoldsNoMandate r grant.party → AreKnownIn r result }
{
    let KnownRoles {
        roles,
        mut without_mandates,
        count,
    } = known;
    match without_mandates.insert(grant) {
        Ok(()) => Some(KnownRoles {
            roles,
            without_mandates,
            count: count.saturating_add(1),
        }),
        Err(_) => None,
    }
}

/// Remembers that a caller holds the role that it claims, if its verdict shows it and it is not known yet.
pub(crate) fn remember(
    alloc: Global,
    known: &mut Option<KnownRoles>,
    caller: Caller,
    is_held: bool,
    verdict: Verdict,
)
    ensures { (r : Register) → AreKnownIn r known.old → HoldsRoleIf (shows_role verdict) r caller
        → AreKnownIn r known.new }
{
    if is_held || !shows_role(verdict) {
        return;
    }
    let roomy = with_room(alloc, known.take());
    *known = insert_role(roomy, claimed_role(caller));
}

/// Remembers that a caller holds no mandate, if it holds none at the latest time.
pub(crate) fn remember_no_mandate(
    alloc: Global,
    known: &mut Option<KnownRoles>,
    caller: Caller,
    is_latest: bool,
    holds_none: bool,
)
    ensures { (r : Register) → AreKnownIn r known.old
        → (is_latest ≡ true → HoldsNoMandateIf holds_none r caller.party) → AreKnownIn r known.new }
{
    if !is_latest || !holds_none {
        return;
    }
    let roomy = with_room(alloc, known.take());
    *known = insert_without_mandates(roomy, claimed_role(caller));
}

/// Forgets all facts if a change ends a role or gives a mandate. The remembered facts then hold before and
/// after the change.
pub(crate) fn forget_outdated(known: &mut Option<KnownRoles>, change: &Change)
    ensures { (r : Register) → AreKnownIn r known.old
        → AreKnownIn r known.new × AreKnownIn (after change.now r) known.new }
{
    if !change.ended.roles.as_slice().is_empty() {
        *known = None;
        return;
    }
    if !change.put.mandates.as_slice().is_empty() {
        *known = None;
    }
}
