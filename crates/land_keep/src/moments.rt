//! Now, and the stamp of a change.
ghost use Rattle.std.specs.Prelude.{◌≡◌, ◌≤ℤ◌};
ghost use Rattle.land_core.specs.Numbers.{last_moment};
ghost use Rattle.land_keep.specs.Machine.{at_of};
ghost use Rattle.land_keep.specs.Moments.{now_after, stamp_after};

use land_core::ask::Ask;
use land_core::limits::LAST_MOMENT;

/// Returns now, for a read, from the clock and the last stamp.
pub(crate) fn now_at(clock: i64, last: i64) -> i64
    ensures { result ≡ now_after clock last }
{
    clock.max(0).min(LAST_MOMENT).max(last)
}

/// Returns the stamp of a change, from the clock and the last stamp; `None` if it would be after the last
/// moment.
pub(crate) fn stamp_at(clock: i64, last: i64) -> Option<i64>
    requires { last ≤ℤ last_moment }
    ensures { result ≡ stamp_after clock last }
{
    if LAST_MOMENT < clock || LAST_MOMENT < last + 1 {
        None
    } else {
        Some(clock.max(0).max(last + 1))
    }
}

/// Returns the moment that a request states, if any.
pub fn explicit_moment(ask: &Ask) -> Option<i64>
    ensures { result ≡ at_of ask.now }
{
    match ask {
        Ask::View { at, .. } | Ask::List { at, .. } | Ask::Sheet { at, .. } => *at,
        Ask::Do(_) => None,
    }
}
