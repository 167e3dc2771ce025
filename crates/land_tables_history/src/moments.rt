//! Finds the latest of a history's commits.
ghost use Rattle.std.specs.Prelude.{◌≡◌, ◌&&◌, int_le};
ghost use Rattle.land_tables_history.specs.Moments.{follows, last, latest, next_number_at};

use crate::moment::Moment;

/// Returns the latest of the commits, which may be in any order, or `None` without any.
pub fn last(moments: &[Moment]) -> Option<Moment>
    ensures { result ≡ last moments.now }
{
    let mut found = None;
    for moment in moments {
        if follows(found, moment) {
            found = Some(*moment);
        }
    }
    found
}

/// Returns the number of the next new object at a moment: that of the latest commit at or before it, or 2 if
/// there is none.
pub fn next_at(moments: &[Moment], at: i64) -> u64
    ensures { result ≡ next_number_at moments.now at }
{
    match latest_at(moments, at) {
        Some(moment) => moment.next,
        None => 2,
    }
}

/// Returns the latest of the commits at or before a moment, which may be in any order, or `None` without any.
pub fn latest_at(moments: &[Moment], at: i64) -> Option<Moment>
    ensures { result ≡ latest (λ m. int_le m.stamp at) moments.now }
{
    let mut found = None;
    for moment in moments {
        if is_later_until(found, moment, at) {
            found = Some(*moment);
        }
    }
    found
}

/// Returns whether a commit is at or before a moment, and not earlier than the one found until now, if any.
fn is_later_until(found: Option<Moment>, moment: &Moment, at: i64) -> bool
    ensures { result ≡ (int_le moment.now.stamp at && follows found moment.now) }
{
    moment.stamp <= at && follows(found, moment)
}

/// Returns whether a commit is not earlier than the one found until now, if any.
fn follows(found: Option<Moment>, moment: &Moment) -> bool
    ensures { result ≡ follows found moment.now }
{
    match found {
        Some(earlier) => earlier.stamp <= moment.stamp,
        None => true,
    }
}
