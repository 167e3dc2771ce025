//! Checks values that are current together under a key, at each moment.
ghost use Rattle.std.specs.List.Sorted.{IsPermutation};
ghost use Rattle.std.specs.Prelude.{◌≡◌, ◌↔◌, ◌++◌, Bool, List, [], true, IfOk, filter, map as map_list};
ghost use Rattle.land_tables_history.specs.Sweeps.Sweep.{AreSound, is_at};
ghost use Rattle.land_tables_history.specs.Sweeps.SweepSteps.{begun_by, end, is_begun_by, left_by};
ghost use Rattle.land_tables_history.specs.Sweeps.SweepSteps.{span_start};
ghost use Rattle.land_tables_history.specs.Sweeps.SweepSteps.{sound_from, all_ticks};

use std::alloc::{AllocError, Global};

/// A value under a key, with a lifespan.
#[derive(Clone, Copy, Debug, PartialEq, Eq, PartialOrd, Ord)]
pub struct LiveSpan<T> {
    /// The key.
    pub key: u64,
    /// The start of the lifespan, inclusive, in Unix milliseconds.
    pub since: i64,
    /// The end of the lifespan, exclusive, in Unix milliseconds.
    pub until: i64,
    /// The value.
    pub what: T,
}

/// A start or an end of a lifespan under a key.
#[derive(Clone, Copy, Debug, PartialEq, Eq, PartialOrd, Ord)]
pub(crate) struct Tick {
    /// The key.
    key: u64,
    /// The moment, in Unix milliseconds.
    at: i64,
}

/// Values that are sound or unsound together.
pub trait SweepItem: Copy + Ord {
    /// Whether these values are sound together.
    ghost is_sound: { List Self → Bool };

    /// Returns whether these values are sound together. Returns an error only if it is out of memory.
    fn check_soundness(alloc: Global, there: &[LiveSpan<Self>]) -> Result<bool, AllocError>
        ensures { IfOk result (λ it. it ≡ is_sound (map_list (λ x. x.what) there.now)) };

    /// No values are sound together.
    ghost empty_is_sound: { is_sound [] ≡ true };

    /// Their order does not matter.
    ghost in_any_order: { (xs ys : List Self) → IsPermutation xs ys → is_sound xs ≡ is_sound ys };
}

/// Returns whether the values that are current together under each key are sound, at each moment. Sorts them,
/// and checks them only at starts and ends, each time only the values that are current then. Returns an error
/// only if it is out of memory.
pub fn are_sound<T: SweepItem>(
    alloc: Global,
    live_spans: &mut Vec<LiveSpan<T>>,
) -> Result<bool, AllocError>
    ensures { IfOk result (λ it. (it ≡ true) ↔ AreSound T.SweepItem.is_sound live_spans.old.items) }
{
    let mut ticks = all_ticks(alloc, live_spans.as_slice())?;
    ticks.sort_unstable();
    live_spans.sort_unstable();
    are_sound_in_order(alloc, live_spans.as_slice(), ticks.as_slice())
}

/// Returns all starts and ends.
fn all_ticks<T>(alloc: Global, live_spans: &[LiveSpan<T>]) -> Result<Vec<Tick>, AllocError>
    ensures { IfOk result (λ it. it.items ≡ all_ticks live_spans.now) }
{
    let mut ticks = Vec::new(alloc);
    for one in live_spans {
        ticks.push(span_start(one))?;
    }
    for one in live_spans {
        ticks.push(end(one))?;
    }
    Ok(ticks)
}

/// Returns the start of a lifespan.
fn span_start<T>(one: &LiveSpan<T>) -> Tick
    ensures { result ≡ span_start one.now }
{
    Tick {
        key: one.key,
        at: one.since,
    }
}

/// Returns the end of a lifespan.
fn end<T>(one: &LiveSpan<T>) -> Tick
    ensures { result ≡ end one.now }
{
    Tick {
        key: one.key,
        at: one.until,
    }
}

/// Checks the same for sorted values, at sorted starts and ends.
fn are_sound_in_order<T: SweepItem>(
    alloc: Global,
    live_spans: &[LiveSpan<T>],
    ticks: &[Tick],
) -> Result<bool, AllocError>
    ensures { IfOk result (λ it. it ≡ sound_from T.SweepItem.is_sound [] live_spans.now ticks.now) }
{
    let mut there = Vec::new(alloc);
    let mut later = live_spans;
    for tick in ticks {
        later = add_started(&mut there, later, *tick)?;
        remove_ended(&mut there, tick);
        if !T::check_soundness(alloc, there.as_slice())? {
            return Ok(false);
        }
    }
    Ok(true)
}

/// Adds the values that start by a tick, and returns those that start later.
fn add_started<'a, T: Copy>(
    there: &mut Vec<LiveSpan<T>>,
    later: &'a [LiveSpan<T>],
    tick: Tick,
) -> Result<&'a [LiveSpan<T>], AllocError>
    ensures { IfOk result (λ it. (there.new.items ≡ there.old.items ++ begun_by tick later.now)
        × (it.now ≡ left_by tick later.now)) }
{
    let mut rest = later;
    while let [one, others @ ..] = rest {
        if !is_begun_by(tick, one) {
            return Ok(rest);
        }
        there.push(*one)?;
        rest = others;
    }
    Ok(rest)
}

/// Removes the values that are not current at a tick.
fn remove_ended<T: Copy>(there: &mut Vec<LiveSpan<T>>, tick: &Tick)
    ensures { there.new.items ≡ filter (is_at tick.now.key tick.now.at) there.old.items }
{
    there.retain(|one| is_at(tick, one));
}

/// Returns whether a value has an earlier key than a tick, or has started.
fn is_begun_by<T>(tick: Tick, one: &LiveSpan<T>) -> bool
    ensures { result ≡ is_begun_by tick one.now }
{
    one.key < tick.key || one.key == tick.key && one.since <= tick.at
}

/// Returns whether a value is current at a tick.
fn is_at<T>(tick: &Tick, one: &LiveSpan<T>) -> bool
    ensures { result ≡ is_at tick.now.key tick.now.at one.now }
{
    one.key == tick.key && one.since <= tick.at && tick.at < one.until
}
