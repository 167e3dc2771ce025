//! Sweeps over intervals of time, as examples calculated by hand: required intervals that are covered,
//! records that are current together, and disjoint intervals.
ghost use Rattle.std.proofs.Common.{ap, sym};
ghost use Rattle.std.proofs.lemmas.List.Sorted.{length_permutation};
ghost use Rattle.std.specs.List.{list_all};
ghost use Rattle.std.specs.Prelude.{◌≡◌, true, false, refl, int_lt, nat_le, length};

use land_tables_history::sweeps::apart::{Span, are_apart};
use land_tables_history::sweeps::cover::{CoverageSpan, is_covered};
use land_tables_history::sweeps::sweep::{LiveSpan, SweepItem, are_sound};
use std::alloc::{AllocError, Global};
use std::test::Fail;

// ---- required intervals that are covered

fn provided(key: u64, since: i64, until: i64) -> CoverageSpan
    ensures { result ≡ record { first = key; second = 0; since = since; required = false; until = until } }
{
    CoverageSpan {
        first: key,
        second: 0,
        since,
        required: false,
        until,
    }
}

fn required(key: u64, since: i64, until: i64) -> CoverageSpan
    ensures { result ≡ record { first = key; second = 0; since = since; required = true; until = until } }
{
    CoverageSpan {
        first: key,
        second: 0,
        since,
        required: true,
        until,
    }
}

/// Returns whether each key is provided whenever it is required.
fn covers(alloc: Global, pieces: &[CoverageSpan]) -> Result<bool, AllocError>
    requires { list_all (λ x. int_lt x.since x.until) pieces.now ≡ true }
{
    let mut copies = pieces.to_vec(alloc)?;
    Ok(is_covered(&mut copies))
}

#[test]
fn nothing_is_asked_for(rt: HostRuntime) -> Result<(), Fail> {
    assert!(&rt; covers(rt.alloc(), &[])?);
    assert!(&rt; covers(rt.alloc(), &[provided(1, 10, 20)])?);
    assert!(&rt; !covers(rt.alloc(), &[required(1, 10, 20)])?);
    Ok(())
}

/// A provided interval starts and ends with the required one, or a millisecond too late or too early.
#[test]
fn provided_intervals_start_and_end_with_required_ones(rt: HostRuntime) -> Result<(), Fail> {
    assert!(&rt; covers(rt.alloc(), &[required(1, 10, 20), provided(1, 10, 20)])?);
    assert!(&rt; !covers(rt.alloc(), &[required(1, 10, 20), provided(1, 11, 20)])?);
    assert!(&rt; !covers(rt.alloc(), &[required(1, 10, 20), provided(1, 10, 19)])?);
    assert!(&rt; !covers(rt.alloc(), &[required(1, 20, 30), provided(1, 10, 20)])?);
    Ok(())
}

/// Provided intervals that touch leave no gap. A gap of a millisecond matters only if the time is required.
#[test]
fn gaps_between_offers(rt: HostRuntime) -> Result<(), Fail> {
    let (early, late) = (provided(1, 10, 15), provided(1, 15, 20));
    let after_a_gap = provided(1, 16, 20);
    assert!(&rt; covers(rt.alloc(), &[late, required(1, 10, 20), early])?);
    assert!(&rt; !covers(rt.alloc(), &[after_a_gap, required(1, 10, 20), early])?);
    assert!(&rt;
        covers(
            rt.alloc(),
            &[required(1, 16, 20), after_a_gap, required(1, 10, 15), early]
        )?
    );
    assert!(&rt; !covers(rt.alloc(), &[required(1, 15, 16), after_a_gap, early])?);
    Ok(())
}

/// An interval that one key provides does not cover another key.
#[test]
fn offers_of_two_keys(rt: HostRuntime) -> Result<(), Fail> {
    assert!(&rt;
        covers(
            rt.alloc(),
            &[
                required(1, 10, 20),
                provided(2, 10, 20),
                provided(1, 5, 25),
                required(2, 12, 14)
            ]
        )?
    );
    assert!(&rt; !covers(rt.alloc(), &[required(1, 10, 20), provided(2, 10, 20)])?);
    assert!(&rt;
        !covers(
            rt.alloc(),
            &[
                required(1, 10, 20),
                provided(1, 10, 15),
                provided(2, 15, 20)
            ]
        )?
    );
    Ok(())
}

// ---- records that are current together

/// At most two of these are sound together.
#[derive(Clone, Copy, Debug, PartialEq, Eq, PartialOrd, Ord)]
struct Seat(u64);

impl SweepItem for Seat {
    ghost is_sound = { λ there. nat_le (length there) 2 };

    fn check_soundness(_alloc: Global, there: &[LiveSpan<Seat>]) -> Result<bool, AllocError> {
        Ok(there.len() <= 2)
    }

    ghost empty_is_sound = { refl };

    ghost in_any_order = { λ xs ys p. sym (ap (λ n. nat_le n 2) (length_permutation xs ys p)) };
}

fn taken(key: u64, since: i64, until: i64) -> LiveSpan<Seat> {
    LiveSpan {
        key,
        since,
        until,
        what: Seat(since.unsigned_abs()),
    }
}

/// Returns whether at most two are current together under each key.
fn are_few(alloc: Global, seats: &[LiveSpan<Seat>]) -> Result<bool, AllocError> {
    let mut copies = seats.to_vec(alloc)?;
    are_sound(alloc, &mut copies)
}

#[test]
fn nothing_stands(rt: HostRuntime) -> Result<(), Fail> {
    assert!(&rt; are_few(rt.alloc(), &[])?);
    assert!(&rt; are_few(rt.alloc(), &[taken(1, 10, 20)])?);
    Ok(())
}

/// A record that ends when the third starts is not current with it, and one that ends a millisecond later is.
#[test]
fn a_third_begins_when_the_first_ends(rt: HostRuntime) -> Result<(), Fail> {
    assert!(&rt;
        are_few(
            rt.alloc(),
            &[taken(1, 15, 18), taken(1, 12, 20), taken(1, 10, 15)]
        )?
    );
    assert!(&rt;
        !are_few(
            rt.alloc(),
            &[taken(1, 15, 18), taken(1, 12, 20), taken(1, 10, 16)]
        )?
    );
    Ok(())
}

/// Three are current at one time under three keys, and under two.
#[test]
fn keys_are_judged_apart(rt: HostRuntime) -> Result<(), Fail> {
    assert!(&rt;
        are_few(
            rt.alloc(),
            &[taken(1, 10, 20), taken(2, 10, 20), taken(3, 10, 20)]
        )?
    );
    assert!(&rt;
        are_few(
            rt.alloc(),
            &[taken(1, 10, 20), taken(2, 10, 20), taken(1, 11, 12)]
        )?
    );
    assert!(&rt;
        !are_few(
            rt.alloc(),
            &[
                taken(1, 10, 20),
                taken(2, 5, 9),
                taken(1, 11, 12),
                taken(1, 9, 12)
            ]
        )?
    );
    Ok(())
}

// ---- disjoint intervals

/// Returns the interval of a pair of a number and a text.
fn span(number: u64, text: &'static str, since: i64, until: i64) -> Span<(u64, &'static str)>
    ensures since { result.since ≡ since }
    ensures until { result.until ≡ until }
{
    Span {
        key: (number, text),
        since,
        until,
    }
}

/// Returns whether no two intervals of one key have a moment in common.
fn apart(alloc: Global, spans: &[Span<(u64, &'static str)>]) -> Result<bool, AllocError>
    requires { list_all (λ x. int_lt x.since x.until) spans.now ≡ true }
{
    let mut copies = spans.to_vec(alloc)?;
    Ok(are_apart(&mut copies))
}

#[test]
fn spans_touch_or_overlap(rt: HostRuntime) -> Result<(), Fail> {
    assert!(&rt; apart(rt.alloc(), &[])?);
    assert!(&rt; apart(rt.alloc(), &[span(1, "a", 15, 20), span(1, "a", 10, 15)])?);
    assert!(&rt; !apart(rt.alloc(), &[span(1, "a", 15, 20), span(1, "a", 10, 16)])?);
    assert!(&rt; !apart(rt.alloc(), &[span(1, "a", 12, 13), span(1, "a", 10, 20)])?);
    Ok(())
}

/// Intervals of two keys may have moments in common, whichever half of the keys differs.
#[test]
fn spans_of_two_keys(rt: HostRuntime) -> Result<(), Fail> {
    assert!(&rt;
        apart(
            rt.alloc(),
            &[
                span(1, "a", 10, 20),
                span(2, "a", 10, 20),
                span(1, "b", 10, 20)
            ]
        )?
    );
    assert!(&rt;
        !apart(
            rt.alloc(),
            &[
                span(1, "a", 10, 20),
                span(2, "a", 10, 20),
                span(1, "b", 12, 14),
                span(2, "a", 19, 30)
            ]
        )?
    );
    Ok(())
}
