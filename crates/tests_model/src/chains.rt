//! Lists of rings with the same ground and with different ground, as examples calculated by hand.

use land_shape::{Ring, ShapeFault, chain_matches, laws, read_wkt};
use std::alloc::Global;
use std::test::Fail;

const WHOLE: &str = "POLYGON ((0 0, 10000 0, 10000 10000, 0 10000, 0 0))";

/// The same ring as `WHOLE`, starting at another point.
const BEGUN_LATER: &str = "POLYGON ((10000 10000, 0 10000, 0 0, 10000 0, 10000 10000))";

/// The same ring, with more points on its edges.
const WITH_MORE_POINTS: &str =
    "POLYGON ((0 0, 1 0, 10000 0, 10000 10000, 5000 10000, 4000 10000, 0 10000, 0 0))";

const WEST: &str = "POLYGON ((0 0, 5000 0, 5000 10000, 0 10000, 0 0))";

const SOUTH_EAST: &str = "POLYGON ((5000 0, 10000 0, 10000 5000, 5000 5000, 5000 0))";

const NORTH_EAST: &str = "POLYGON ((5000 5000, 10000 5000, 10000 10000, 5000 10000, 5000 5000))";

/// Has the area of both eastern parts, and lies a metre further east.
const BEYOND: &str = "POLYGON ((6000 0, 11000 0, 11000 10000, 6000 10000, 6000 0))";

/// Has the area of both eastern parts, and overlaps the west.
const OVER: &str = "POLYGON ((4000 0, 9000 0, 9000 10000, 4000 10000, 4000 0))";

/// The halves of the whole, divided by a slanted line through (2500 0) and (7500 10000) with a point on it.
const LEFT: &str = "POLYGON ((0 0, 2500 0, 5000 5000, 7500 10000, 0 10000, 0 0))";

const RIGHT: &str = "POLYGON ((2500 0, 10000 0, 10000 10000, 7500 10000, 2500 0))";

/// The right half with one end of the line a millimetre off.
const RIGHT_BUT_ONE: &str = "POLYGON ((2501 0, 10000 0, 10000 10000, 7500 10000, 2501 0))";

/// Four parcels around a hole of 2 by 2.
const AROUND_A_HOLE: &[&str] = &[
    "POLYGON ((0 0, 6 0, 6 4, 0 4, 0 0))",
    "POLYGON ((6 0, 10 0, 10 6, 6 6, 6 0))",
    "POLYGON ((4 6, 10 6, 10 10, 4 10, 4 6))",
    "POLYGON ((0 4, 4 4, 4 10, 0 10, 0 4))",
];

const HOLE: &str = "POLYGON ((4 4, 6 4, 6 6, 4 6, 4 4))";

const AROUND: &str = "POLYGON ((0 0, 10 0, 10 10, 0 10, 0 0))";

fn rings(alloc: Global, texts: &[&str]) -> Result<Vec<Ring>, ShapeFault> {
    let mut all = Vec::new(alloc);
    for text in texts {
        all.push(read_wkt(alloc, text)?)?;
    }
    Ok(all)
}

/// Returns whether the rings of two lists of texts have the same ground, if both orders of the arguments
/// agree.
fn match_texts(alloc: Global, texts: &[&str], others: &[&str]) -> Result<Option<bool>, ShapeFault> {
    let ours = rings(alloc, texts)?;
    let theirs = rings(alloc, others)?;
    let forth = chain_matches(alloc, &ours, &theirs)?;
    let back = chain_matches(alloc, &theirs, &ours)?;
    Ok(if forth == back { Some(forth) } else { None })
}

#[test]
fn no_rings_match_no_rings(rt: HostRuntime) -> Result<(), Fail> {
    assert_eq!(&rt; match_texts(rt.alloc(), &[], &[])?, Some(true));
    assert_eq!(&rt; match_texts(rt.alloc(), &[WHOLE], &[])?, Some(false));
    Ok(())
}

#[test]
fn a_ring_matches_itself(rt: HostRuntime) -> Result<(), Fail> {
    assert_eq!(&rt; match_texts(rt.alloc(), &[WHOLE], &[WHOLE])?, Some(true));
    assert_eq!(&rt;
        match_texts(rt.alloc(), &[WHOLE], &[BEGUN_LATER])?,
        Some(true)
    );
    assert_eq!(&rt;
        match_texts(rt.alloc(), &[WHOLE], &[WITH_MORE_POINTS])?,
        Some(true)
    );
    assert_eq!(&rt;
        match_texts(rt.alloc(), &[WHOLE, WHOLE], &[WHOLE])?,
        Some(false)
    );
    assert_eq!(&rt;
        match_texts(rt.alloc(), &[WHOLE, WEST], &[WEST, BEGUN_LATER])?,
        Some(true)
    );
    Ok(())
}

#[test]
fn parts_match_the_whole(rt: HostRuntime) -> Result<(), Fail> {
    assert_eq!(&rt;
        match_texts(rt.alloc(), &[WEST, SOUTH_EAST, NORTH_EAST], &[WHOLE])?,
        Some(true)
    );
    assert_eq!(&rt;
        match_texts(rt.alloc(), &[NORTH_EAST, WEST, SOUTH_EAST], &[BEGUN_LATER])?,
        Some(true)
    );
    assert_eq!(&rt;
        match_texts(rt.alloc(), &[LEFT, RIGHT], &[WHOLE])?,
        Some(true)
    );
    assert_eq!(&rt;
        match_texts(rt.alloc(), &[LEFT, RIGHT], &[SOUTH_EAST, WEST, NORTH_EAST])?,
        Some(true)
    );
    Ok(())
}

#[test]
fn equal_areas_may_lie_elsewhere(rt: HostRuntime) -> Result<(), Fail> {
    assert_eq!(&rt;
        match_texts(rt.alloc(), &[WEST, BEYOND], &[WHOLE])?,
        Some(false)
    );
    assert_eq!(&rt;
        match_texts(rt.alloc(), &[WEST, OVER], &[WHOLE])?,
        Some(false)
    );
    assert_eq!(&rt;
        match_texts(rt.alloc(), &[LEFT, RIGHT_BUT_ONE], &[WHOLE])?,
        Some(false)
    );
    assert_eq!(&rt;
        match_texts(rt.alloc(), &[WEST, SOUTH_EAST], &[WHOLE])?,
        Some(false)
    );
    Ok(())
}

fn match_around(alloc: Global, hole: &str) -> Result<bool, ShapeFault> {
    let mut parts = rings(alloc, AROUND_A_HOLE)?;
    let whole = rings(alloc, &[AROUND])?;
    let before = chain_matches(alloc, &parts, &whole)?;
    parts.push(read_wkt(alloc, hole)?)?;
    Ok(!before && chain_matches(alloc, &parts, &whole)?)
}

/// Parts that leave a hole do not match the outline around them; with the hole they do.
#[test]
fn holes_are_missed(rt: HostRuntime) -> Result<(), Fail> {
    assert!(&rt; match_around(rt.alloc(), HOLE)?);
    Ok(())
}

/// The laws are contracts of functions with empty bodies. This only calls them.
#[test]
fn laws_of_matching(_rt: HostRuntime) -> Result<(), Fail> {
    laws::places_on_edges();
    laws::matching_chains_have_equal_areas();
    Ok(())
}
