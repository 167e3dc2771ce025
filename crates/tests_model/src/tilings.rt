//! Random tilings: a rectangle is cut along straight lines between points of the edges of its parcels,
//! repeatedly. The expected result follows from the way in which the parcels were made. Every cut ends at a
//! quarter, a half or three quarters of an edge, and the rectangle is so large that all points are whole
//! millimetres, at least sixteen apart.

use land_shape::{Ring, ShapeFault, chain_matches, read_wkt};
use std::alloc::{AllocError, Global};
use std::test::Fail;

/// The number of tilings, and the number of cuts of each rectangle.
const TILINGS: u64 = 5;

const CUTS: u32 = 6;

/// A corner of a parcel.
#[derive(Clone, Copy)]
struct Spot {
    x: i64,
    y: i64,
}

const ORIGIN: Spot = Spot { x: 0, y: 0 };

const WIDE: i64 = 3 * 1_048_576;

const HIGH: i64 = 2 * 1_048_576;

const RECTANGLE: &[Spot] = &[
    ORIGIN,
    Spot { x: WIDE, y: 0 },
    Spot { x: WIDE, y: HIGH },
    Spot { x: 0, y: HIGH },
];

/// Pseudo-random numbers, which are the same for the same seed.
#[derive(Drop)]
struct Dice(u64);

impl Dice {
    /// Returns a number below `count`, which is not 0.
    fn below(&mut self, count: usize) -> usize {
        self.0 = self
            .0
            .wrapping_mul(6_364_136_223_846_793_005)
            .wrapping_add(1_442_695_040_888_963_407);
        if count == 0 {
            return 0;
        }
        (self.0 >> 33) as usize % count
    }

    /// Returns one, two or three quarters.
    fn quarters(&mut self) -> i64 {
        match self.below(3) {
            0 => 1,
            1 => 2,
            _ => 3,
        }
    }
}

fn weighed(from: i64, to: i64, quarters: i64) -> i64 {
    let rest = 4i64.wrapping_sub(quarters);
    from.wrapping_mul(rest)
        .wrapping_add(to.wrapping_mul(quarters))
        >> 2
}

/// Returns the point at this number of quarters of the way between two spots.
fn between(from: Spot, to: Spot, quarters: i64) -> Spot {
    Spot {
        x: weighed(from.x, to.x, quarters),
        y: weighed(from.y, to.y, quarters),
    }
}

/// Returns the spot at an index, modulo the number of spots.
fn corner_at(parcel: &[Spot], index: usize) -> Spot {
    if parcel.is_empty() {
        return ORIGIN;
    }
    parcel[index % parcel.len()]
}

fn on_edge(parcel: &[Spot], index: usize, quarters: i64) -> Spot {
    between(
        corner_at(parcel, index),
        corner_at(parcel, index.wrapping_add(1)),
        quarters,
    )
}

/// Returns the two parts of a parcel along a line from one of its edges to a later one.
fn cut(
    alloc: Global,
    parcel: &[Spot],
    first: usize,
    second: usize,
    dice: &mut Dice,
) -> Result<(Vec<Spot>, Vec<Spot>), AllocError> {
    let start = on_edge(parcel, first, dice.quarters());
    let end = on_edge(parcel, second, dice.quarters());
    let mut inner = Vec::new(alloc);
    let mut outer = Vec::new(alloc);
    for (i, corner) in parcel.iter().enumerate() {
        if i > first && i <= second {
            inner.push(*corner)?;
        } else {
            outer.push(*corner)?;
        }
        if i == first {
            inner.push(start)?;
            outer.push(start)?;
            outer.push(end)?;
        }
    }
    inner.push(end)?;
    Ok((inner, outer))
}

/// Returns the parcels with one of them cut in two.
fn cut_once(
    alloc: Global,
    so_far: Vec<Vec<Spot>>,
    dice: &mut Dice,
) -> Result<Vec<Vec<Spot>>, AllocError> {
    let mut parcels = so_far;
    let chosen = dice.below(parcels.len());
    if chosen < parcels.len() {
        let parcel = parcels.swap_remove(chosen);
        let first = dice.below(parcel.len().saturating_sub(1));
        let more = dice.below(parcel.len().saturating_sub(1).saturating_sub(first));
        let second = first.wrapping_add(1).wrapping_add(more);
        let (inner, outer) = cut(alloc, &parcel, first, second, dice)?;
        parcels.push(inner)?;
        parcels.push(outer)?;
    }
    Ok(parcels)
}

/// Returns the parcels of a rectangle.
fn tiling(alloc: Global, dice: &mut Dice) -> Result<Vec<Vec<Spot>>, AllocError> {
    let mut parcels = Vec::new(alloc);
    parcels.push(RECTANGLE.to_vec(alloc)?)?;
    for _ in 0..CUTS {
        parcels = cut_once(alloc, parcels, dice)?;
    }
    Ok(parcels)
}

/// Returns the ring of these spots.
fn ring_of(alloc: Global, parcel: &[Spot]) -> Result<Ring, ShapeFault> {
    let mut text = String::from_str(alloc, "POLYGON ((")?;
    for corner in parcel {
        let x = corner.x;
        let y = corner.y;
        let point = format!(in alloc; "{x} {y}, ")?;
        text.push_str(point.as_str())?;
    }
    let first = corner_at(parcel, 0);
    let x = first.x;
    let y = first.y;
    let last = format!(in alloc; "{x} {y}))")?;
    text.push_str(last.as_str())?;
    read_wkt(alloc, text.as_str())
}

fn rings_of(alloc: Global, parcels: &[Vec<Spot>]) -> Result<Vec<Ring>, ShapeFault> {
    let mut rings = Vec::new(alloc);
    for parcel in parcels {
        rings.push(ring_of(alloc, parcel)?)?;
    }
    Ok(rings)
}

/// Returns the parcel starting at another corner, with more points on some of its edges.
fn rewritten(alloc: Global, parcel: &[Spot], dice: &mut Dice) -> Result<Vec<Spot>, AllocError> {
    let begin = dice.below(parcel.len());
    let mut spots = Vec::new(alloc);
    for i in 0..parcel.len() {
        let index = begin.wrapping_add(i);
        spots.push(corner_at(parcel, index))?;
        if dice.below(2) == 0 {
            spots.push(on_edge(parcel, index, 2))?;
        }
    }
    Ok(spots)
}

/// Returns the parcels in another order, each starting at another corner and with more points on its edges.
fn all_rewritten(
    alloc: Global,
    parcels: &[Vec<Spot>],
    dice: &mut Dice,
) -> Result<Vec<Vec<Spot>>, AllocError> {
    let mut all = Vec::new(alloc);
    for parcel in parcels {
        all.push(rewritten(alloc, parcel, dice)?)?;
        let other = dice.below(all.len());
        if let Some(last) = all.len().checked_sub(1)
            && other < all.len()
        {
            all.swap(other, last);
        }
    }
    Ok(all)
}

/// Returns the parcel with its first corner, or all of them, moved to the right.
fn moved(alloc: Global, parcel: &[Spot], corners: usize, by: i64) -> Result<Vec<Spot>, AllocError> {
    let mut spots = Vec::new(alloc);
    for (i, corner) in parcel.iter().enumerate() {
        let shift = if i < corners { by } else { 0 };
        spots.push(Spot {
            x: corner.x.wrapping_add(shift),
            y: corner.y,
        })?;
    }
    Ok(spots)
}

/// Returns whether the parcels match the rectangle, and match themselves in another representation.
fn are_matched(alloc: Global, parcels: &[Vec<Spot>], dice: &mut Dice) -> Result<bool, ShapeFault> {
    let rings = rings_of(alloc, parcels)?;
    let others = rings_of(alloc, &all_rewritten(alloc, parcels, dice)?)?;
    let mut around = Vec::new(alloc);
    around.push(ring_of(alloc, RECTANGLE)?)?;
    Ok(
        chain_matches(alloc, &rings, &around)?
            && chain_matches(alloc, &others, &around)?
            && chain_matches(alloc, &rings, &others)?,
    )
}

/// Returns whether a tiling matches itself with another ring in place of its first.
fn matches_with(
    alloc: Global,
    parcels: &[Vec<Spot>],
    other: Option<Vec<Spot>>,
) -> Result<bool, ShapeFault> {
    let rings = rings_of(alloc, parcels)?;
    let mut others = match other {
        None => Vec::new(alloc),
        Some(parcel) => {
            let mut all = Vec::new(alloc);
            all.push(ring_of(alloc, &parcel)?)?;
            all
        }
    };
    for ring in rings.iter().skip(1) {
        others.push(ring.copy()?)?;
    }
    Ok(chain_matches(alloc, &rings, &others)? || chain_matches(alloc, &others, &rings)?)
}

/// Returns whether different ground is detected: a corner is a millimetre off, a parcel overlaps one
/// neighbour and leaves an equal gap at another, or is missing.
fn are_told_apart(alloc: Global, parcels: &[Vec<Spot>]) -> Result<bool, ShapeFault> {
    match parcels.first() {
        None => Ok(false),
        Some(parcel) => Ok(
            !matches_with(alloc, parcels, Some(moved(alloc, parcel, 1, 1)?))?
                && !matches_with(alloc, parcels, Some(moved(alloc, parcel, usize::MAX, 4)?))?
                && !matches_with(alloc, parcels, None)?
                && matches_with(alloc, parcels, Some(moved(alloc, parcel, 0, 4)?))?,
        ),
    }
}

#[test]
fn tilings_match(rt: HostRuntime) -> Result<(), Fail> {
    for seed in 0..TILINGS {
        let mut dice = Dice(seed);
        let parcels = tiling(rt.alloc(), &mut dice)?;
        assert!(&rt; are_matched(rt.alloc(), &parcels, &mut dice)?, "{seed}");
    }
    Ok(())
}

#[test]
fn other_ground_does_not_match(rt: HostRuntime) -> Result<(), Fail> {
    for seed in 0..TILINGS {
        let parcels = tiling(rt.alloc(), &mut Dice(seed))?;
        assert!(&rt; are_told_apart(rt.alloc(), &parcels)?, "{seed}");
    }
    Ok(())
}
