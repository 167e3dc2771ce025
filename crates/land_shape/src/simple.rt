//! Simple rings.

ghost use Rattle.std.specs.Prelude.{◌≡◌, ◌↔◌, ◌<◌, ◌≤◌, ◌+◌, length, IsTrue, ℕ};
ghost use Rattle.land_shape.specs.Simple.{place_of, places, place_at, next_place_at, MeetOnlyAtJoint};
ghost use Rattle.land_shape.specs.Simple.{AllMeetOnlyAtJoints};
ghost use Rattle.land_shape.specs.Simple.{HaveLength};
ghost use Rattle.land_shape.specs.Segment.{MeetOnlyAt, HaveCommonPoint};

use crate::boxes::box_of;
use crate::closing::is_same_place;
use crate::corners::{corner, corner_after};
use crate::plane::Point;
use crate::segment::have_common_point;

/// The number of consecutive edges that are compared with each later edge by their common box.
const GROUP_SIZE: usize = 8;

/// Checks if the edges from `i` and from a later `j`, which are not neighbours, have a common point.
fn edges_meet(points: &[Point], i: usize, j: usize) -> bool
    requires i_in { i < length points.now }
    requires j_in { j < length points.now }
    ensures { IsTrue result
        ↔ HaveCommonPoint (place_at (places points.now) i) (next_place_at (places points.now) i)
        (place_at (places points.now) j) (next_place_at (places points.now) j) }
{
    have_common_point(
        corner(points, i),
        corner_after(points, i),
        corner(points, j),
        corner_after(points, j),
    )
}

/// Checks if the edges from `a` to `b` and from `b` to `c` have only `b` in common.
fn meet_at_joint(a: Point, b: Point, c: Point) -> bool
    requires { ¬ (place_of a ≡ place_of b) }
    ensures { IsTrue result ↔ MeetOnlyAt (place_of b) (place_of a) (place_of b) (place_of b) (place_of c) }
{
    let first = a.shift_to(b);
    let second = b.shift_to(c);
    first.cross(second) != 0 || first.dot(second) >= 0
}

/// Checks if the edges from `i` and from a later `j` have no common point except their joint.
fn meet_only_at_joint(points: &[Point], i: usize, j: usize) -> bool
    requires order { i < j }
    requires within { j < length points.now }
    requires long { HaveLength (places points.now) }
    ensures { IsTrue result ↔ MeetOnlyAtJoint (places points.now) i j }
{
    if j == i + 1 {
        meet_at_joint(
            corner(points, i),
            corner(points, j),
            corner_after(points, j),
        )
    } else if i == 0 && j + 1 == points.len() {
        meet_at_joint(
            corner(points, j),
            corner(points, 0),
            corner_after(points, 0),
        )
    } else {
        !edges_meet(points, i, j)
    }
}

/// Checks if the edges with index at least `start`, below `end` and below `j` meet the edge from `j` only at
/// joints.
fn earlier_meet_only_at_joint(points: &[Point], start: usize, end: usize, j: usize) -> bool
    requires within { j < length points.now }
    requires long { HaveLength (places points.now) }
    ensures { IsTrue result ↔ ((i : ℕ) → start ≤ i → i < end → i < j
        → MeetOnlyAtJoint (places points.now) i j) }
{
    for i in start..end {
        if i < j && !meet_only_at_joint(points, i, j) {
            return false;
        }
    }
    true
}

/// Checks if the edges with index at least `start` and below `end` meet each later one only at joints. An
/// edge outside their box meets none of them, so it is skipped.
fn group_meets_only_at_joints(points: &[Point], start: usize, end: usize) -> bool
    requires order { start < end }
    requires within { end ≤ length points.now }
    requires long { HaveLength (places points.now) }
    ensures { IsTrue result ↔ ((i j : ℕ) → start ≤ i → i < end → i < j → j < length points.now
        → MeetOnlyAtJoint (places points.now) i j) }
{
    let around = box_of(points, start, end);
    for j in start + 1..points.len() {
        if around.overlaps_edge(corner(points, j), corner_after(points, j))
            && !earlier_meet_only_at_joint(points, start, end, j)
        {
            return false;
        }
    }
    true
}

/// Returns the end of the group of edges that starts at `start`.
fn group_end(count: usize, start: usize) -> usize
    requires { start < count }
    ensures some { start < result }
    ensures within { result ≤ count }
{
    if count - start > GROUP_SIZE {
        start + GROUP_SIZE
    } else {
        count
    }
}

/// Checks if no two different edges have a common point except the joint of neighbours.
fn all_meet_only_at_joints(points: &[Point]) -> bool
    requires long { HaveLength (places points.now) }
    ensures { IsTrue result ↔ AllMeetOnlyAtJoints (places points.now) }
{
    let mut start = 0;
    while start < points.len() {
        let end = group_end(points.len(), start);
        if !group_meets_only_at_joints(points, start, end) {
            return false;
        }
        start = end;
    }
    true
}

/// Checks if each edge has two different ends.
fn have_length(points: &[Point]) -> bool
    ensures { IsTrue result ↔ HaveLength (places points.now) }
{
    for i in 0..points.len() {
        if is_same_place(corner(points, i), corner_after(points, i)) {
            return false;
        }
    }
    true
}

/// Checks if each edge has two different ends, and no two edges have a common point except the joint of
/// neighbours.
pub(crate) fn meets_only_at_joints(points: &[Point]) -> bool
    ensures { IsTrue result ↔ (HaveLength (places points.now) × AllMeetOnlyAtJoints (places points.now)) }
{
    have_length(points) && all_meet_only_at_joints(points)
}
